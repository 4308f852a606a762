//! Loading a graph from an image.
ghost use Rattle.image.specs.Images.{image_rules};
ghost use Rattle.image.specs.declared.Kind.TheVariants.{Graph};
ghost use Rattle.image_graph.specs.Images.{Loaded};

use crate::held::ImageGraph;
use image::{Image, Kind, Load, Rejected};

impl ImageGraph {
    /// The graph that the bytes are an image of, or the bytes back with the first rule that they break.
    pub fn load(bytes: Vec<u8>) -> Result<ImageGraph, Rejected>
        ensures { Loaded bytes.items result }
    {
        let image = Image::open(bytes, Kind::Graph)?;
        Ok(ImageGraph { image })
    }
}

impl Load for ImageGraph {
    ghost KIND = { Graph };

    ghost rules = { image_rules Graph };

    ghost loads = { Loaded };

    ghost accepts = { λ bs graph loaded. loaded.spelled.valid };

    ghost keeps = { λ bs graph loaded. loaded.kept };

    ghost refuses = { λ bs back refused. refused.refused };

    const KIND: Kind = Kind::Graph;

    fn load(bytes: Vec<u8>) -> Result<ImageGraph, Rejected> {
        ImageGraph::load(bytes)
    }
}

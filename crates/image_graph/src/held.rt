//! A graph that is read from an image.
ghost use Rattle.std.specs.Prelude.{◌≡◌};
ghost use Rattle.image.specs.declared.Kind.TheVariants.{Graph};

use image::Image;

/// The graph of a valid image. It owns the image, and reads straight from its bytes.
#[derive(Drop)]
pub struct ImageGraph {
    pub(crate) image: Image,
    ghost isgraph: { image.kind ≡ Graph },
}

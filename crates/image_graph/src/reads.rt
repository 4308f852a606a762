//! Reading the image graph.
ghost use Rattle.std.specs.Prelude.{◌≡◌};
ghost use Rattle.image_graph.specs.Held.{meaning_of, lines_of, graph_bytes};
ghost use Rattle.image_graph.specs.Inner.{PartOf, OpenOf};
ghost use Rattle.image_graph.specs.Bounded.{bounded, lines_bounded};

use crate::held::ImageGraph;
use crate::parts::{OpenPart, read_line};
use graph::{Exit, Exits, Graph};
use refusal::{Cause, Reason, Refusal};

impl ImageGraph {
    // The part of state s.
    fn part(&self, s: u16) -> Result<&[u8], Refusal>
        ensures { PartOf (graph_bytes self.now) s result }
    {
        let outside = Refusal::at(Reason::StateOutside, usize::from(s));
        self.image.part(s).ok_or(outside)
    }

    // The part of state s, unless the state is closed: then its part is empty.
    fn open_part(&self, s: u16) -> Result<OpenPart<'_>, Refusal>
        ensures { OpenOf (graph_bytes self.now) s result }
    {
        let closed = Refusal::closed(Cause::empty_part(), usize::from(s), 0);
        OpenPart::read(self.part(s)?).ok_or(closed)
    }
}

impl Graph for ImageGraph {
    ghost meaning = { λ g. meaning_of (graph_bytes g) };

    ghost lines = { λ g. lines_of (graph_bytes g) };

    ghost bounds = { λ g. bounded g };

    ghost lined = { λ g. lines_bounded g };

    fn states(&self) -> u16 {
        self.image.count()
    }

    fn exits(&self, s: u16, out: &mut Exits) -> Result<(), Refusal> {
        out.clear();
        self.open_part(s)?.push_exits(out);
        Ok(())
    }

    fn exit(&self, s: u16, k: u16) -> Result<Option<Exit>, Refusal> {
        Ok(self.open_part(s)?.exit(k))
    }

    fn line(&self, s: u16) -> Result<u32, Refusal> {
        Ok(read_line(self.part(s)?))
    }
}

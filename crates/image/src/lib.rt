//! Images: a header, pairs of offset and length, and parts.
#![tactic(auto)]

ghost use Rattle.std.specs.Prelude.{◌≡◌};
ghost use Rattle.image.specs.Bytes.{pair_at};

mod checks;
mod headed;
mod held;
mod kinds;
mod load;
mod open;

pub use crate::held::Image;
pub use crate::load::Load;
use refusal::Refusal;

/// What an image holds, by the number that stands in its header.
#[derive(Clone, Copy, PartialEq, Eq, Debug)]
pub enum Kind {
    /// The names of events.
    Events = 1,
    /// The states of a graph.
    Graph = 2,
}

/// Bytes that were refused, handed back with the reason.
#[derive(Debug, Drop)]
pub struct Rejected {
    pub why: Refusal,
    pub bytes: Vec<u8>,
}

/// The place of pair i: behind the header, each pair takes 8 bytes.
pub fn pair_place(i: u16) -> usize
    ensures { result ≡ pair_at i }
{
    4 + 8 * usize::from(i)
}

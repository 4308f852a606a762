//! What each kind of image asks of its count and of its parts.
ghost use Rattle.std.specs.Prelude.{Some, Decides};
ghost use Rattle.image.specs.Kinds.{kind_word, CountAllowed, LengthAllowed, WellFormed};
ghost use Rattle.image.specs.Inner.{FirstIllFormed};
ghost use Rattle.image.specs.declared.Kind.TheVariants.{Graph};

use crate::Kind;
use name::{LONGEST, first_wrong};
use std::fmt;

impl Kind {
    // Whether an image may have so many parts.
    pub(crate) fn allows_count(self, count: u16) -> bool
        ensures { Decides result (CountAllowed self count) }
    {
        match self {
            Kind::Events => (1..=64).contains(&count),
            Kind::Graph => count <= 4096,
        }
    }

    // Whether a part may be so long.
    pub(crate) fn allows_length(self, size: usize) -> bool
        ensures { Decides result (LengthAllowed self size) }
    {
        match self {
            Kind::Events => (1..=LONGEST).contains(&size),
            Kind::Graph => size <= 4100 && size % 4 == 0,
        }
    }

    // The place of the first ill-formed item of a part, in an image of so many parts.
    pub(crate) fn first_ill_formed(self, part: &[u8], count: u16) -> Option<usize>
        ensures { FirstIllFormed self count part.now result }
    {
        match self {
            Kind::Events => first_wrong(part),
            Kind::Graph => first_wrong_exit(part, count),
        }
    }
}

impl fmt::Display for Kind {
    ghost output = { λ kind. Some (kind_word kind) };

    /// Its word, `events` or `graph`.
    fn fmt<W: fmt::Write>(&self, f: &mut fmt::Formatter<W>) -> fmt::Result {
        f.write_str(match self {
            Kind::Events => "events",
            Kind::Graph => "graph",
        })
    }
}

// Whether an exit is well formed, in a graph of so many states.
fn exit_stands(exit: &[u8; 4], states: u16) -> bool
    ensures { Decides result (WellFormed Graph states exit.now 0) }
{
    let [event, zero, low, high] = exit;
    *event < 64 && *zero == 0 && u16::from_le_bytes([*low, *high]) < states
}

// The place of the first ill-formed exit; exits stand behind the line, which takes four bytes as well.
fn first_wrong_exit(part: &[u8], states: u16) -> Option<usize>
    ensures { FirstIllFormed Graph states part.now result }
{
    let ([_, exits @ ..], _) = part.as_chunks::<4>() else {
        return None;
    };
    exits
        .iter()
        .position(|exit| !exit_stands(exit, states))
        .map(|j| 4 + 4 * j)
}

//! Why a state is closed.
ghost use Rattle.std.specs.Prelude.{◌≤◌};

/// Why a state is closed: a number from 31 to 39, and nothing else.
#[derive(Clone, Copy, PartialEq, Eq, Debug)]
pub struct Cause {
    pub(crate) number: u8,
    ghost closing: { (31 ≤ number) × (number ≤ 39) },
}

//! The exits of one state, as a graph hands them out.
ghost use Rattle.std.specs.Prelude.{◌≡◌, ◌≤◌, length};

use crate::Exit;

// The most exits that a state has.
pub(crate) const MOST: usize = 1024;

/// At most 1,024 exits in order: the first `count` of the entries.
#[derive(Drop)]
pub struct Exits {
    pub(crate) entries: [Exit; MOST],
    pub(crate) count: usize,
    ghost few: { count ≤ 1024 },
    ghost whole: { length entries ≡ 1024 },
}

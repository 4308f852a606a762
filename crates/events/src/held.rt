//! The names of the events, by number.
ghost use Rattle.std.specs.Prelude.{◌≡◌, ◌≤◌, length};
ghost use Rattle.events.specs.Lists.{Listed, first_names};

use name::Name;

// The most names that a list has.
pub(crate) const MOST: usize = 64;

/// One to 64 names, none twice: the first `count` of the entries, by number.
#[derive(Drop)]
pub struct EventList {
    pub(crate) entries: [Name; MOST],
    pub(crate) count: usize,
    ghost whole: { length entries ≡ 64 },
    ghost sized: { (1 ≤ count) × (count ≤ 64) },
    ghost listed: { Listed (first_names count entries) },
}

//! Looking up names and events.
ghost use Rattle.std.specs.Prelude.{◌≡◌, map, length};
ghost use Rattle.std.specs.List.{slice_get};
ghost use Rattle.std.specs.Option.{option_map};
ghost use Rattle.name.specs.Held.{name_bytes};
ghost use Rattle.events.specs.Lists.{Listed, EventOf};
ghost use Rattle.events.specs.Held.{names_in};

use crate::EventList;
use name::Name;

impl EventList {
    /// How many events there are, 1 to 64; no name is listed twice.
    pub fn len(&self) -> usize
        ensures count { result ≡ length (names_in self.now) }
        ensures listed { Listed (names_in self.now) }
    {
        self.count
    }

    /// The names, by number.
    pub fn names(&self) -> &[Name]
        ensures names { map name_bytes result.now ≡ names_in self.now }
        ensures listed { Listed (names_in self.now) }
    {
        &self.entries[..self.count]
    }

    /// The name of an event, or none where it has none.
    pub fn name(&self, event: u8) -> Option<Name>
        ensures { option_map name_bytes result ≡ slice_get (names_in self.now) event }
    {
        self.names().get(usize::from(event)).copied()
    }

    /// The event of a name, or none where it is not listed.
    pub fn find(&self, word: &[u8]) -> Option<u8>
        ensures { EventOf (names_in self.now) word.now result }
    {
        position(self.names(), word).map(|event| event as u8)
    }
}

// The place of a name in a list of names.
pub(crate) fn position(names: &[Name], word: &[u8]) -> Option<usize>
    ensures { EventOf (map name_bytes names.now) word.now result }
{
    names.iter().position(|name| name.as_bytes() == word)
}

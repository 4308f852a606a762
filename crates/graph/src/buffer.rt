//! What is done with the exits of a state.
ghost use Rattle.std.specs.Prelude.{◌≡◌, ◌≤◌, [], ◌∷◌, ◌++◌, length, take};
ghost use Rattle.std.specs.List.{slice_get};
ghost use Rattle.graph.specs.Buffers.{exits_in};

use crate::held::MOST;
use crate::{Exit, Exits};

impl Exits {
    /// No exits.
    pub fn new() -> Exits
        ensures { exits_in result ≡ [] }
    {
        Exits {
            entries: [Exit::default(); MOST],
            count: 0,
        }
    }

    /// How many there are, at most 1,024.
    pub fn len(&self) -> usize
        ensures count { result ≡ length (exits_in self.now) }
        ensures few { length (exits_in self.now) ≤ 1024 }
    {
        self.as_slice().len()
    }

    /// Exit k, or none where there are k or fewer.
    pub fn get(&self, k: usize) -> Option<Exit>
        ensures { result ≡ slice_get (exits_in self.now) k }
    {
        self.as_slice().get(k).copied()
    }

    /// All of them, in order.
    pub fn as_slice(&self) -> &[Exit]
        ensures exits { result.now ≡ exits_in self.now }
        ensures few { length result.now ≤ 1024 }
    {
        &self.entries[0..self.count]
    }

    /// Leaves none.
    pub fn clear(&mut self)
        ensures { exits_in self.new ≡ [] }
    {
        self.count = 0;
    }

    /// One more at the end. Past 1,024 nothing is taken in.
    pub fn push(&mut self, exit: Exit)
        ensures { exits_in self.new ≡ take 1024 (exits_in self.old ++ (exit ∷ [])) }
    {
        // Read once, for speed: the field would be read again behind each write to the entries.
        let count = self.count;
        if count >= MOST {
            return;
        }
        self.entries[count] = exit;
        self.count = count + 1;
    }
}

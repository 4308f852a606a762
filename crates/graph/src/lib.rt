//! What a graph of controller states is, and what it answers.
#![tactic(auto)]

ghost use Rattle.std.specs.Prelude.{◌≡◌, ℕ};
ghost use Rattle.graph.specs.Meanings.{Meaning, Bounds, LineBounds};
ghost use Rattle.graph.specs.Answers.{state_answer, exits_of, exit_answer, line_answer};
ghost use Rattle.graph.specs.Buffers.{exits_in};

mod buffer;
mod held;

pub use crate::held::Exits;
use refusal::Refusal;

/// An event and the state that it leads to. In a graph the event is 0 to 63, and the state is there.
#[derive(Clone, Copy, Default, PartialEq, Eq, Debug)]
pub struct Exit {
    pub event: u8,
    pub target: u16,
}

/// What a graph answers is settled by its meaning, which keeps the bounds. Asking changes nothing.
pub trait Graph {
    // the states, each with its exits in order or closed
    ghost meaning: { Self → Meaning };

    // the source line of each state
    ghost lines: { Self → ℕ → ℕ };

    /// The number of states.
    fn states(&self) -> u16
        ensures { result ≡ (meaning self.now).size };

    /// All exits of state s in order, in place of what `out` held. None where the state is refused.
    fn exits(&self, s: u16, out: &mut Exits) -> Result<(), Refusal>
        ensures answer { result ≡ state_answer (meaning self.now) s }
        ensures exits { exits_in out.new ≡ exits_of (meaning self.now) s };

    /// Exit k of state s, or none where s has k exits or fewer.
    fn exit(&self, s: u16, k: u16) -> Result<Option<Exit>, Refusal>
        ensures { result ≡ exit_answer (meaning self.now) s k }
    {
        let mut all = Exits::new();
        self.exits(s, &mut all)?;
        Ok(all.get(usize::from(k)))
    }

    /// The source line of state s, closed or not.
    fn line(&self, s: u16) -> Result<u32, Refusal>
        ensures { result ≡ line_answer (meaning self.now) (lines self.now) s };

    ghost bounds: { (g : Self) → Bounds (meaning g) };

    ghost lined: { (g : Self) → LineBounds (meaning g).size (lines g) };
}

//! The texts that are printed of an event list, of a graph, and of a refusal of either. Each line ends in byte 10.
#![tactic(auto)]

mod all_states;
mod names;
mod refused;
mod states;

pub use crate::all_states::{StateTexts, texts_by_state};
pub use crate::names::events_text;
pub use crate::refused::refused_text;
pub use crate::states::{state_text, states_text};

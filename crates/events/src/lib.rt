//! Event lists: which number each event's name stands for.
#![tactic(auto)]

mod held;
mod loads;
mod reads;

pub use crate::held::EventList;

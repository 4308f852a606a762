//! The image graph: part i of its image is state i, empty where the state is closed.
#![tactic(auto)]

mod held;
mod loads;
mod parts;
mod reads;

pub use crate::held::ImageGraph;

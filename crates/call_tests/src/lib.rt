//! Tests of the calls on event lists, graphs and refusals.
#![tactic(auto)]

#[cfg(test)]
mod tests;

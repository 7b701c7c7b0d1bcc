// The rows of a batch: an event read from its row, and an answer written into its row. Functions for this repository's own crates.
#![tactic(auto)]

pub mod events; // rows of events
pub mod answers; // rows of answers

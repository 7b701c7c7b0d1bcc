// The lent tables as rows of numbers. Its specs/ have the view of such numbers as the tables of document 01, and the way back. Functions for
// this repository's own crates.
#![tactic(auto)]

pub mod columns; // where each number stands in its row, how wide rows are, and how many there are at most
pub mod gates; // a gate, a decision and an outcome from their parts

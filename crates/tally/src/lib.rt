// The book and the figures of document 02, K1, as rows of numbers. Functions for this repository's own crates.
#![tactic(auto)]

pub mod columns; // where each number stands
pub mod notes; // the book
pub mod figures; // the figures

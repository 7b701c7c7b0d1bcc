// The moves within the lent tables, and the laws of all that writes them. Functions for this repository's own crates.
#![tactic(auto)]

pub mod rows; // a request sent or taken out, rows that close up, numbers that become zero

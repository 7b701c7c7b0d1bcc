// The rules of soundness that look at the settings of a guest or at one request, by the numbers of the lent tables. Functions for this repository's own crates.
#![tactic(auto)]

pub mod requests; // each request by itself
pub mod settings; // the settings of all guests

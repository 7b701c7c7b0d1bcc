// The walks over the lent rows that read and change nothing. Functions for this repository's own crates.
#![tactic(auto)]

pub mod flight; // the place of a name in flight
pub mod queue; // the requests that wait, as the walks are lent them
pub mod survey; // what an arrival has to know of the waiting rows

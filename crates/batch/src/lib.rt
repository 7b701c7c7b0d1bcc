// Document 02, K5: many events in one call. The crate has no code: it stands for what is in specs/ and proofs/; `slots` reads and writes the rows, and `bulk` is the call.
#![tactic(auto)]

use rules::{Gate, Refusal};

// The gate after a batch, and what was found before any of it was done: nothing, or why all of it is refused.
#[derive(Clone, Copy)]
pub struct Batched {
    pub gate: Gate,
    pub found: Result<(), Refusal>,
}

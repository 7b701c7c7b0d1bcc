// Houses with several arrays (document 02, K14): a guest spread over up to 8 of them, each with a gate of its own. For each guest and array it is counted what
// the house did for the guest since its last request to that array, and the gate there is handed it with the next one. Stands on the promises of the gate's calls
// alone. The crate has no code: it stands for what is in specs/ and proofs/; `house` has the calls.
#![tactic(auto)]

use rules::Flight;

// Which array a call names, counted from 0, and of how many.
#[derive(Clone, Copy)]
pub struct Site {
    pub arrays: u64,
    pub array: u64,
}

// The request that an arrival brings: whose, its id, and its cost.
#[derive(Clone, Copy)]
pub struct Asking {
    pub guest: u64,
    pub id: u32,
    pub cost: u64,
}

// What is asked at an array, and its time: a request arrives, one completes, or only time passes.
#[derive(Clone, Copy)]
pub enum Ask {
    Arrives(Asking, u64),
    Completes(Flight, u64),
    Ticks(u64),
}

// What the public calls promise: open, arrive, complete and tick. The crate has no code: it stands for what is in specs/ and proofs/; `opens` and `calling` are the calls,
// and `replies` has what they answer as numbers.
#![tactic(auto)]

use rules::Setup;

// What a gate is opened with: what is set for the whole array, and how many guests there are. Any numbers, until they are judged.
#[derive(Clone, Copy)]
pub struct Opening {
    pub setup: Setup,
    pub guests: u64,
}

// An answer as five numbers: the kind (0 nothing, 1 sent by reservation, 2 sent by weight, 3 refused), the guest and id sent, the refusal's
// number, and when to wake the gate by a tick. What an answer does not have is 0, in a refusal the time to wake too.
#[repr(C)]
#[derive(Clone, Copy)]
pub struct Reply {
    pub kind: u64,
    pub guest: u64,
    pub id: u64,
    pub refusal: u64,
    pub wake: u64,
}

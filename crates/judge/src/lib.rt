// Document 02, K10: which lines of another gate may stand for a trace, and what a judge of them answers. The crate has no code: it stands for what is in specs/ and
// proofs/; `ties`, `hears` and `judges` are the judge.
#![tactic(auto)]

use rules::{Answer, Gate};

// The number of the first line that is wrong, missing or surplus, the header line being 1, or 0 where all lines may stand; and what was due there, numbered as an
// answer through C is: kind (4 where no line is due any more), guest, id and refusal.
#[repr(C)]
#[derive(Clone, Copy)]
pub struct Judged {
    pub line: u64,
    pub kind: u64,
    pub guest: u64,
    pub id: u64,
    pub refusal: u64,
}

// What was heard: the gate as the other one left it, the answer that our rules have there, and how many bytes the line has, where it is right.
#[derive(Clone, Copy)]
pub struct Said {
    pub gate: Gate,
    pub answer: Answer,
    pub long: Option<usize>,
}

// The place of the request whose line was heard, and how many bytes its line has.
#[derive(Clone, Copy)]
pub struct Told {
    pub place: usize,
    pub long: usize,
}

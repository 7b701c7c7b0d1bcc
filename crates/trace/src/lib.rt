// The trace of document 01, and its version 2 of document 02, as bytes: what its header and its events are, and in specs/Printed.antt what is printed
// of it. The crate has no code: `fields`, `headers` and `items` read them. A header that opens reads as an `Opened`, a bad one as its refusal; an event
// reads as itself, and a bad one as none.
#![tactic(auto)]

// What the header of a trace opens.
#[derive(Clone, Copy)]
pub struct Opened {
    pub version: u64,
    pub depth: u64,
    pub guests: u64,
    pub capacity: u64,
    pub rule: u64,
}

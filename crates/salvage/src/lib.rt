// Document 02, K12: the salvage of a torn trace: why an event is dropped, and what a salvage answers. The rest is in specs/ and proofs/; `fates` says what
// becomes of one event, and `saves` salvages a trace.
#![tactic(auto)]

ghost use Rattle.std.specs.Prelude.{◌≡◌};
ghost use Rattle.salvage.specs.Fates.{reason_number};

// Why an event is dropped: its kind or its spare part is not one that an event has, its time is above the ceiling, before that of the last kept or too
// far ahead of it, or it is cut short.
#[derive(Clone, Copy)]
pub enum Reason {
    Bad = 1,
    Above,
    Behind,
    Ahead,
    Cut,
}

impl Reason {
    // Its number in the list.
    pub fn number(self) -> u64
        ensures { result ≡ reason_number self }
    {
        self as u64
    }
}

// How many bytes and rows a salvage wrote.
#[derive(Clone, Copy)]
pub struct Written {
    pub bytes: usize,
    pub rows: usize,
}

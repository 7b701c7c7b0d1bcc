// The tables that a program keeps: a gate and arrays of the largest size, in one struct that is passed on by reference. For this repository's own crates.
#![tactic(auto)]

ghost use Rattle.std.specs.Prelude.{◌≡◌};

use rules::{Gate, Setup};
use table::columns::{FLIGHT_LONG, GUESTS_LONG, WAITING_LONG};

// A gate and its three tables, each of the largest size.
#[derive(Drop)]
pub struct Tables {
    pub gate: Gate,
    pub guests: [u64; GUESTS_LONG],
    pub waiting: [u64; WAITING_LONG],
    pub flight: [u64; FLIGHT_LONG],
}

impl Tables {
    // Tables of zeros, before a header opens them: of no guest, with nothing waiting and nothing in flight.
    pub fn new() -> Self
        ensures { (result.gate.guests ≡ 0) × (result.gate.waiting ≡ 0) × (result.gate.flight ≡ 0) }
    {
        let setup = Setup {
            depth: 0,
            capacity: 0,
            rule: 0,
        };
        let gate = Gate {
            setup,
            guests: 0,
            time: 0,
            waiting: 0,
            flight: 0,
        };
        Tables {
            gate,
            guests: [0; GUESTS_LONG],
            waiting: [0; WAITING_LONG],
            flight: [0; FLIGHT_LONG],
        }
    }
}

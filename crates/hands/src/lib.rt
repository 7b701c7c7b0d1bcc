// What a C host hands over and gets back, as numbers: the gate is seven (depth, guests, capacity, time, waiting, flight, rule), the answer of a move or a salvage three.
// Functions for this repository's own crates.
#![tactic(auto)]

ghost use Rattle.std.specs.Prelude.{◌≡◌};
ghost use Rattle.gate.specs.Replies.{reply_of};
ghost use Rattle.batch.specs.Promise.{found_of};
ghost use Rattle.hands.specs.Host.{gate_in, gate_over, written, found_written};
ghost use Rattle.moved.specs.Moves.{moved_shown};
ghost use Rattle.salvage.specs.Salvages.{salvaged_shown};
ghost use Rattle.hands.specs.Traces.{three_of, mended_of};

use batch::Batched;
use gate::Reply;
use moved::Stopped;
use replies::five_of;
use rules::{Answer, Gate, Outcome, Refusal, Setup};
use salvage::Written;
use table::gates::gate_at;

// The gate that seven numbers are.
pub fn gate_in(seven: &[u64; 7]) -> Gate
    ensures { result ≡ gate_in seven.now }
{
    let setup = Setup {
        depth: seven[0],
        capacity: seven[2],
        rule: seven[6],
    };
    gate_at(setup, seven[1], seven[3], seven[4], seven[5])
}

// The seven numbers of a gate, written over those that were lent.
fn gate_over(seven: &mut [u64; 7], gate: Gate)
    ensures { seven.new ≡ gate_over gate seven.old }
{
    seven[0] = gate.setup.depth;
    seven[1] = gate.guests;
    seven[2] = gate.setup.capacity;
    seven[3] = gate.time;
    seven[4] = gate.waiting;
    seven[5] = gate.flight;
    seven[6] = gate.setup.rule;
}

// Writes the gate after a call over the seven numbers and gives its answer; a refusal leaves the seven numbers as they stood.
pub fn hand_back(seven: &mut [u64; 7], outcome: Outcome) -> Reply
    ensures { (result ≡ reply_of outcome.answer outcome.wake) × (seven.new ≡ written outcome.answer outcome.gate seven.old) }
{
    let answer = outcome.answer;
    let wake = outcome.wake;
    let gate = outcome.gate;
    match answer {
        Answer::Refused(_) => five_of(answer, wake),
        Answer::Nothing => {
            gate_over(seven, gate);
            five_of(answer, wake)
        }
        Answer::Sent { .. } => {
            gate_over(seven, gate);
            five_of(answer, wake)
        }
    }
}

// Writes the gate after a batch over the seven numbers and gives the number of what was found; a refused batch leaves the seven numbers as they stood.
pub fn hand_over(seven: &mut [u64; 7], done: Batched) -> u64
    ensures { (result ≡ found_of done.found) × (seven.new ≡ found_written done.found done.gate seven.old) }
{
    let found = done.found;
    let gate = done.gate;
    match found {
        Err(why) => u64::from(why),
        Ok(()) => {
            gate_over(seven, gate);
            0
        }
    }
}

// What a move answers as three numbers: 0 or the number of its refusal, the bytes written, 0 when refused, and the number of the event that refused it, or 0.
#[repr(C)]
#[derive(Clone, Copy)]
pub struct Carried {
    pub refusal: u64,
    pub written: u64,
    pub event: u64,
}

// A move's answer as its three numbers.
pub fn three_of(done: Result<usize, Stopped>) -> Carried
    ensures { three_of result ≡ moved_shown done }
{
    match done {
        Ok(long) => Carried {
            refusal: 0,
            written: long as u64,
            event: 0,
        },
        Err(Stopped { why, event }) => {
            let event = event.map_or(0, |number| number.get());
            Carried {
                refusal: u64::from(why),
                written: 0,
                event,
            }
        }
    }
}

// What a salvage answers as three numbers: 0 or the number of its refusal, and the bytes and the rows written, 0 when refused.
#[repr(C)]
#[derive(Clone, Copy)]
pub struct Mended {
    pub refusal: u64,
    pub bytes: u64,
    pub rows: u64,
}

// A salvage's answer as its three numbers.
pub fn mended_of(done: Result<Written, Refusal>) -> Mended
    ensures { mended_of result ≡ salvaged_shown done }
{
    match done {
        Ok(Written { bytes, rows }) => Mended {
            refusal: 0,
            bytes: bytes as u64,
            rows: rows as u64,
        },
        Err(why) => Mended {
            refusal: u64::from(why),
            bytes: 0,
            rows: 0,
        },
    }
}

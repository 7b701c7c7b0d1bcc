// One event on a table that is known to be sound: it enters, then the choice is made; and, for who wants it, when to wake the gate then. For this
// repository's own crates, and no public call. Soundness is shown once, where a table comes from, and kept by every step: nothing here tests it. So is the index of the
// waiting rows, which stands beside them; one of no numbers is none, and every event walks the rows.
// Gate and tables stay side by side for the reason that stands at the head of sends.
#![tactic(auto)]

ghost use Rattle.std.specs.Prelude.{◌≡◌, List, ℕ};
ghost use Rattle.rules.specs.Run.{step as step_at};
ghost use Rattle.rules.specs.Waking.{wake as wake_at};
ghost use Rattle.table.specs.View.{table_of, Known};
ghost use Rattle.table.specs.Does.{does, Leaves};
ghost use Rattle.index.specs.Index.{Beside, stands, Snug};

use rules::{Answer, Event, Gate, Outcome};
use table::columns::WAITING_WIDE;
use table::gates;
use table::gates::Decision;

// One event: refused, and every number stands as it did, or entered, and the choice made.
pub fn step(
    gate: Gate,
    guests: &mut [u64],
    waiting: &mut [u64],
    flight: &mut [u64],
    event: Event,
    index: &mut [u16],
) -> Decision
    requires known { Known gate guests.old waiting.old flight.old }
    requires beside { Beside waiting.old index.old gate.waiting × Snug gate waiting.old index.old }
    ensures leaves { Leaves (λ t. step_at t event) gate guests.old waiting.old flight.old result guests.new (stands index.old result.answer waiting.new) flight.new }
    ensures known_2 { Known result.gate guests.new (stands index.old result.answer waiting.new) flight.new }
    ensures beside_2 { Beside (stands index.old result.answer waiting.new) index.new result.gate.waiting }
{
    let entered = enter::enter(gate, guests, waiting, flight, event, index);
    match entered {
        Err(why) => gates::decided(gate, Answer::Refused(why)),
        Ok(moved) => choose::choose(moved, guests, waiting, flight, index),
    }
}

// When to wake the gate after an event with this answer: beside an index a send leaves the table a row further back.
fn wake_after(
    gate: Gate,
    guests: &[u64],
    waiting: &[u64],
    answer: Answer,
    index: &[u16],
) -> Option<u64>
    requires by_index { (fs : List ℕ) × Known gate guests.now (stands index.now answer waiting.now) fs }
    requires beside { Beside (stands index.now answer waiting.now) index.now gate.waiting × Snug gate waiting.now index.now }
    ensures { (fs es : List ℕ) → Known gate guests.now (stands index.now answer waiting.now) fs → result ≡ wake_at (table_of gate guests.now (stands index.now answer waiting.now) es) }
{
    if index.len() == 0 {
        return sends::wake_of(gate, guests, waiting, index);
    }
    match answer {
        Answer::Sent {
            phase: _,
            guest: _,
            id: _,
        } => sends::wake_of(gate, guests, &waiting[WAITING_WIDE..], index),
        _ => sends::wake_of(gate, guests, waiting, index),
    }
}

// One event, and when to wake the gate after it. Nothing is walked for that where the event is refused: a refusal carries no time.
pub fn step_and_wake(
    gate: Gate,
    guests: &mut [u64],
    waiting: &mut [u64],
    flight: &mut [u64],
    event: Event,
    index: &mut [u16],
) -> Outcome
    requires known { Known gate guests.old waiting.old flight.old }
    requires beside { Beside waiting.old index.old gate.waiting × Snug gate waiting.old index.old }
    ensures flight_after { (result, guests.new, stands index.old result.answer waiting.new, flight.new) ≡ does (λ t. step_at t event) gate guests.old waiting.old flight.old }
    ensures known_2 { Known result.gate guests.new (stands index.old result.answer waiting.new) flight.new }
    ensures beside_2 { Beside (stands index.old result.answer waiting.new) index.new result.gate.waiting }
{
    let made = step(gate, guests, waiting, flight, event, index);
    let after = made.gate;
    let answer = made.answer;
    match answer {
        Answer::Refused(why) => gates::refused(after, why),
        _ => {
            let wake = wake_after(after, &guests[..], &waiting[..], answer, &index[..]);
            gates::answered(after, answer, wake)
        }
    }
}

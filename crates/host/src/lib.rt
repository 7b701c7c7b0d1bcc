// What a C or Rust host links: the calls over numbers, under the names of include/sgq.h. The gate is seven numbers (depth, guests,
// capacity, time, waiting, flight, rule), the answer five (kind, guest, id, refusal, wake). Each call takes whatever it is handed.
#![tactic(auto)]

mod clocks; // the reading of a short clock
mod houses; // the calls at one of a house's arrays
mod judging; // the judge of another gate's lines
mod salvages; // the salvage of a torn trace
mod traces; // the moves of a trace

ghost use Rattle.std.specs.Prelude.{◌≡◌};
ghost use Rattle.rules.specs.declared.Event.TheVariants.{Arrival, Completion, Tick};
ghost use Rattle.gate.specs.Promise.{called, opened};
ghost use Rattle.batch.specs.Promise.{batched};
ghost use Rattle.hands.specs.Host.{gate_in, hosted, batch_hosted};

use gate::{Opening, Reply};
use hands::{gate_in, hand_back, hand_over};
use rules::{Arriving, Flight, Setup};

// Opens the lent tables with these counts, under this rule for limits, and with four settings a guest.
#[unsafe(no_mangle)]
pub extern "C" fn sgq_open(
    seven: &mut [u64; 7],
    depth: u64,
    known: u64,
    capacity: u64,
    rule: u64,
    settings: &[u64],
    guests: &mut [u64],
    waiting: &mut [u64],
    flight: &mut [u64],
) -> Reply
    ensures { (result, seven.new, guests.new, waiting.new, flight.new) ≡ hosted seven.old (opened depth known capacity rule settings.now guests.old waiting.old flight.old) }
{
    let setup = Setup {
        depth,
        capacity,
        rule,
    };
    let opening = Opening {
        setup,
        guests: known,
    };
    let outcome = opens::open(opening, settings, guests, waiting, flight);
    hand_back(seven, outcome)
}

// An arrival at the gate that the seven numbers are, at a cost, a delta and a rho that are judged like the rest.
#[unsafe(no_mangle)]
pub extern "C" fn sgq_arrive(
    seven: &mut [u64; 7],
    guests: &mut [u64],
    waiting: &mut [u64],
    flight: &mut [u64],
    guest: u64,
    id: u32,
    time: u64,
    cost: u64,
    delta: u64,
    rho: u64,
) -> Reply
    ensures { (result, seven.new, guests.new, waiting.new, flight.new) ≡ hosted seven.old (called (Arrival (record { guest = guest; id = id; cost = cost; delta = delta; rho = rho }) time) (gate_in seven.old) guests.old waiting.old flight.old) }
{
    let gate = gate_in(seven);
    let what = Arriving {
        guest,
        id,
        cost,
        delta,
        rho,
    };
    let outcome = calling::numbers::arrive(gate, guests, waiting, flight, what, time);
    hand_back(seven, outcome)
}

// A completion at the gate that the seven numbers are.
#[unsafe(no_mangle)]
pub extern "C" fn sgq_complete(
    seven: &mut [u64; 7],
    guests: &mut [u64],
    waiting: &mut [u64],
    flight: &mut [u64],
    guest: u64,
    id: u32,
    time: u64,
) -> Reply
    ensures { (result, seven.new, guests.new, waiting.new, flight.new) ≡ hosted seven.old (called (Completion (record { guest = guest; id = id }) time) (gate_in seven.old) guests.old waiting.old flight.old) }
{
    let gate = gate_in(seven);
    let outcome = calling::numbers::complete(
        gate,
        guests,
        waiting,
        flight,
        Flight { guest, id },
        time,
    );
    hand_back(seven, outcome)
}

// A tick at the gate that the seven numbers are.
#[unsafe(no_mangle)]
pub extern "C" fn sgq_tick(
    seven: &mut [u64; 7],
    guests: &mut [u64],
    waiting: &mut [u64],
    flight: &mut [u64],
    time: u64,
) -> Reply
    ensures { (result, seven.new, guests.new, waiting.new, flight.new) ≡ hosted seven.old (called (Tick time) (gate_in seven.old) guests.old waiting.old flight.old) }
{
    let gate = gate_in(seven);
    let outcome = calling::numbers::tick(gate, guests, waiting, flight, time);
    hand_back(seven, outcome)
}

// Up to 256 events, seven numbers each, at the gate that the seven numbers are; each answer goes into its place of `answers`, five numbers each. Gives 0, or 16
// or 17 with nothing done.
#[unsafe(no_mangle)]
pub extern "C" fn sgq_batch(
    seven: &mut [u64; 7],
    guests: &mut [u64],
    waiting: &mut [u64],
    flight: &mut [u64],
    events: &[u64],
    answers: &mut [u64],
) -> u64
    ensures { (result, seven.new, guests.new, waiting.new, flight.new, answers.new) ≡ batch_hosted seven.old (batched events.now (gate_in seven.old) guests.old waiting.old flight.old answers.old) }
{
    let gate = gate_in(seven);
    let done = bulk::call(gate, guests, waiting, flight, events, answers);
    hand_over(seven, done)
}

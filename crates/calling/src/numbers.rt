// The public calls over lent numbers for one event, in rows of the widths of table::columns. Any value of any number, any length of any
// slice. What each promises is in crates/gate/specs/Promise.antt.
ghost use Rattle.std.specs.Prelude.{◌≡◌};
ghost use Rattle.rules.specs.declared.Event.TheVariants.{Arrival, Completion, Tick};
ghost use Rattle.gate.specs.Promise.{seen, called};
ghost use Rattle.gate.specs.Judges.{Judges};
ghost use Rattle.index.specs.Index.{Beside, stands, Snug};

use rules::{Arriving, Event, Flight, Gate, Outcome, Refusal};
use sound::is_sound;
use sound::lengths::{is_countable, is_short};
use table::gates;

// The lent tables judged, 2 before 3; counts out of range give 3 at once.
pub fn judge(gate: Gate, guests: &[u64], waiting: &[u64], flight: &[u64]) -> Result<(), Refusal>
    ensures { Judges gate guests.now waiting.now flight.now result }
{
    if !is_countable(gate) {
        return Err(Refusal::Unsound);
    }
    if is_short(gate, guests, waiting, flight) {
        return Err(Refusal::ShortTable);
    }
    if !is_sound(gate, guests, waiting, flight) {
        return Err(Refusal::Unsound);
    }
    Ok(())
}

// One event on lent tables of which `found` is true: no public call, but what one is made of. `found` stays true of what is handed back, and so does the index
// of the waiting rows, so that a run of events needs one judgement of the tables and one building of the index. An index of no numbers is none.
pub fn follow(
    gate: Gate,
    guests: &mut [u64],
    waiting: &mut [u64],
    flight: &mut [u64],
    found: Result<(), Refusal>,
    event: Event,
    index: &mut [u16],
) -> Outcome
    requires judges { Judges gate guests.old waiting.old flight.old found }
    requires beside { Beside waiting.old index.old gate.waiting × Snug gate waiting.old index.old }
    ensures flight_after { seen (result, guests.new, stands index.old result.answer waiting.new, flight.new) ≡ seen (called event gate guests.old waiting.old flight.old) }
    ensures judges_2 { Judges result.gate guests.new (stands index.old result.answer waiting.new) flight.new found }
    ensures beside_2 { Beside (stands index.old result.answer waiting.new) index.new result.gate.waiting }
{
    match found {
        Err(why) => gates::refused(gate, why),
        Ok(()) => step::step_and_wake(gate, guests, waiting, flight, event, index),
    }
}

// One event: the lent tables are judged, then the event itself, with no index: to walk the rows costs less than to build one for it.
pub fn call(
    gate: Gate,
    guests: &mut [u64],
    waiting: &mut [u64],
    flight: &mut [u64],
    event: Event,
) -> Outcome
    ensures { seen (result, guests.new, waiting.new, flight.new) ≡ seen (called event gate guests.old waiting.old flight.old) }
{
    let found = judge(gate, guests, waiting, flight);
    follow(gate, guests, waiting, flight, found, event, &mut [])
}

// A tick: the time is set, and the choice made.
pub fn tick(
    gate: Gate,
    guests: &mut [u64],
    waiting: &mut [u64],
    flight: &mut [u64],
    time: u64,
) -> Outcome
    ensures { seen (result, guests.new, waiting.new, flight.new) ≡ seen (called (Tick time) gate guests.old waiting.old flight.old) }
{
    call(gate, guests, waiting, flight, Event::Tick(time))
}

// A completion: the request leaves flight, and the choice is made.
pub fn complete(
    gate: Gate,
    guests: &mut [u64],
    waiting: &mut [u64],
    flight: &mut [u64],
    which: Flight,
    time: u64,
) -> Outcome
    ensures { seen (result, guests.new, waiting.new, flight.new) ≡ seen (called (Completion which time) gate guests.old waiting.old flight.old) }
{
    call(
        gate,
        guests,
        waiting,
        flight,
        Event::Completion(which, time),
    )
}

// An arrival: the request gets its tags and waits, and the choice is made.
pub fn arrive(
    gate: Gate,
    guests: &mut [u64],
    waiting: &mut [u64],
    flight: &mut [u64],
    what: Arriving,
    time: u64,
) -> Outcome
    ensures { seen (result, guests.new, waiting.new, flight.new) ≡ seen (called (Arrival what time) gate guests.old waiting.old flight.old) }
{
    call(gate, guests, waiting, flight, Event::Arrival(what, time))
}

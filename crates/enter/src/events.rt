// A tick and a completion on a table that is known to be sound: the event's refusals in their order, and what it enters.
ghost use Rattle.rules.specs.declared.Event.TheVariants.{Completion, Tick};
ghost use Rattle.table.specs.View.{Known};
ghost use Rattle.enter.specs.Enters.{Enters};

use rules::{Flight, Gate, Refusal};
use table::gates;
use tags::CEILING;

// A tick: only the time moves on.
pub fn wait(
    gate: Gate,
    guests: &mut [u64],
    waiting: &mut [u64],
    flight: &mut [u64],
    time: u64,
) -> Result<Gate, Refusal>
    requires { Known gate guests.old waiting.old flight.old }
    ensures { Enters (Tick time) gate guests.old waiting.old flight.old result guests.new waiting.new flight.new }
{
    if CEILING < time {
        return Err(Refusal::TimeAboveCeiling);
    }
    if time < gate.time {
        return Err(Refusal::TimeBeforeLast);
    }
    Ok(gates::timed(gate, time))
}

// A completion: the named request leaves the array.
pub fn complete(
    gate: Gate,
    guests: &mut [u64],
    waiting: &mut [u64],
    flight: &mut [u64],
    which: Flight,
    time: u64,
) -> Result<Gate, Refusal>
    requires { Known gate guests.old waiting.old flight.old }
    ensures { Enters (Completion which time) gate guests.old waiting.old flight.old result guests.new waiting.new flight.new }
{
    if gate.guests <= which.guest {
        return Err(Refusal::UnknownGuest);
    }
    if CEILING < time {
        return Err(Refusal::TimeAboveCeiling);
    }
    if time < gate.time {
        return Err(Refusal::TimeBeforeLast);
    }
    let flying = gate.flight as usize;
    let found = walks::flight::find_flight(&flight[..], flying, which.guest, which.id as u64);
    match found {
        Some(place) => {
            moves::rows::take_out(flight, place, flying);
            Ok(gates::freed(gate, time))
        }
        None => Err(Refusal::NotInFlight),
    }
}

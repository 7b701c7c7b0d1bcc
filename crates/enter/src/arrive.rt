// An arrival on a table that is known to be sound: its refusals in their order, the settling of the shares where its guest is idle, the
// tags, and the placing. The waiting rows are surveyed once, and once more where the guest is idle; the index beside them spares that.
ghost use Rattle.std.specs.Prelude.{◌≡◌, true, false, map};
ghost use Rattle.rules.specs.Tables.{idle as idle_at, lacks, name};
ghost use Rattle.rules.specs.Events.{called_by};
ghost use Rattle.rules.specs.declared.Event.TheVariants.{Arrival};
ghost use Rattle.table.specs.View.{waiting_of, table_of, Known};
ghost use Rattle.index.specs.Index.{Beside};
ghost use Rattle.enter.specs.Enters.{Enters, EntersBeside};
ghost use Rattle.stamps.specs.Arrive.{Timely, Ready};

use crate::rows::{ends, own_rows, place_last};
use ranges::{is_fair, is_spread};
use rules::{Arriving, Gate, Refusal};
use stamps::tags_of;
use tags::CEILING;
use walks::survey::Own;

// At a guest with something waiting: nothing is settled.
fn arrive_busy(
    gate: Gate,
    guests: &mut [u64],
    waiting: &mut [u64],
    flight: &mut [u64],
    what: Arriving,
    time: u64,
    index: &mut [u16],
) -> Result<Gate, Refusal>
    requires known { Known gate guests.old waiting.old flight.old }
    requires ready { Ready gate guests.old waiting.old flight.old what time }
    requires guest_value { idle_at (table_of gate guests.old waiting.old flight.old) what.guest ≡ false }
    requires beside { Beside waiting.old index.old gate.waiting }
    ensures enters { Enters (Arrival what time) gate guests.old waiting.old flight.old result guests.new waiting.new flight.new }
    ensures enters_beside { EntersBeside gate result waiting.new index.new }
{
    let stamp = tags_of(&guests[..], what, time, false);
    if !stamp.fits() {
        return Err(Refusal::TagAboveCeiling);
    }
    Ok(place_last(gate, guests, waiting, what, time, stamp, index))
}

// At an idle guest: the waiting share tags move so that the smallest comes to the time, where none then passes the ceiling.
fn arrive_idle(
    gate: Gate,
    guests: &mut [u64],
    waiting: &mut [u64],
    flight: &mut [u64],
    what: Arriving,
    time: u64,
    index: &mut [u16],
) -> Result<Gate, Refusal>
    requires known { Known gate guests.old waiting.old flight.old }
    requires ready { Ready gate guests.old waiting.old flight.old what time }
    requires guest_value { idle_at (table_of gate guests.old waiting.old flight.old) what.guest ≡ true }
    requires beside { Beside waiting.old index.old gate.waiting }
    ensures enters { Enters (Arrival what time) gate guests.old waiting.old flight.old result guests.new waiting.new flight.new }
    ensures enters_beside { EntersBeside gate result waiting.new index.new }
{
    let known = gate.guests as usize;
    let count = gate.waiting as usize;
    let stamp = tags_of(&guests[..], what, time, true);
    if !stamp.fits() {
        return Err(Refusal::TagAboveCeiling);
    }
    let span = ends(&waiting[..], count, known, &index[..]);
    let least = span.least;
    let most = span.most;
    if CEILING < most + time - least {
        return Err(Refusal::TagAboveCeiling);
    }
    shares::adjust(guests, known, waiting, count, time, least);
    Ok(place_last(gate, guests, waiting, what, time, stamp, index))
}

// A request whose name no waiting request has: it may be in flight, or find no place to wait.
fn arrive_new(
    gate: Gate,
    guests: &mut [u64],
    waiting: &mut [u64],
    flight: &mut [u64],
    what: Arriving,
    time: u64,
    idle: bool,
    index: &mut [u16],
) -> Result<Gate, Refusal>
    requires known { Known gate guests.old waiting.old flight.old }
    requires timely { Timely gate what time }
    requires waiting_value { lacks (called_by what) (map name (waiting_of waiting.old gate.waiting)) ≡ true }
    requires guest_value { idle_at (table_of gate guests.old waiting.old flight.old) what.guest ≡ idle }
    requires beside { Beside waiting.old index.old gate.waiting }
    ensures enters { Enters (Arrival what time) gate guests.old waiting.old flight.old result guests.new waiting.new flight.new }
    ensures enters_beside { EntersBeside gate result waiting.new index.new }
{
    let flying = gate.flight as usize;
    let found = walks::flight::find_flight(&flight[..], flying, what.guest, what.id as u64);
    match found {
        Some(_) => Err(Refusal::IdInUse),
        None => {
            if gate.waiting == gate.setup.capacity {
                return Err(Refusal::NoRoom);
            }
            if idle {
                arrive_idle(gate, guests, waiting, flight, what, time, index)
            } else {
                arrive_busy(gate, guests, waiting, flight, what, time, index)
            }
        }
    }
}

// An arrival.
pub fn arrive(
    gate: Gate,
    guests: &mut [u64],
    waiting: &mut [u64],
    flight: &mut [u64],
    what: Arriving,
    time: u64,
    index: &mut [u16],
) -> Result<Gate, Refusal>
    requires known { Known gate guests.old waiting.old flight.old }
    requires beside { Beside waiting.old index.old gate.waiting }
    ensures enters { Enters (Arrival what time) gate guests.old waiting.old flight.old result guests.new waiting.new flight.new }
    ensures enters_beside { EntersBeside gate result waiting.new index.new }
{
    if gate.guests <= what.guest {
        return Err(Refusal::UnknownGuest);
    }
    if CEILING < time {
        return Err(Refusal::TimeAboveCeiling);
    }
    if time < gate.time {
        return Err(Refusal::TimeBeforeLast);
    }
    if !is_fair(what.cost) {
        return Err(Refusal::BadCost);
    }
    if !is_spread(what.delta, what.rho) {
        return Err(Refusal::BadDelta);
    }
    let count = gate.waiting as usize;
    let own = own_rows(&waiting[..], count, what.guest, what.id as u64, &index[..]);
    match own {
        Own::Repeated => Err(Refusal::IdInUse),
        Own::Waits => arrive_new(gate, guests, waiting, flight, what, time, false, index),
        Own::Idle => arrive_new(gate, guests, waiting, flight, what, time, true, index),
    }
}

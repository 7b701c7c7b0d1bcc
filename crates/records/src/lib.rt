// The public calls over a lent slice of guest records, of any length: the records in use become numbers in a local array, the call over numbers
// is made on them, and they come back. Records past the settings' need are neither read nor changed. What each call promises is in
// specs/Promise.antt and specs/Batch.antt.
// The calls begin and end alike: what a closure between would borrow and change is not known after it, which was tried.
#![tactic(auto)]

ghost use Rattle.std.specs.Prelude.{◌≡◌};
ghost use Rattle.records.specs.Promise.{seen, called, opened};
ghost use Rattle.records.specs.Batch.{seen_batch, batched};

use batch::Batched;
use gate::Opening;
use packs::{pack, unpack, used};
use rules::{Event, Gate, Guest, Outcome};
use table::columns::{GUEST_WIDE, GUESTS_LONG};

// One event: an arrival, a completion or a tick.
pub fn call(
    gate: Gate,
    guests: &mut [Guest],
    waiting: &mut [u64],
    flight: &mut [u64],
    event: Event,
) -> Outcome
    ensures { seen (result, guests.new, waiting.new, flight.new) ≡ seen (called event gate guests.old waiting.old flight.old) }
{
    let mut rows = [0; GUESTS_LONG];
    let count = used(gate.guests, guests.len());
    unpack(guests, count, &mut rows);
    let outcome = calling::numbers::call(
        gate,
        &mut rows[..count * GUEST_WIDE],
        waiting,
        flight,
        event,
    );
    pack(&rows, count, guests);
    outcome
}

// Opening: the lent tables become a fresh table of these settings, four numbers a guest, under this rule for limits.
pub fn open(
    opening: Opening,
    settings: &[u64],
    guests: &mut [Guest],
    waiting: &mut [u64],
    flight: &mut [u64],
) -> Outcome
    ensures { seen (result, guests.new, waiting.new, flight.new) ≡ seen (opened opening.setup.depth opening.guests opening.setup.capacity opening.setup.rule settings.now guests.old waiting.old flight.old) }
{
    let mut rows = [0; GUESTS_LONG];
    let count = used(opening.guests, guests.len());
    unpack(guests, count, &mut rows);
    let part = &mut rows[..count * GUEST_WIDE];
    let outcome = opens::open(opening, settings, part, waiting, flight);
    pack(&rows, count, guests);
    outcome
}

// Up to 256 events, each answered in its row of the lent answers.
pub fn batch(
    gate: Gate,
    guests: &mut [Guest],
    waiting: &mut [u64],
    flight: &mut [u64],
    events: &[u64],
    answers: &mut [u64],
) -> Batched
    ensures { seen_batch (result, guests.new, waiting.new, flight.new, answers.new) ≡ seen_batch (batched events.now gate guests.old waiting.old flight.old answers.old) }
{
    let mut rows = [0; GUESTS_LONG];
    let count = used(gate.guests, guests.len());
    unpack(guests, count, &mut rows);
    let part = &mut rows[..count * GUEST_WIDE];
    let batched = bulk::call(gate, part, waiting, flight, events, answers);
    pack(&rows, count, guests);
    batched
}

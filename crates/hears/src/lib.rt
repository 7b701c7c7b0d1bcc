// What the lines of another gate say that it did at one event: the line is heard, and the tables follow it, with the index of the waiting rows beside them; one of no
// numbers is none, and the rows are walked. Functions for this repository's own crates.
// Gate and tables stay side by side for the reason that stands at the head of sends.
#![tactic(auto)]

ghost use Rattle.std.specs.Prelude.{List, ℕ, ◌+◌, ◌≤◌, ◌<◌, length, drop, Some, IsSome};
ghost use Rattle.rules.specs.Choice.{choice};
ghost use Rattle.rules.specs.Chosen.{at};
ghost use Rattle.rules.specs.Run.{step};
ghost use Rattle.table.specs.View.{waiting_of, table_of, Known};
ghost use Rattle.walks.specs.Walks.{Picks};
ghost use Rattle.index.specs.Index.{Beside, stood, stands, Snug};
ghost use Rattle.windows.specs.Window.{Window};
ghost use Rattle.sends.specs.Firsts.{FirstOf};
ghost use Rattle.trace.specs.Event.{event_of};
ghost use Rattle.trace.specs.Printed.{answered};
ghost use Rattle.judge.specs.Acceptable.{entire};
ghost use Rattle.judge.specs.Judging.{ok_in, tag_in, sent_at, heard_in, heard_choice, heard};
ghost use Rattle.judge.specs.Hearing.{Sends, Hears};

use choose::first_in_line;
use judge::Said;
use lines::LINE_LONG;
use rules::{Answer, Event, Gate, Phase, Refusal};
use sends::{latest_limit, send_by_reservation, send_by_weight};
use table::columns::WAITING_WIDE;
use ties::{find_send, hear_plain, send_of};
use walks::queue::Queue;

// The request at `place`, the first of its guest, goes in this phase.
fn send_in(
    gate: Gate,
    guests: &mut [u64],
    waiting: &mut [u64],
    flight: &mut [u64],
    place: usize,
    phase: Phase,
    index: &mut [u16],
) -> Gate
    requires known { Known gate guests.old waiting.old flight.old }
    requires flight_lt_depth { (gate.flight < gate.setup.depth) × (place < gate.waiting) }
    requires first_of { FirstOf (waiting_of waiting.old gate.waiting) place }
    requires beside { Beside waiting.old index.old gate.waiting × Snug gate waiting.old index.old }
    ensures sends { Sends (sent_at phase (table_of gate guests.old waiting.old flight.old) place) result guests.new (stood index.old waiting.new) flight.new }
    ensures beside_2 { Beside (stood index.old waiting.new) index.new result.waiting }
{
    match phase {
        Phase::Reservation => {
            let sent = send_by_reservation(gate, &guests[..], waiting, flight, place, index);
            sent.gate
        }
        Phase::Weight => {
            let sent = send_by_weight(gate, guests, waiting, flight, place, index);
            sent.gate
        }
    }
}

// A send was due in this phase, by our rules that of the request at `place`: that one goes, or the one of those that tie with it whose line was heard.
fn hear_send(
    gate: Gate,
    guests: &mut [u64],
    waiting: &mut [u64],
    flight: &mut [u64],
    place: usize,
    phase: Phase,
    number: u64,
    said: &[u8],
    text: &mut [u8; LINE_LONG],
    index: &mut [u16],
) -> Said
    requires known { Known gate guests.old waiting.old flight.old }
    requires flight_lt_depth { gate.flight < gate.setup.depth }
    requires picks { Picks (ok_in phase (table_of gate guests.old waiting.old flight.old)) (tag_in phase) (waiting_of waiting.old gate.waiting) (Some place) }
    requires beside { Beside waiting.old index.old gate.waiting × Snug gate waiting.old index.old }
    ensures hears { Hears (heard_in number said.now phase (table_of gate guests.old waiting.old flight.old) (tag_in phase (at (waiting_of waiting.old gate.waiting) place))) (sent_at phase (table_of gate guests.old waiting.old flight.old) place).answer number result guests.new (stands index.old result.answer waiting.new) flight.new }
    ensures beside_2 { IsSome result.long → Beside (stands index.old result.answer waiting.new) index.new result.gate.waiting }
{
    let answer = send_of(&waiting[..], place, phase);
    let heard = find_send(
        gate,
        &guests[..],
        &waiting[..],
        place,
        phase,
        number,
        said,
        text,
        &index[..],
    );
    let Some(told) = heard else {
        return Said {
            gate,
            answer,
            long: None,
        };
    };
    let after = send_in(gate, guests, waiting, flight, told.place, phase, index);
    Said {
        gate: after,
        answer,
        long: Some(told.long),
    }
}

// The choice at the table that an event entered.
fn hear_choice(
    gate: Gate,
    guests: &mut [u64],
    waiting: &mut [u64],
    flight: &mut [u64],
    number: u64,
    said: &[u8],
    text: &mut [u8; LINE_LONG],
    index: &mut [u16],
) -> Said
    requires known { Known gate guests.old waiting.old flight.old }
    requires beside { Beside waiting.old index.old gate.waiting × Snug gate waiting.old index.old }
    ensures hears { Hears (heard_choice number said.now (table_of gate guests.old waiting.old flight.old)) (choice (table_of gate guests.old waiting.old flight.old)).answer number result guests.new (stands index.old result.answer waiting.new) flight.new }
    ensures beside_2 { IsSome result.long → Beside (stands index.old result.answer waiting.new) index.new result.gate.waiting }
{
    if gate.setup.depth <= gate.flight {
        return hear_plain(gate, Answer::Nothing, number, said, text);
    }
    let queue = Queue {
        waiting: &waiting[..],
        count: gate.waiting as usize,
        guests: &guests[..],
        known: gate.guests as usize,
        time: gate.time,
    };
    let latest = latest_limit(gate.setup.rule, gate.time);
    let firsts = first_in_line(queue, latest, &index[..]);
    match (firsts.due, firsts.open) {
        (Some(place), _) => hear_send(
            gate,
            guests,
            waiting,
            flight,
            place,
            Phase::Reservation,
            number,
            said,
            text,
            index,
        ),
        (None, Some(place)) => hear_send(
            gate,
            guests,
            waiting,
            flight,
            place,
            Phase::Weight,
            number,
            said,
            text,
            index,
        ),
        (None, None) => hear_plain(gate, Answer::Nothing, number, said, text),
    }
}

// A good event: a refusal has its one line; what enters ends in the choice.
fn hear_good(
    gate: Gate,
    guests: &mut [u64],
    waiting: &mut [u64],
    flight: &mut [u64],
    event: Event,
    number: u64,
    said: &[u8],
    text: &mut [u8; LINE_LONG],
    index: &mut [u16],
) -> Said
    requires known { Known gate guests.old waiting.old flight.old }
    requires beside { Beside waiting.old index.old gate.waiting × Snug gate waiting.old index.old }
    ensures hears { Hears (heard number said.now (table_of gate guests.old waiting.old flight.old) (entire (Some event))) (step (table_of gate guests.old waiting.old flight.old) event).answer number result guests.new (stands index.old result.answer waiting.new) flight.new }
    ensures beside_2 { IsSome result.long → Beside (stands index.old result.answer waiting.new) index.new result.gate.waiting }
{
    let entered = enter::enter(gate, guests, waiting, flight, event, index);
    match entered {
        Err(why) => hear_plain(gate, Answer::Refused(why), number, said, text),
        Ok(moved) => hear_choice(moved, guests, waiting, flight, number, said, text, index),
    }
}

// The event whose bytes begin at `from`.
fn hear(
    version: u64,
    bytes: &[u8],
    from: usize,
    gate: Gate,
    guests: &mut [u64],
    waiting: &mut [u64],
    flight: &mut [u64],
    number: u64,
    said: &[u8],
    text: &mut [u8; LINE_LONG],
    index: &mut [u16],
) -> Said
    requires from_in_bounds { from + 14 ≤ length bytes.now }
    requires known { Known gate guests.old waiting.old flight.old }
    requires beside { Beside waiting.old index.old gate.waiting × Snug gate waiting.old index.old }
    ensures hears { Hears (heard number said.now (table_of gate guests.old waiting.old flight.old) (entire (event_of version (drop from bytes.now)))) (answered (table_of gate guests.old waiting.old flight.old) (event_of version (drop from bytes.now))).answer number result guests.new (stands index.old result.answer waiting.new) flight.new }
    ensures beside_2 { IsSome result.long → Beside (stands index.old result.answer waiting.new) index.new result.gate.waiting }
{
    let event = items::read_event(version, &bytes[from..from + 14]);
    match event {
        Some(good) => hear_good(
            gate, guests, waiting, flight, good, number, said, text, index,
        ),
        None => hear_plain(gate, Answer::Refused(Refusal::BadEvent), number, said, text),
    }
}

// The event, on the table that stands in a window from row `start` on.
pub fn hear_in(
    version: u64,
    bytes: &[u8],
    from: usize,
    gate: Gate,
    guests: &mut [u64],
    window: &mut [u64],
    start: usize,
    size: usize,
    flight: &mut [u64],
    number: u64,
    said: &[u8],
    text: &mut [u8; LINE_LONG],
    index: &mut [u16],
) -> Said
    requires from_in_bounds { from + 14 ≤ length bytes.now }
    requires by_index { (ws : List ℕ) × Window size start window.old ws × Known gate guests.old ws flight.old × Beside ws index.old gate.waiting × Snug gate ws index.old }
    ensures { (ws : List ℕ) → Window size start window.old ws → (vs : List ℕ) × Window size start window.new vs × Hears (heard number said.now (table_of gate guests.old ws flight.old) (entire (event_of version (drop from bytes.now)))) (answered (table_of gate guests.old ws flight.old) (event_of version (drop from bytes.now))).answer number result guests.new (stands index.old result.answer vs) flight.new × (IsSome result.long → Beside (stands index.old result.answer vs) index.new result.gate.waiting) }
{
    let first = start * WAITING_WIDE;
    hear(
        version,
        bytes,
        from,
        gate,
        guests,
        &mut window[first..first + size],
        flight,
        number,
        said,
        text,
        index,
    )
}

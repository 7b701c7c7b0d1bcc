// The choice on a table that is known to be sound: one walk over the waiting rows finds what each phase would send, or, where an index stands beside them, a look at
// the first row of each guest. For this repository's own crates, and no public call.
// Gate and tables stay side by side for the reason that stands at the head of sends.
#![tactic(auto)]

ghost use Rattle.std.specs.Prelude.{◌&&◌, ◌*◌, ◌≤◌, ◌<◌, leb, length};
ghost use Rattle.rules.specs.Numbers.{ceiling};
ghost use Rattle.rules.specs.Tables.{Request, settings_of};
ghost use Rattle.rules.specs.Choice.{due_at, choice};
ghost use Rattle.table.specs.Columns.{guest_wide, waiting_wide, most_guests, most_capacity};
ghost use Rattle.table.specs.View.{guests_of, waiting_of, Known};
ghost use Rattle.walks.specs.Walks.{Picks, Owned, Rising, SharesFit};
ghost use Rattle.index.specs.Index.{Beside, stands, Snug};
ghost use Rattle.table.specs.Does.{Leaves, weight_phase, reservation_phase};

use picks::Firsts;
use rules::{Answer, Gate};
use sends::{latest_limit, send_by_reservation, send_by_weight};
use table::gates;
use table::gates::Decision;
use walks::queue::Queue;

// What each phase would send: by the first rows of the guests where there is an index, and more rows than are as well walked.
pub fn first_in_line(queue: Queue, latest: u64, index: &[u16]) -> Firsts
    requires count_le_most_capacity { (queue.count ≤ most_capacity) × (queue.count * waiting_wide ≤ length queue.waiting.now) × (queue.known ≤ most_guests) × (queue.known * guest_wide ≤ length queue.guests.now) }
    requires owned { Owned queue.waiting.now queue.count queue.known × Rising queue.waiting.now queue.count × SharesFit queue.waiting.now queue.count }
    requires time_le_ceiling { (queue.time ≤ ceiling) × (latest ≤ ceiling) }
    requires beside { Beside queue.waiting.now index.now queue.count }
    ensures picks { let q = queue.entry in Picks (λ r. due_at (settings_of (guests_of q.guests.now q.known) r) q.time r && leb r.ltag latest) Request.rtag (waiting_of q.waiting.now q.count) result.due }
    ensures picks_2 { let q = queue.entry in Picks (λ r. leb r.ltag q.time) Request.stag (waiting_of q.waiting.now q.count) result.open }
{
    if index::is_walked(index, queue.count) {
        return picks::first_in_line(queue, latest);
    }
    heads::first_in_line(queue, latest, index)
}

// The weight phase: the open request with the smallest share tag, which the walk found, goes.
fn by_weight(
    gate: Gate,
    guests: &mut [u64],
    waiting: &mut [u64],
    flight: &mut [u64],
    found: Option<usize>,
    index: &mut [u16],
) -> Decision
    requires known { Known gate guests.old waiting.old flight.old }
    requires flight_lt_depth { gate.flight < gate.setup.depth }
    requires picks { Picks (λ q. leb q.ltag gate.time) Request.stag (waiting_of waiting.old gate.waiting) found }
    requires beside { Beside waiting.old index.old gate.waiting × Snug gate waiting.old index.old }
    ensures leaves { Leaves weight_phase gate guests.old waiting.old flight.old result guests.new (stands index.old result.answer waiting.new) flight.new }
    ensures beside_2 { Beside (stands index.old result.answer waiting.new) index.new result.gate.waiting }
{
    match found {
        Some(place) => send_by_weight(gate, guests, waiting, flight, place, index),
        None => gates::decided(gate, Answer::Nothing),
    }
}

// The reservation phase: the due request with the smallest reservation tag goes; where none is due, the weight phase.
fn by_reservation(
    gate: Gate,
    guests: &mut [u64],
    waiting: &mut [u64],
    flight: &mut [u64],
    index: &mut [u16],
) -> Decision
    requires known { Known gate guests.old waiting.old flight.old }
    requires flight_lt_depth { gate.flight < gate.setup.depth }
    requires beside { Beside waiting.old index.old gate.waiting × Snug gate waiting.old index.old }
    ensures leaves { Leaves reservation_phase gate guests.old waiting.old flight.old result guests.new (stands index.old result.answer waiting.new) flight.new }
    ensures beside_2 { Beside (stands index.old result.answer waiting.new) index.new result.gate.waiting }
{
    let queue = Queue {
        waiting: &waiting[..],
        count: gate.waiting as usize,
        guests: &guests[..],
        known: gate.guests as usize,
        time: gate.time,
    };
    let latest = latest_limit(gate.setup.rule, gate.time);
    let firsts = first_in_line(queue, latest, &index[..]);
    let found = firsts.due;
    let spare = firsts.open;
    match found {
        Some(place) => send_by_reservation(gate, &guests[..], waiting, flight, place, index),
        None => by_weight(gate, guests, waiting, flight, spare, index),
    }
}

// The choice: nothing goes where no place is free.
pub fn choose(
    gate: Gate,
    guests: &mut [u64],
    waiting: &mut [u64],
    flight: &mut [u64],
    index: &mut [u16],
) -> Decision
    requires known { Known gate guests.old waiting.old flight.old }
    requires beside { Beside waiting.old index.old gate.waiting × Snug gate waiting.old index.old }
    ensures leaves { Leaves choice gate guests.old waiting.old flight.old result guests.new (stands index.old result.answer waiting.new) flight.new }
    ensures beside_2 { Beside (stands index.old result.answer waiting.new) index.new result.gate.waiting }
{
    if gate.flight < gate.setup.depth {
        by_reservation(gate, guests, waiting, flight, index)
    } else {
        gates::decided(gate, Answer::Nothing)
    }
}

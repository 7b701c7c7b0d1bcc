// On a table that is known to be sound: a request goes by either phase, which limit tags the reservation phase lets pass, and when to wake the gate: where a place is
// free and something waits, one more walk finds it. Beside the waiting rows stands their index, which follows them; one of no numbers is none, and the rows are walked
// as without. For this repository's own crates, and no public call.
// Gate and tables stay side by side: of one struct of lent slices each function had to say that the four are the same ones, and a lent
// part of a window came back unknown.
#![tactic(auto)]

ghost use Rattle.std.specs.Prelude.{◌≡◌, List, map, ℕ, ◌+◌, ◌-◌, ◌*◌, ◌≤◌, ◌<◌, max, eqb, length, if◌then◌else◌};
ghost use Rattle.lists.specs.Words.{lowest};
ghost use Rattle.rules.specs.Numbers.{ceiling, most_cost};
ghost use Rattle.rules.specs.Chosen.{sent_by_reservation_at, sent_by_weight_at};
ghost use Rattle.rules.specs.Waking.{wake as wake_at};
ghost use Rattle.table.specs.Columns.{guest_wide, waiting_wide, flight_wide, most_guests, most_capacity};
ghost use Rattle.table.specs.View.{guests_of, waiting_of, table_of, Known};
ghost use Rattle.table.specs.Does.{Leaves};
ghost use Rattle.walks.specs.Walks.{Owned, Rising, LimitsFit, ready_by_tag};
ghost use Rattle.moves.specs.Moves.{gone, joined, Named, Blank, fall_of, next_dropped, tags_dropped, Lawful, Unreserved};
ghost use Rattle.index.specs.Index.{owner_of, Head, Beside, Even, stood, stands, Snug};
ghost use Rattle.sends.specs.Firsts.{FirstOf};

use moves::rows::Sent;
use rules::{Gate, Phase};
use table::columns::WAITING_WIDE;
use table::gates;
use table::gates::Decision;
use tags::CEILING;
use walks::queue::Queue;

// The request at `place` goes to the array: those behind it close up, or, beside an index, those before it.
fn depart(
    waiting: &mut [u64],
    flight: &mut [u64],
    place: usize,
    count: usize,
    flying: usize,
    index: &[u16],
) -> Sent
    requires place_lt_count { (place < count) × (count * waiting_wide ≤ length waiting.old) × (flying * flight_wide + flight_wide ≤ length flight.old) }
    requires blank { 0 < length index.now → Blank count waiting.old }
    ensures waiting_after { stood index.now waiting.new ≡ gone place count waiting.old }
    ensures flight_after { flight.new ≡ joined place flying waiting.old flight.old }
    ensures named { Named place waiting.old result }
{
    if index.len() == 0 {
        return moves::rows::send(waiting, flight, place, count, flying);
    }
    moves::rows::slide(waiting, flight, place, flying)
}

// The request at `place`, the first of its guest, goes to the array, and the index follows. Out of line, as inlined behind both searches it takes registers from them:
// with 16 waiting an event took 10 ns more, of 130.
#[inline(never)]
fn leave(
    waiting: &mut [u64],
    flight: &mut [u64],
    place: usize,
    count: usize,
    flying: usize,
    index: &mut [u16],
) -> Sent
    requires place_lt_count { (place < count) × (count * waiting_wide ≤ length waiting.old) × (flying * flight_wide + flight_wide ≤ length flight.old) }
    requires count_le_most_capacity { (count ≤ most_capacity) × (owner_of waiting.old place < most_guests) × Head waiting.old (owner_of waiting.old place) 0 place }
    requires beside { Beside waiting.old index.old count × (0 < length index.old → Blank count waiting.old) }
    ensures waiting_after { stood index.old waiting.new ≡ gone place count waiting.old }
    ensures flight_after { flight.new ≡ joined place flying waiting.old flight.old }
    ensures named { Named place waiting.old result }
    ensures beside_2 { Beside (stood index.old waiting.new) index.new (count - 1) }
{
    let gone = depart(waiting, flight, place, count, flying, &index[..]);
    let guest = gone.guest;
    index::keep_sent(index, place, count, guest);
    gone
}

// The drop behind a send by weight, along the rows of its guest where there is an index.
fn drop_behind(
    guests: &mut [u64],
    waiting: &mut [u64],
    count: usize,
    guest: u64,
    cost: u64,
    index: &[u16],
)
    requires guest_wide_in_bounds { (guest * guest_wide + guest_wide ≤ length guests.old) × (count * waiting_wide + waiting_wide ≤ length waiting.old) }
    requires cost_le_most_cost { (cost ≤ most_cost) × Lawful count (stood index.now waiting.old) × Unreserved guest count guests.old (stood index.now waiting.old) }
    requires guest_lt_most_guests { (guest < most_guests) × Beside (stood index.now waiting.old) index.now count }
    ensures guests_after { guests.new ≡ next_dropped guest cost count (stood index.now waiting.old) guests.old }
    ensures waiting_after { stood index.now waiting.new ≡ tags_dropped guest (fall_of guest cost guests.old) (stood index.now waiting.old) count }
    ensures beside { Beside (stood index.now waiting.new) index.now count }
{
    if index.len() == 0 {
        drops::drop_tags(guests, waiting, count, guest, cost);
        return;
    }
    trails::drop_along(
        guests,
        &mut waiting[WAITING_WIDE..],
        count,
        guest,
        cost,
        index,
    );
}

// The request at `place`, the first of its guest, goes by reservation.
pub fn send_by_reservation(
    gate: Gate,
    guests: &[u64],
    waiting: &mut [u64],
    flight: &mut [u64],
    place: usize,
    index: &mut [u16],
) -> Decision
    requires known { Known gate guests.now waiting.old flight.old }
    requires flight_lt_depth { (gate.flight < gate.setup.depth) × (place < gate.waiting) }
    requires first_of { FirstOf (waiting_of waiting.old gate.waiting) place }
    requires beside { Beside waiting.old index.old gate.waiting × Snug gate waiting.old index.old }
    ensures leaves { Leaves (λ t. sent_by_reservation_at t place) gate guests.now waiting.old flight.old result guests.now (stands index.old result.answer waiting.new) flight.new }
    ensures beside_2 { Beside (stands index.old result.answer waiting.new) index.new result.gate.waiting }
{
    let count = gate.waiting as usize;
    let flying = gate.flight as usize;
    let gone = leave(waiting, flight, place, count, flying, index);
    let guest = gone.guest;
    let id = gone.id as u32;
    gates::sent(gate, Phase::Reservation, guest, id)
}

// The request at `place`, the first of its guest, goes by weight, and its guest's reservation tags drop by its cost.
pub fn send_by_weight(
    gate: Gate,
    guests: &mut [u64],
    waiting: &mut [u64],
    flight: &mut [u64],
    place: usize,
    index: &mut [u16],
) -> Decision
    requires known { Known gate guests.old waiting.old flight.old }
    requires flight_lt_depth { (gate.flight < gate.setup.depth) × (place < gate.waiting) }
    requires first_of { FirstOf (waiting_of waiting.old gate.waiting) place }
    requires beside { Beside waiting.old index.old gate.waiting × Snug gate waiting.old index.old }
    ensures leaves { Leaves (λ t. sent_by_weight_at t place) gate guests.old waiting.old flight.old result guests.new (stands index.old result.answer waiting.new) flight.new }
    ensures beside_2 { Beside (stands index.old result.answer waiting.new) index.new result.gate.waiting }
{
    let count = gate.waiting as usize;
    let flying = gate.flight as usize;
    let gone = leave(waiting, flight, place, count, flying, index);
    let guest = gone.guest;
    let id = gone.id as u32;
    drop_behind(guests, waiting, count - 1, guest, gone.cost, &index[..]);
    gates::sent(gate, Phase::Weight, guest, id)
}

// The latest limit tag that the reservation phase lets pass: under rule 2 the time, else the ceiling, which no tag is past.
pub fn latest_limit(rule: u64, time: u64) -> u64
    ensures { result ≡ (if eqb rule 2 then time else ceiling) }
{
    if rule == 2 { time } else { CEILING }
}

// The time, now or later, from which the first of the waiting requests could go: by the first rows of the guests where there is an index, and more rows
// than are as well walked.
fn soonest(queue: Queue, rule: u64, index: &[u16]) -> u64
    requires count_nonzero { (0 < queue.count) × (queue.count ≤ most_capacity) × (queue.count * waiting_wide ≤ length queue.waiting.now) × (queue.known ≤ most_guests) × (queue.known * guest_wide ≤ length queue.guests.now) }
    requires owned { Owned queue.waiting.now queue.count queue.known × Rising queue.waiting.now queue.count × LimitsFit queue.waiting.now queue.count }
    requires time_le_ceiling { queue.time ≤ ceiling }
    requires beside { Beside queue.waiting.now index.now queue.count }
    ensures { result ≡ max queue.entry.time (lowest (map (ready_by_tag rule (guests_of queue.entry.guests.now queue.entry.known)) (waiting_of queue.entry.waiting.now queue.entry.count))) }
{
    if index::is_walked(index, queue.count) {
        return wakes::soonest(queue, rule);
    }
    alarms::soonest(queue, rule, index)
}

// When to wake the gate: never where no place is free or nothing waits. What is in flight makes no difference but by its count, and what is lent behind the rows none.
pub fn wake_of(gate: Gate, guests: &[u64], waiting: &[u64], index: &[u16]) -> Option<u64>
    requires by_index { (ws : List ℕ) × (fs : List ℕ) × Known gate guests.now ws fs × Even ws waiting.now }
    requires waiting_wide_in_bounds { (gate.waiting * waiting_wide ≤ length waiting.now) × Beside waiting.now index.now gate.waiting }
    ensures { (ws fs es : List ℕ) → Known gate guests.now ws fs → Even ws waiting.now → result ≡ wake_at (table_of gate guests.now ws es) }
{
    if gate.setup.depth <= gate.flight {
        return None;
    }
    if gate.waiting == 0 {
        return None;
    }
    let queue = Queue {
        waiting,
        count: gate.waiting as usize,
        guests,
        known: gate.guests as usize,
        time: gate.time,
    };
    Some(soonest(queue, gate.setup.rule, index))
}

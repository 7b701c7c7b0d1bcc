// The choice by the first row of each guest: the request that each phase would send. It reads and changes nothing. Functions for this repository's own crates.
#![tactic(auto)]

ghost use Rattle.std.specs.Prelude.{◌≡◌, ◌&&◌, ℕ, ◌+◌, ◌*◌, ◌≤◌, ◌<◌, leb, length};
ghost use Rattle.rules.specs.Numbers.{ceiling};
ghost use Rattle.rules.specs.Tables.{Request, settings_of};
ghost use Rattle.rules.specs.Choice.{due_at};
ghost use Rattle.table.specs.Columns.{guest_wide, waiting_wide, most_guests, most_capacity};
ghost use Rattle.table.specs.View.{guests_of, waiting_of};
ghost use Rattle.walks.specs.Walks.{Picks, Owned, Rising, SharesFit};
ghost use Rattle.index.specs.Index.{first_at, Indexed};
ghost use Rattle.heads.specs.Heads.{Barred, nearer, found_in};

use looks::{due_tag, open_tag};
use picks::Firsts;
use table::columns::{GUEST_WIDE, LTAG, RESERVATION, RTAG, WAITING_WIDE};
use tags::CEILING;
use walks::queue::Queue;

// The number of a guest's first row, where one phase or the other could send it now; else 0. Most often neither could, and no tag is held to another.
// 0 and no Option: it hands on what the index has.
fn ready_first(queue: Queue, guest: usize, index: &[u16]) -> usize
    requires guest_lt_most_guests { (guest < most_guests) × (guest * guest_wide + guest_wide ≤ length queue.guests.now) }
    requires by_index { (count : ℕ) × (count * waiting_wide ≤ length queue.waiting.now) × (count ≤ most_capacity) × Indexed queue.waiting.now index.now count }
    ensures value { 0 < result → result ≡ first_at index.now guest }
    ensures barred { let q = queue.entry in result ≡ 0 → (j : ℕ) → first_at index.now guest ≡ j + 1 → Barred q.guests.now q.waiting.now guest j q.time }
{
    let number = index[guest] as usize;
    if number == 0 {
        return 0;
    }
    let at = (number - 1) * WAITING_WIDE;
    if queue.waiting[at + LTAG] <= queue.time {
        return number;
    }
    if queue.time < queue.waiting[at + RTAG] {
        return 0;
    }
    if queue.guests[guest * GUEST_WIDE + RESERVATION] == 0 {
        return 0;
    }
    number
}

// What a phase would send of the rows looked at: the row's tag and its place; or the largest tag that counts and the count, to which a row is held alike.
#[derive(Drop)]
pub struct Held {
    pub tag: u64,
    pub place: usize,
}

// The row at `place`, where it goes before the one that is held: the guests' first rows come in no order, so of equal tags the earlier row is held.
// Most often it does not, so that is tested first and alone: two pairs held to each other by `<` took half as many instructions again where every guest
// is ready.
#[tactic(auto, unfolding(crate::specs::Heads::nearer))]
fn hold(held: Held, place: usize, tag: u64) -> Held
    ensures { result ≡ nearer held place tag }
{
    if held.tag < tag {
        return held;
    }
    if tag < held.tag || place < held.place {
        return Held { tag, place };
    }
    held
}

// The place that is held, or that there is none.
fn found_in(held: Held, count: usize) -> Option<usize>
    ensures { result ≡ found_in held count }
{
    let place = held.place;
    if place < count { Some(place) } else { None }
}

// What each phase would send: picks::first_in_line, with a look at the first row of each guest, which the index tells.
pub fn first_in_line(queue: Queue, latest: u64, index: &[u16]) -> Firsts
    requires count_le_most_capacity { (queue.count ≤ most_capacity) × (queue.count * waiting_wide ≤ length queue.waiting.now) × (queue.known ≤ most_guests) × (queue.known * guest_wide ≤ length queue.guests.now) }
    requires owned { Owned queue.waiting.now queue.count queue.known × Rising queue.waiting.now queue.count × SharesFit queue.waiting.now queue.count }
    requires time_le_ceiling { (queue.time ≤ ceiling) × (latest ≤ ceiling) }
    requires indexed { Indexed queue.waiting.now index.now queue.count }
    ensures picks { let q = queue.entry in Picks (λ r. due_at (settings_of (guests_of q.guests.now q.known) r) q.time r && leb r.ltag latest) Request.rtag (waiting_of q.waiting.now q.count) result.due }
    ensures picks_2 { let q = queue.entry in Picks (λ r. leb r.ltag q.time) Request.stag (waiting_of q.waiting.now q.count) result.open }
{
    let mut due = Held {
        tag: queue.time,
        place: queue.count,
    };
    let mut spare = Held {
        tag: CEILING,
        place: queue.count,
    };
    for g in 0..queue.known {
        let number = ready_first(queue, g, index);
        if 0 < number {
            let place = number - 1;
            let at = place * WAITING_WIDE;
            let tag = due_tag(queue.waiting, at, queue.guests, g, latest);
            due = hold(due, place, tag);
            let share = open_tag(queue.waiting, at, queue.time);
            spare = hold(spare, place, share);
        }
    }
    Firsts {
        due: found_in(due, queue.count),
        open: found_in(spare, queue.count),
    }
}

// What the walk of the choice makes of one waiting row: its tags of both phases, held against the bounds so far. Functions for this repository's own crates.
#![tactic(auto)]

ghost use Rattle.std.specs.Prelude.{◌≡◌, ℕ, ◌+◌, ◌*◌, ◌<◌, ◌≤◌, ◌&&◌, ltb, length, nat_le, nat_lt, slice_index, if◌then◌else◌};
ghost use Rattle.rules.specs.Numbers.{ceiling};
ghost use Rattle.table.specs.Columns.{RESERVATION, GUEST, guest_wide, RTAG, LTAG, STAG, waiting_wide, most_guests, guest_at};
ghost use Rattle.walks.specs.Walks.{Owned, Counts};
ghost use Rattle.looks.specs.InLine.{Passed};

use table::columns::{GUEST, GUEST_WIDE, LTAG, RESERVATION, RTAG, STAG};
use tags::PAST;
use walks::queue::Queue;

// A bit above all that a tag or a bound has.
const ABOVE: u64 = 9223372036854775808;

// What each phase would send of the rows looked at: where the row begins, or where the rows end, and the bound that a tag has to be below, which is that
// row's tag.
#[derive(Drop)]
pub struct Best {
    pub first: usize,
    pub soonest: u64,
    pub spare: usize,
    pub smallest: u64,
}

// A bit where a test holds, else none. Joined to a tag that does not count it lifts the tag past every bound, so that nothing need branch on the test.
fn bit_where(test: bool, bit: u64) -> u64
    ensures { result ≡ (if test then bit else 0) }
{
    if test { bit } else { 0 }
}

// The bit where a tag is past a limit, else none. Of a test compilers for x86-64 make a branch here, of this they do not: the tag has the bit itself, or
// what is left of the limit has it, wrapped.
fn after(limit: u64, tag: u64) -> u64
    requires { limit ≤ ceiling }
    ensures { result ≡ (if ltb limit tag then 9223372036854775808 else 0) }
{
    (tag | std::num::wrapping_sub_u64(limit, tag)) & ABOVE
}

// What the reservation phase holds against its bound of the row at `at`: its reservation tag, past every bound where its guest has no reservation or its
// limit tag is above the latest that passes.
pub fn due_tag(waiting: &[u64], at: usize, guests: &[u64], guest: usize, latest: u64) -> u64
    requires { (at + waiting_wide ≤ length waiting.now) × (guest * guest_wide + guest_wide ≤ length guests.now) × (guest ≤ most_guests) × (latest ≤ ceiling) }
    ensures { Counts (nat_lt 0 (guest_at guests.now guest RESERVATION) && nat_le (slice_index waiting.now (at + LTAG)) latest) (slice_index waiting.now (at + RTAG)) result }
{
    let none = guests[guest * GUEST_WIDE + RESERVATION] == 0;
    waiting[at + RTAG] | (bit_where(none, ABOVE) | after(latest, waiting[at + LTAG]))
}

// What the weight phase does: its share tag, past every bound where its limit tag is above the time. An unlimited guest's limit tags are 0.
pub fn open_tag(waiting: &[u64], at: usize, time: u64) -> u64
    requires { (at + waiting_wide ≤ length waiting.now) × (time ≤ ceiling) }
    ensures { Counts (nat_le (slice_index waiting.now (at + LTAG)) time) (slice_index waiting.now (at + STAG)) result }
{
    waiting[at + STAG] | after(time, waiting[at + LTAG])
}

// Before the first row: nothing, with bounds that each tag which counts is below. The first one is one above the time, so that one test says due and smaller.
pub fn nothing_yet(used: usize, time: u64) -> Best
    requires { time ≤ ceiling }
    ensures { result ≡ record { first = used; soonest = time + 1; spare = used; smallest = ceiling + 1 } }
{
    Best {
        first: used,
        soonest: time + 1,
        spare: used,
        smallest: PAST,
    }
}

// Looks at the row that begins at `at`, for both phases. `latest` is the latest limit tag that the reservation phase lets pass: rules 1 and 2 differ in
// nothing else.
pub fn look(queue: Queue, at: usize, latest: u64, best: Best) -> Best
    requires waiting_wide_in_bounds { (at + waiting_wide ≤ length queue.waiting.now) × (slice_index queue.waiting.now (at + GUEST) * guest_wide + guest_wide ≤ length queue.guests.now) × (slice_index queue.waiting.now (at + GUEST) ≤ most_guests) }
    requires time_le_ceiling { (queue.time ≤ ceiling) × (latest ≤ ceiling) }
    ensures { let q = queue.entry in (known count row : ℕ) → at ≡ row * waiting_wide → row < count → Owned q.waiting.now count known → Passed q.guests.now q.waiting.now known count q.time latest row best → Passed q.guests.now q.waiting.now known count q.time latest (row + 1) result }
{
    let guest = queue.waiting[at + GUEST] as usize;
    let mut first = best.first;
    let mut soonest = best.soonest;
    let tag = due_tag(queue.waiting, at, queue.guests, guest, latest);
    if tag < soonest {
        first = at;
        soonest = tag;
    }
    let mut spare = best.spare;
    let mut smallest = best.smallest;
    let share = open_tag(queue.waiting, at, queue.time);
    if share < smallest {
        spare = at;
        smallest = share;
    }
    Best {
        first,
        soonest,
        spare,
        smallest,
    }
}

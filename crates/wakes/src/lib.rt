// The walk that finds from when on the first of the waiting requests could go. It reads and changes nothing. Functions for this repository's own crates.
#![tactic(auto)]

ghost use Rattle.std.specs.Prelude.{◌≡◌, map, ◌+◌, ◌*◌, ◌≤◌, ◌<◌, max, length, get_or};
ghost use Rattle.lists.specs.Words.{lowest};
ghost use Rattle.rules.specs.Numbers.{ceiling};
ghost use Rattle.table.specs.Columns.{RESERVATION, guest_wide, RTAG, LTAG, waiting_wide, most_guests, most_capacity, guest_at};
ghost use Rattle.table.specs.View.{guests_of, waiting_of};
ghost use Rattle.walks.specs.Walks.{Owned, Rising, LimitsFit, ready_by, ready_under, ready_by_tag};

use table::columns::{GUEST, GUEST_WIDE, LTAG, MOST_GUESTS, RESERVATION, RTAG, WAITING_WIDE};
use tags::PAST;
use walks::queue::Queue;

// The time from which the row at `at` could go under rule 1: its limit tag, or its reservation tag where that is earlier and its guest has a reservation.
// An unlimited guest's limit tags are 0.
fn ready_at(waiting: &[u64], at: usize, guests: &[u64], guest: usize) -> u64
    requires { (at + waiting_wide ≤ length waiting.now) × (guest * guest_wide + guest_wide ≤ length guests.now) × (guest ≤ most_guests) }
    ensures { result ≡ ready_by (guest_at guests.now guest RESERVATION) (get_or waiting.now (at + RTAG) 0) (get_or waiting.now (at + LTAG) 0) }
{
    let tag = waiting[at + RTAG];
    let limit = waiting[at + LTAG];
    if limit <= tag {
        return limit;
    }
    if 0 < guests[guest * GUEST_WIDE + RESERVATION] {
        tag
    } else {
        limit
    }
}

// The same under either rule: under rule 2 neither phase sends a request before its limit tag.
pub fn ready_under(rule: u64, waiting: &[u64], at: usize, guests: &[u64], guest: usize) -> u64
    requires { (at + waiting_wide ≤ length waiting.now) × (guest * guest_wide + guest_wide ≤ length guests.now) × (guest ≤ most_guests) }
    ensures { result ≡ ready_under rule (guest_at guests.now guest RESERVATION) (get_or waiting.now (at + RTAG) 0) (get_or waiting.now (at + LTAG) 0) }
{
    if rule == 2 {
        waiting[at + LTAG]
    } else {
        ready_at(waiting, at, guests, guest)
    }
}

// The time, now or later, from which the first of the waiting requests could go. Only the first row of each guest is looked at: within a guest no
// later tag is smaller. Where one could go now, no further row is, nor once no guest is left whose first row is unseen.
pub fn soonest(queue: Queue, rule: u64) -> u64
    requires count_nonzero { (0 < queue.count) × (queue.count ≤ most_capacity) × (queue.count * waiting_wide ≤ length queue.waiting.now) × (queue.known ≤ most_guests) × (queue.known * guest_wide ≤ length queue.guests.now) }
    requires owned { Owned queue.waiting.now queue.count queue.known × Rising queue.waiting.now queue.count × LimitsFit queue.waiting.now queue.count }
    requires time_le_ceiling { queue.time ≤ ceiling }
    ensures { result ≡ max queue.entry.time (lowest (map (ready_by_tag rule (guests_of queue.entry.guests.now queue.entry.known)) (waiting_of queue.entry.waiting.now queue.entry.count))) }
{
    let mut seen = [false; MOST_GUESTS];
    let mut first = PAST;
    let mut left = queue.known;
    for row in 0..queue.count {
        let at = row * WAITING_WIDE;
        let guest = queue.waiting[at + GUEST] as usize;
        if seen[guest] {
            continue;
        }
        seen[guest] = true;
        left -= 1;
        let ready = ready_under(rule, queue.waiting, at, queue.guests, guest);
        if ready <= queue.time {
            return queue.time;
        }
        first = first.min(ready);
        if left == 0 {
            return first;
        }
    }
    first
}

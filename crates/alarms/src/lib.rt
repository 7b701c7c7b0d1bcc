// From when on the first of the waiting requests could go, by the first row of each guest. It reads and changes nothing. Functions for this repository's own
// crates.
#![tactic(auto)]

ghost use Rattle.std.specs.Prelude.{◌≡◌, map, ◌*◌, ◌≤◌, ◌<◌, max, length};
ghost use Rattle.lists.specs.Words.{lowest};
ghost use Rattle.rules.specs.Numbers.{ceiling};
ghost use Rattle.table.specs.Columns.{guest_wide, waiting_wide, most_guests, most_capacity};
ghost use Rattle.table.specs.View.{guests_of, waiting_of};
ghost use Rattle.walks.specs.Walks.{Owned, Rising, LimitsFit, ready_by_tag};
ghost use Rattle.index.specs.Index.{Indexed};

use table::columns::WAITING_WIDE;
use tags::PAST;
use wakes::ready_under;
use walks::queue::Queue;

// The time, now or later, from which the first of the waiting requests could go: wakes::soonest, with a look at the first row of each guest, which the index
// tells. Where one could go now, no further guest is looked at.
pub fn soonest(queue: Queue, rule: u64, index: &[u16]) -> u64
    requires count_nonzero { (0 < queue.count) × (queue.count ≤ most_capacity) × (queue.count * waiting_wide ≤ length queue.waiting.now) × (queue.known ≤ most_guests) × (queue.known * guest_wide ≤ length queue.guests.now) }
    requires owned { Owned queue.waiting.now queue.count queue.known × Rising queue.waiting.now queue.count × LimitsFit queue.waiting.now queue.count }
    requires time_le_ceiling { queue.time ≤ ceiling }
    requires indexed { Indexed queue.waiting.now index.now queue.count }
    ensures { result ≡ max queue.entry.time (lowest (map (ready_by_tag rule (guests_of queue.entry.guests.now queue.entry.known)) (waiting_of queue.entry.waiting.now queue.entry.count))) }
{
    let mut first = PAST;
    for g in 0..queue.known {
        let number = index[g] as usize;
        if 0 < number {
            let ready = ready_under(
                rule,
                queue.waiting,
                (number - 1) * WAITING_WIDE,
                queue.guests,
                g,
            );
            if ready <= queue.time {
                return queue.time;
            }
            first = first.min(ready);
        }
    }
    first
}

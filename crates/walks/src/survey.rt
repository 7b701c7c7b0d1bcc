// What an arrival has to know of the waiting rows: whether its guest has this id, or anything, waiting, and the ends of the share tags.
ghost use Rattle.std.specs.Prelude.{◌≡◌, map, ◌*◌, ◌≤◌, length};
ghost use Rattle.lists.specs.Words.{lowest};
ghost use Rattle.rules.specs.Tables.{Request};
ghost use Rattle.table.specs.Columns.{waiting_wide, most_capacity};
ghost use Rattle.table.specs.View.{waiting_of};
ghost use Rattle.walks.specs.Survey.{own_of, highest};

use table::columns::{GUEST, ID, STAG, WAITING_WIDE};

// The guest has this id waiting; has something else waiting; has nothing waiting.
#[derive(Drop)]
pub enum Own {
    Repeated,
    Waits,
    Idle,
}

// The smallest and the largest share tag waiting, both 0 where nothing waits.
#[derive(Drop)]
pub struct Span {
    pub least: u64,
    pub most: u64,
}

// What waits of a guest, beside a request of this id. From the last row to the first: the rows in front, which the walk of the choice reads next,
// are then those that a small cache still holds.
pub fn own_rows(waiting: &[u64], count: usize, guest: u64, id: u64) -> Own
    requires { (count ≤ most_capacity) × (count * waiting_wide ≤ length waiting.now) }
    ensures { result ≡ own_of (record { guest = guest; id = id }) (waiting_of waiting.now count) }
{
    let mut waits = false;
    for row in (0..count).rev() {
        let at = row * WAITING_WIDE;
        if waiting[at + GUEST] == guest {
            if waiting[at + ID] == id {
                return Own::Repeated;
            }
            waits = true;
        }
    }
    if waits { Own::Waits } else { Own::Idle }
}

// The ends of the share tags waiting.
pub fn ends(waiting: &[u64], count: usize) -> Span
    requires { (count ≤ most_capacity) × (count * waiting_wide ≤ length waiting.now) }
    ensures { (result.least ≡ lowest (map Request.stag (waiting_of waiting.now count))) × (result.most ≡ highest (map Request.stag (waiting_of waiting.now count))) }
{
    if count == 0 {
        return Span { least: 0, most: 0 };
    }
    let mut least = waiting[STAG];
    let mut most = least;
    for row in 1..count {
        let tag = waiting[row * WAITING_WIDE + STAG];
        least = least.min(tag);
        most = most.max(tag);
    }
    Span { least, most }
}

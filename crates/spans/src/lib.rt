// The ends of the share tags waiting, by the first and the last row of each guest: within a guest they rise. It reads and changes nothing. Functions for this
// repository's own crates.
#![tactic(auto)]

ghost use Rattle.std.specs.Prelude.{◌≡◌, map, ◌-◌, ◌*◌, ◌≤◌, ◌<◌, length};
ghost use Rattle.lists.specs.Words.{lowest};
ghost use Rattle.rules.specs.Tables.{Request};
ghost use Rattle.table.specs.Columns.{waiting_wide, most_guests, most_capacity};
ghost use Rattle.table.specs.View.{waiting_of};
ghost use Rattle.walks.specs.Walks.{Owned, Rising};
ghost use Rattle.walks.specs.Survey.{tag_of, highest};
ghost use Rattle.index.specs.Index.{Indexed};

use index::LASTS;
use table::columns::{STAG, WAITING_WIDE};
use walks::survey::Span;

// The share tag of the row whose place is written as `number`.
fn share_of(waiting: &[u64], number: usize) -> u64
    requires { (0 < number) × (number * waiting_wide ≤ length waiting.now) }
    ensures { result ≡ tag_of waiting.now (number - 1) }
{
    waiting[(number - 1) * WAITING_WIDE + STAG]
}

// The ends of the share tags waiting: walks::survey::ends, by the rows that the index tells.
pub fn ends(waiting: &[u64], count: usize, known: usize, index: &[u16]) -> Span
    requires count_le_most_capacity { (count ≤ most_capacity) × (count * waiting_wide ≤ length waiting.now) × (known ≤ most_guests) }
    requires owned { Owned waiting.now count known × Rising waiting.now count }
    requires indexed { Indexed waiting.now index.now count }
    ensures { (result.least ≡ lowest (map Request.stag (waiting_of waiting.now count))) × (result.most ≡ highest (map Request.stag (waiting_of waiting.now count))) }
{
    if count == 0 {
        return Span { least: 0, most: 0 };
    }
    let mut least = waiting[STAG];
    let mut most = least;
    for g in 0..known {
        let first = index[g] as usize;
        let last = index[LASTS + g] as usize;
        if 0 < first {
            least = least.min(share_of(waiting, first));
            most = most.max(share_of(waiting, last));
        }
    }
    Span { least, most }
}

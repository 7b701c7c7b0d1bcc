// What waits of a guest, found along its own rows by the index: the rows of the others are not read. Functions for this repository's own crates.
#![tactic(auto)]

ghost use Rattle.std.specs.Prelude.{◌≡◌, ◌*◌, ◌≤◌, ◌<◌, length};
ghost use Rattle.table.specs.Columns.{waiting_wide, most_guests, most_capacity};
ghost use Rattle.table.specs.View.{waiting_of};
ghost use Rattle.walks.specs.Survey.{own_of};
ghost use Rattle.index.specs.Index.{Indexed};

use index::NEXTS;
use table::columns::{ID, WAITING_WIDE};
use walks::survey::Own;

// What waits of a guest, beside a request of this id: walks::survey::own_rows, from the guest's first row to its last. Places are written one higher.
pub fn own_rows(waiting: &[u64], count: usize, guest: u64, id: u64, index: &[u16]) -> Own
    requires count_le_most_capacity { (count ≤ most_capacity) × (count * waiting_wide ≤ length waiting.now) × (guest < most_guests) }
    requires indexed { Indexed waiting.now index.now count }
    ensures { result ≡ own_of (record { guest = guest; id = id }) (waiting_of waiting.now count) }
{
    let mut next = index[guest as usize] as usize;
    if next == 0 {
        return Own::Idle;
    }
    while 0 < next {
        let row = next - 1;
        if waiting[row * WAITING_WIDE + ID] == id {
            return Own::Repeated;
        }
        next = index[NEXTS + row] as usize;
    }
    Own::Waits
}

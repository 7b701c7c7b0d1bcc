// The drop after a weight send, along the rows of the guest that was served, which the index tells. Functions for this repository's own crates.
#![tactic(auto)]

ghost use Rattle.std.specs.Prelude.{◌≡◌, ◌+◌, ◌*◌, ◌≤◌, ◌<◌, length};
ghost use Rattle.rules.specs.Numbers.{second, most_cost};
ghost use Rattle.table.specs.Columns.{guest_wide, waiting_wide, most_guests};
ghost use Rattle.moves.specs.Moves.{fall_of, last_past, next_dropped, tags_dropped, Lawful, Unreserved};
ghost use Rattle.index.specs.Index.{Indexed};

use drops::{Fall, fall_after};
use index::NEXTS;
use table::columns::{COST, GUEST_WIDE, RNEXT, RTAG, WAITING_WIDE};

// Every reservation tag of `guest` drops by its fall, but never below 0. What follows the last of them is handed back, or the next number where there is none.
fn lower_along(waiting: &mut [u64], count: usize, guest: u64, fall: Fall, index: &[u16]) -> u64
    requires waiting_wide_in_bounds { (count * waiting_wide ≤ length waiting.old) × (fall.spacing ≤ second) × (guest < most_guests) × Lawful count waiting.old }
    requires indexed { Indexed waiting.old index.now count }
    ensures waiting_after { waiting.new ≡ tags_dropped guest fall.by waiting.old count }
    ensures value { result ≡ last_past guest fall.by fall.spacing fall.next waiting.old count }
{
    let mut after = fall.next;
    let mut number = index[guest as usize] as usize;
    while 0 < number {
        let row = number - 1;
        let from = row * WAITING_WIDE;
        let q = waiting[from + RTAG].saturating_sub(fall.by);
        after = q + waiting[from + COST] * fall.spacing;
        waiting[from + RTAG] = q;
        number = index[NEXTS + row] as usize;
    }
    after
}

// After a weight send at this cost: drops::drop_tags, along the guest's rows.
pub fn drop_along(
    guests: &mut [u64],
    waiting: &mut [u64],
    count: usize,
    guest: u64,
    cost: u64,
    index: &[u16],
)
    requires guest_wide_in_bounds { (guest * guest_wide + guest_wide ≤ length guests.old) × (count * waiting_wide ≤ length waiting.old) × (guest < most_guests) }
    requires cost_le_most_cost { (cost ≤ most_cost) × Lawful count waiting.old × Unreserved guest count guests.old waiting.old }
    requires indexed { Indexed waiting.old index.now count }
    ensures guests_after { guests.new ≡ next_dropped guest cost count waiting.old guests.old }
    ensures waiting_after { waiting.new ≡ tags_dropped guest (fall_of guest cost guests.old) waiting.old count }
{
    let Some(fall) = fall_after(guests, guest, cost) else {
        return;
    };
    let next = lower_along(waiting, count, guest, fall, index);
    guests[(guest as usize) * GUEST_WIDE + RNEXT] = next;
}

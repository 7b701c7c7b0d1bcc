// The order of the waiting requests of every guest, one kind of tag at a time: the spacing, and the next numbers. Functions for this repository's own crates.
#![tactic(auto)]

ghost use Rattle.std.specs.Prelude.{◌≡◌, ◌≤◌};
ghost use Rattle.lists.specs.Words.{below};
ghost use Rattle.rules.specs.Tables.{owner, mine};
ghost use Rattle.rules.specs.Sound.{orderly};
ghost use Rattle.table.specs.Columns.{SHARES};
ghost use Rattle.table.specs.View.{guests_of, waiting_of};
ghost use Rattle.entries.specs.Kinds.{Tested, kept_all};

use kinds::{all_end, gap_of, is_passed, near_of};
use table::columns::{
    COST, GUEST, GUEST_WIDE, LIMIT, MOST_GUESTS, RESERVATION, RTAG, SHARES, WAITING_WIDE,
};

// The order of one kind of every guest: one walk over the requests, which keeps for each guest the least that its next tag may be, and what its next number
// is. A gap, which is a division, is computed at the first request of a guest: one with nothing waiting needs none.
// A floor is 0 where nothing waits, and no Option: `ends_at`, by which the next numbers are judged, reads it so.
fn is_kept(guests: &[u64], known: usize, waiting: &[u64], count: usize, kind: usize) -> bool
    requires { Tested guests.now known waiting.now count × (kind ≤ SHARES) }
    ensures { result ≡ below known (kept_all guests.now known waiting.now count kind) }
{
    let mut gaps: [u64; MOST_GUESTS] = [0; MOST_GUESTS];
    let mut lows: [u64; MOST_GUESTS] = [0; MOST_GUESTS];
    let mut floors: [u64; MOST_GUESTS] = [0; MOST_GUESTS];
    for i in 0..count {
        let from = i * WAITING_WIDE;
        let g = waiting[from + GUEST] as usize;
        let tag = waiting[from + (RTAG + kind)];
        let cost = waiting[from + COST];
        let floor = floors[g];
        if floor == 0 {
            gaps[g] = gap_of(kind, guests[g * GUEST_WIDE + kind]);
        }
        let gap = gaps[g];
        let low = lows[g];
        if !is_passed(gap, low, tag) {
            return false;
        }
        let distance = cost * gap;
        floors[g] = tag + distance;
        lows[g] = tag + near_of(kind, distance);
    }
    all_end(guests, known, kind, &floors)
}

// The order of every guest, kind by kind.
pub fn all_orderly(guests: &[u64], known: usize, waiting: &[u64], count: usize) -> bool
    requires { Tested guests.now known waiting.now count }
    ensures { result ≡ below known (λ g. orderly (owner (guests_of guests.now known) g) (mine g (waiting_of waiting.now count))) }
{
    is_kept(guests, known, waiting, count, RESERVATION)
        && is_kept(guests, known, waiting, count, LIMIT)
        && is_kept(guests, known, waiting, count, SHARES)
}

// One kind of tag of one guest: how far apart its tags stand, where a tag may stand, and what the next number is. A kind is told by the column of its setting:
// RESERVATION, LIMIT or SHARES; its tags and its next numbers stand in the same order. Functions for this repository's own crates.
#![tactic(auto)]

ghost use Rattle.std.specs.Prelude.{◌≡◌, ◌*◌, ◌≤◌, length};
ghost use Rattle.lists.specs.Words.{below};
ghost use Rattle.table.specs.Columns.{SHARES, guest_wide, most_guests};
ghost use Rattle.entries.specs.Kinds.{passes, ends, gap_of, near_of, ends_at};
ghost use Rattle.kinds.specs.Kind.{column_of};

use table::columns::{GUEST_WIDE, LIMIT, MOST_GUESTS, RESERVATION, RNEXT, SHARES};
use tags::{CEILING, Down, Rounding, Up};

// The most that an idle guest's next number may be: the ceiling plus 64,000,000,000.
const IDLE: u64 = CEILING + 64000000000;

// A kind of tag by its name, for a caller that is given no column.
#[derive(Clone, Copy)]
pub enum Kind {
    Reservation,
    Limit,
    Shares,
}

// The column of a kind's setting; its tags and its next numbers stand in the same order.
pub fn column_of(kind: Kind) -> usize
    ensures { (result ≡ column_of kind) × (result ≤ SHARES) }
{
    match kind {
        Kind::Reservation => RESERVATION,
        Kind::Limit => LIMIT,
        Kind::Shares => SHARES,
    }
}

// How far apart the tags of a kind stand at cost 1, by the guest's setting of that kind; 0 where the guest lacks it.
pub fn gap_of(kind: usize, n: u64) -> u64
    ensures { result ≡ gap_of kind n }
{
    if kind == LIMIT {
        Up::spacing(n)
    } else {
        Down::spacing(n)
    }
}

// What the next tag of a kind keeps of the distance that the next number keeps: all of it, but reservation tags have only not to fall.
pub fn near_of(kind: usize, distance: u64) -> u64
    ensures { result ≡ near_of kind distance }
{
    if kind == RESERVATION { 0 } else { distance }
}

// A tag may stand where the one before it asks for at least `low`; of a kind that the guest lacks it is 0.
pub fn is_passed(gap: u64, low: u64, tag: u64) -> bool
    ensures { result ≡ passes gap low tag }
{
    if gap == 0 { tag == 0 } else { low <= tag }
}

// A next number is right where the last waiting tag asks for `floor`, which is 0 where nothing waits; of a kind that the guest lacks it is 0. A guest's
// setting says whether it has the kind: no gap has to be known.
fn is_end(setting: u64, floor: u64, next: u64) -> bool
    ensures { result ≡ ends setting floor next }
{
    if setting == 0 {
        return next == 0;
    }
    if floor == 0 {
        return next <= IDLE;
    }
    next == floor
}

// The next number of every guest, of one kind, is right.
pub fn all_end(guests: &[u64], known: usize, kind: usize, floors: &[u64; MOST_GUESTS]) -> bool
    requires { (known ≤ most_guests) × (known * guest_wide ≤ length guests.now) × (kind ≤ SHARES) }
    ensures { result ≡ below known (ends_at guests.now kind floors.now) }
{
    for g in 0..known {
        let from = g * GUEST_WIDE;
        let setting = guests[from + kind];
        let next = guests[from + (RNEXT + kind)];
        if !is_end(setting, floors[g], next) {
            return false;
        }
    }
    true
}

#[cfg(test)]
mod tests {
    use super::*;

    // A setting is its reservation, its limit and its shares, in this order.
    #[test]
    fn columns_stand_in_the_order_of_a_setting(rt: HostRuntime) {
        assert_eq!(rt; column_of(Kind::Reservation), 0);
        assert_eq!(rt; column_of(Kind::Limit), 1);
        assert_eq!(rt; column_of(Kind::Shares), 2);
    }
}

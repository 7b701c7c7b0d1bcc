// What an arrival and an opening place in the lent tables: the request, the next numbers that follow it, the settings. Each contract says what becomes of the
// numbers; MovesLaws and FollowLaws of `moves` say which lists of document 01 they then show. Functions for this repository's own crates.
#![tactic(auto)]

ghost use Rattle.std.specs.Prelude.{◌≡◌, ◌+◌, ◌*◌, ◌≤◌, length};
ghost use Rattle.rules.specs.Numbers.{most_cost};
ghost use Rattle.table.specs.Columns.{LIMIT, guest_wide, settings_wide, waiting_wide, guest_at};
ghost use Rattle.moves.specs.Moves.{appended, followed, started};

use table::columns::{
    COST, CREDIT, GUEST, GUEST_WIDE, ID, LIMIT, LISTCREDIT, LNEXT, LTAG, RESERVATION, RNEXT, RTAG,
    SETTINGS_WIDE, SHARES, SNEXT, STAG, WAITING_WIDE,
};
use tags::{Down, Stamp, Up, gap};

// A request that is placed: whose, its id, its tags and its cost.
#[derive(Clone, Copy)]
pub struct Placing {
    pub guest: u64,
    pub id: u64,
    pub stamp: Stamp,
    pub cost: u64,
}

// The request is placed last among the waiting.
pub fn append(waiting: &mut [u64], count: usize, what: Placing)
    requires { count * waiting_wide + waiting_wide ≤ length waiting.old }
    ensures { waiting.new ≡ appended count (record { guest = what.guest; id = what.id; rtag = what.stamp.rtag; ltag = what.stamp.ltag; stag = what.stamp.stag; cost = what.cost }) waiting.old }
{
    let from = count * WAITING_WIDE;
    waiting[from + GUEST] = what.guest;
    waiting[from + ID] = what.id;
    waiting[from + RTAG] = what.stamp.rtag;
    waiting[from + LTAG] = what.stamp.ltag;
    waiting[from + STAG] = what.stamp.stag;
    waiting[from + COST] = what.cost;
}

// After an arrival: the next numbers of the request's guest become its tags plus its cost times the spacings.
pub fn follow(guests: &mut [u64], what: Placing)
    requires guest_wide_in_bounds { (what.guest * guest_wide + guest_wide ≤ length guests.old) × (guest_at guests.old what.guest LIMIT ≤ 1000000) }
    requires cost_le_most_cost { what.cost ≤ most_cost }
    requires rtag_bound { (what.stamp.rtag ≤ 4611686018427387904) × (what.stamp.ltag ≤ 4611686018427387904) × (what.stamp.stag ≤ 4611686018427387904) }
    ensures { guests.new ≡ followed what.guest what.stamp.rtag what.stamp.ltag what.stamp.stag what.cost guests.old }
{
    let from = (what.guest as usize) * GUEST_WIDE;
    let reservation = guests[from + RESERVATION];
    let limit = guests[from + LIMIT];
    let shares = guests[from + SHARES];
    let r = gap::<Down>(what.cost, reservation);
    let l = gap::<Up>(what.cost, limit);
    let s = gap::<Down>(what.cost, shares);
    guests[from + RNEXT] = what.stamp.rtag + r;
    guests[from + LNEXT] = what.stamp.ltag + l;
    guests[from + SNEXT] = what.stamp.stag + s;
}

// At opening: each guest has its four settings, and its next numbers are 0.
pub fn start(guests: &mut [u64], settings: &[u64], known: usize)
    requires { (known * guest_wide ≤ length guests.old) × (known * settings_wide ≤ length settings.now) }
    ensures { guests.new ≡ started settings.now known guests.old }
{
    for i in 0..known {
        let list = i * SETTINGS_WIDE;
        let from = i * GUEST_WIDE;
        guests[from + RESERVATION] = settings[list + RESERVATION];
        guests[from + LIMIT] = settings[list + LIMIT];
        guests[from + SHARES] = settings[list + SHARES];
        guests[from + RNEXT] = 0;
        guests[from + LNEXT] = 0;
        guests[from + SNEXT] = 0;
        guests[from + CREDIT] = settings[list + LISTCREDIT];
    }
}

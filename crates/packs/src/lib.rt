// The thin functions over a lent slice of guest records, which only `unpack` reads and only `pack` writes; a record's numbers
// stand in a lent list of numbers, a row for each record. Functions for this repository's own crates.
#![tactic(auto)]

ghost use Rattle.std.specs.Prelude.{◌≡◌, ◌++◌, ◌+◌, ◌*◌, ◌≤◌, ◌<◌, min, length, get_or, take, drop};
ghost use Rattle.lists.specs.Stores.{stores};
ghost use Rattle.lists.specs.Lines.{line_at};
ghost use Rattle.lists.specs.Rows.{rows_of, over_rows};
ghost use Rattle.table.specs.Columns.{guest_wide};
ghost use Rattle.table.specs.View.{guest_form};
ghost use Rattle.packs.specs.Records.{in_use};

use rules::{Guest, Settings};
use table::columns::{
    CREDIT, GUEST_WIDE, LIMIT, LNEXT, MOST_GUESTS, RESERVATION, RNEXT, SHARES, SNEXT,
};

// How many of the lent records a call looks at: no more than the settings ask for, than are lent, and than there may be guests.
pub fn used(wanted: u64, lent: usize) -> usize
    ensures { result ≡ in_use wanted lent }
{
    (wanted as usize).min(lent.min(MOST_GUESTS))
}

// Writes a record into its row of numbers.
pub fn put_row(rows: &mut [u64], at: usize, guest: Guest)
    requires { at * guest_wide + guest_wide ≤ length rows.old }
    ensures { rows.new ≡ stores (λ j. at * guest_wide + j) (λ j. get_or (guest_form.line guest) j 0) guest_wide rows.old }
{
    rows[at * GUEST_WIDE + RESERVATION] = guest.settings.reservation;
    rows[at * GUEST_WIDE + LIMIT] = guest.settings.limit;
    rows[at * GUEST_WIDE + SHARES] = guest.settings.shares;
    rows[at * GUEST_WIDE + RNEXT] = guest.rnext;
    rows[at * GUEST_WIDE + LNEXT] = guest.lnext;
    rows[at * GUEST_WIDE + SNEXT] = guest.snext;
    rows[at * GUEST_WIDE + CREDIT] = guest.settings.credit;
}

// The record that a row of numbers holds.
pub fn row_at(rows: &[u64], at: usize) -> Guest
    requires { at * guest_wide + guest_wide ≤ length rows.now }
    ensures { result ≡ guest_form.read (line_at guest_wide rows.now at) }
{
    Guest {
        settings: Settings {
            reservation: rows[at * GUEST_WIDE + RESERVATION],
            limit: rows[at * GUEST_WIDE + LIMIT],
            shares: rows[at * GUEST_WIDE + SHARES],
            credit: rows[at * GUEST_WIDE + CREDIT],
        },
        rnext: rows[at * GUEST_WIDE + RNEXT],
        lnext: rows[at * GUEST_WIDE + LNEXT],
        snext: rows[at * GUEST_WIDE + SNEXT],
    }
}

// Writes the first `count` records into their rows; numbers past them stay.
pub fn unpack(guests: &[Guest], count: usize, rows: &mut [u64])
    requires { (count ≤ length guests.now) × (count * guest_wide ≤ length rows.old) }
    ensures { rows.new ≡ over_rows guest_form count (take count guests.now) rows.old }
{
    for (i, guest) in guests[..count].iter().enumerate() {
        put_row(rows, i, *guest);
    }
}

// Writes what the first `count` rows hold into the first records; records past them stay.
pub fn pack(rows: &[u64], count: usize, guests: &mut [Guest])
    requires { (count ≤ length guests.old) × (count * guest_wide ≤ length rows.now) }
    ensures { guests.new ≡ rows_of guest_form rows.now count ++ drop count guests.old }
{
    for (i, guest) in guests[..count].iter_mut().enumerate() {
        *guest = row_at(rows, i);
    }
}

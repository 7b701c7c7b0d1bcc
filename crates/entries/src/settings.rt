// Whether the settings of all guests lie in their ranges.
ghost use Rattle.std.specs.Prelude.{◌≡◌, ◌*◌, ◌≤◌, ◌<◌, length};
ghost use Rattle.lists.specs.Words.{all};
ghost use Rattle.lists.specs.Lines.{lines_of};
ghost use Rattle.lists.specs.Rows.{rows_of};
ghost use Rattle.rules.specs.Sound.{settled};
ghost use Rattle.table.specs.Columns.{SHARES, guest_wide, settings_wide};
ghost use Rattle.table.specs.View.{settings_form, guests_of};
ghost use Rattle.entries.specs.Tests.{settled_guest, settled_row};

use ranges::is_settled;
use table::columns::{CREDIT, GUEST_WIDE, LIMIT, LISTCREDIT, RESERVATION, SETTINGS_WIDE, SHARES};

// The settings that begin each of the first rows lie in their ranges: rows of WIDE numbers, whose credit stands in column AT.
fn are_settled<const WIDE: usize, const AT: usize>(rows: &[u64], known: usize) -> bool
    requires { (known * WIDE ≤ length rows.now) × (SHARES < WIDE) × (AT < WIDE) }
    ensures { result ≡ all (settled_row AT) (lines_of WIDE rows.now known) }
{
    for i in (0..known).rev() {
        let r = rows[i * WIDE + RESERVATION];
        let l = rows[i * WIDE + LIMIT];
        let s = rows[i * WIDE + SHARES];
        let c = rows[i * WIDE + AT];
        if !is_settled(r, l, s, c) {
            return false;
        }
    }
    true
}

// The settings of every guest lie in their ranges, in a list of settings.
pub fn all_settled_list(settings: &[u64], known: usize) -> bool
    requires { known * settings_wide ≤ length settings.now }
    ensures { result ≡ all settled (rows_of settings_form settings.now known) }
{
    are_settled::<SETTINGS_WIDE, LISTCREDIT>(settings, known)
}

// Those of every guest do, in a guest table.
pub fn all_settled(guests: &[u64], known: usize) -> bool
    requires { known * guest_wide ≤ length guests.now }
    ensures { result ≡ all settled_guest (guests_of guests.now known) }
{
    are_settled::<GUEST_WIDE, CREDIT>(guests, known)
}

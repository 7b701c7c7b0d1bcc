// The figures as rows of numbers: an event is counted, and a send with its wait. Each contract says what becomes of the numbers; proofs/ say
// which figures they then show.
ghost use Rattle.std.specs.Prelude.{◌≡◌, ℕ, ◌+◌, ◌*◌, ◌^◌, ◌<◌, ◌≤◌, length};
ghost use Rattle.table.specs.Columns.{most_guests};
ghost use Rattle.tally.specs.Columns.{RESERVED, UPPER, figures_wide, figure_at};
ghost use Rattle.tally.specs.Notes.{one_more, sent_for};

use crate::columns::{AHEAD, FIGURES_WIDE, LONGEST, LOWER, RESERVED, UPPER, WEIGHED};
use rules::Phase;

// One more in this column of the guest's figures. A column is a place in a row, as each in columns.rt, so it stays a number.
pub fn count(figures: &mut [u64], guest: u64, column: usize)
    requires guest_lt_most_guests { (guest < most_guests) × (guest * figures_wide + figures_wide ≤ length figures.old) × (column < figures_wide) }
    requires column_bound { figure_at figures.old guest column + 1 < 2 ^ 64 }
    ensures { figures.new ≡ one_more guest column figures.old }
{
    figures[guest as usize * FIGURES_WIDE + column] += 1;
}

// A send is counted at its guest, with its wait. Whether its limit tag lay ahead counts in the reservation phase alone.
pub fn sent(figures: &mut [u64], phase: Phase, guest: u64, ahead: bool, wait: u64)
    requires guest_lt_most_guests { (guest < most_guests) × (guest * figures_wide + figures_wide ≤ length figures.old) }
    requires by_index { (j : ℕ) → RESERVED ≤ j → j ≤ UPPER → figure_at figures.old guest j + 1 < 2 ^ 64 }
    ensures { figures.new ≡ sent_for phase guest ahead wait figures.old }
{
    let at = guest as usize * FIGURES_WIDE;
    let reserved = matches!(phase, Phase::Reservation);
    let (lower, carry) = figures[at + LOWER].overflowing_add(wait);
    figures[at + RESERVED] += u64::from(reserved);
    figures[at + WEIGHED] += u64::from(!reserved);
    figures[at + AHEAD] += u64::from(reserved && ahead);
    figures[at + UPPER] += u64::from(carry);
    figures[at + LOWER] = lower;
    figures[at + LONGEST] = figures[at + LONGEST].max(wait);
}

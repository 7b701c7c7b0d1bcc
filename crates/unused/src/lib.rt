// Whether the unused places of the two tables of requests are zero. Functions for this repository's own crates.
#![tactic(auto)]

ghost use Rattle.std.specs.Prelude.{◌≡◌, ◌&&◌, ◌*◌, ◌≤◌, eqb, length};
ghost use Rattle.lists.specs.Words.{all};
ghost use Rattle.table.specs.Columns.{flight_wide, waiting_wide};
ghost use Rattle.table.specs.View.{zeroed};

use table::columns::{FLIGHT_WIDE, WAITING_WIDE};

// So many numbers are read before they are tested.
const BLOCK: usize = 32;

// The numbers of a part are zero: one test of the bits of all, so that wide registers can read them and little else is done.
fn is_zero(part: &[u64]) -> bool
    ensures { result ≡ all (λ x. eqb x 0) part.now }
{
    part.iter().fold(0, |bits, x| bits | *x) == 0
}

// Every number of a part is zero: tested by blocks, and then what is left behind them.
fn is_blank(part: &[u64]) -> bool
    ensures { result ≡ all (λ x. eqb x 0) part.now }
{
    let mut blocks = part.chunks_exact(BLOCK);
    let rest = blocks.remainder();
    blocks.all(|block| is_zero(block)) && is_zero(rest)
}

// Every place is zero from the last waiting request to the capacity, and from the last request in flight to the depth.
pub fn is_clear(
    waiting: &[u64],
    count: usize,
    capacity: usize,
    flight: &[u64],
    sent: usize,
    depth: usize,
) -> bool
    requires { (count ≤ capacity) × (capacity * waiting_wide ≤ length waiting.now) × (sent ≤ depth) × (depth * flight_wide ≤ length flight.now) }
    ensures { result ≡ (zeroed waiting_wide capacity count waiting.now && zeroed flight_wide depth sent flight.now) }
{
    let from = count * WAITING_WIDE;
    let to = capacity * WAITING_WIDE;
    let start = sent * FLIGHT_WIDE;
    let end = depth * FLIGHT_WIDE;
    is_blank(&waiting[from..to]) && is_blank(&flight[start..end])
}

// The counters of all arrays in one lent list: delta and rho for each guest at each array, a row each, array by array.
// crates/arrays/specs/Counters.antt has their meaning. Functions for this repository's own crates.
#![tactic(auto)]

ghost use Rattle.std.specs.Prelude.{◌≡◌, ◌&&◌, ◌+◌, ◌*◌, ◌≤◌, ◌<◌, leb, length};
ghost use Rattle.rules.specs.Numbers.{most_delta};
ghost use Rattle.arrays.specs.Counters.{counter_wide, DELTA, RHO, counter_at, good_counters, one_more, row_set, counted_row, counted_all, cleared_all};

pub mod handing; // what a request is handed on with

// The most arrays of a house.
pub const MOST_ARRAYS: u64 = 8;

// Where a counter stops.
pub const MOST_COUNT: u64 = 65535;

// How many numbers a row has.
pub const COUNTER_WIDE: usize = 2;

// Where delta stands in a row.
pub const DELTA: usize = 0;

// Where rho stands in a row.
pub const RHO: usize = 1;

// The counters of a guest at an array: what was completed for it since its last request there, all told, and by reservation.
#[derive(Clone, Copy)]
pub struct Counter {
    pub delta: u64,
    pub rho: u64,
}

// A row is good: delta is not past its stop, and rho not above delta.
fn is_good_row(counter: Counter) -> bool
    ensures { result ≡ (leb counter.delta most_delta && leb counter.rho counter.delta) }
{
    counter.delta <= MOST_COUNT && counter.rho <= counter.delta
}

// So many rows are good.
pub fn is_good(counters: &[u64], rows: usize) -> bool
    requires { rows * counter_wide ≤ length counters.now }
    ensures { result ≡ good_counters counters.now rows }
{
    for row in 0..rows {
        if !is_good_row(read(counters, row)) {
            return false;
        }
    }
    true
}

// Both numbers of a row.
pub fn read(counters: &[u64], row: usize) -> Counter
    requires { row * counter_wide + counter_wide ≤ length counters.now }
    ensures delta { result.delta ≡ counter_at counters.now row DELTA }
    ensures rho { result.rho ≡ counter_at counters.now row RHO }
{
    let at = row * COUNTER_WIDE;
    Counter {
        delta: counters[at + DELTA],
        rho: counters[at + RHO],
    }
}

// Sets both numbers of a row.
pub fn set_row(counters: &mut [u64], row: usize, counter: Counter)
    requires { row * counter_wide + counter_wide ≤ length counters.old }
    ensures { counters.new ≡ row_set row counter.delta counter.rho counters.old }
{
    let at = row * COUNTER_WIDE;
    counters[at + DELTA] = counter.delta;
    counters[at + RHO] = counter.rho;
}

// One more, but it stops.
fn one_more(count: u64) -> u64
    ensures { result ≡ one_more count }
{
    count.saturating_add(1).min(MOST_COUNT)
}

// One more in a row: of delta, and of rho where the request had been sent by reservation.
fn count_row(counters: &mut [u64], row: usize, reserved: bool)
    requires { row * counter_wide + counter_wide ≤ length counters.old }
    ensures { counters.new ≡ counted_row reserved row counters.old }
{
    let before = read(counters, row);
    let counter = Counter {
        delta: one_more(before.delta),
        rho: if reserved {
            one_more(before.rho)
        } else {
            before.rho
        },
    };
    set_row(counters, row, counter);
}

// A completion counts for its guest at every array.
pub fn count_all(counters: &mut [u64], arrays: usize, guests: usize, guest: usize, reserved: bool)
    requires { (arrays * guests * counter_wide ≤ length counters.old) × (guest < guests) }
    ensures { counters.new ≡ counted_all arrays guests guest reserved counters.old }
{
    for array in 0..arrays {
        count_row(counters, array * guests + guest, reserved);
    }
}

// The counters of every guest at an array begin anew.
pub fn clear_all(counters: &mut [u64], guests: usize, array: usize)
    requires { (array * guests + guests) * counter_wide ≤ length counters.old }
    ensures { counters.new ≡ cleared_all guests array guests counters.old }
{
    let from = array * guests * COUNTER_WIDE;
    counters[from..from + guests * COUNTER_WIDE].fill(0);
}

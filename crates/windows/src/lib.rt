// A window over the waiting rows: a copy with room behind it, in which the table's start moves on by a row with each send, so that of a thousand rows only those before
// the sent one are moved. Functions for this repository's own crates.
// Each loop over a window has a step of its own: a closure for it would change what it borrows, of which nothing is known afterwards.
#![tactic(auto)]

ghost use Rattle.std.specs.Prelude.{◌≡◌, List, ◌++◌, ℕ, ◌*◌, ◌≤◌, ◌<◌, length, get_or, take, drop};
ghost use Rattle.table.specs.Columns.{waiting_wide, most_guests, most_capacity};
ghost use Rattle.index.specs.Index.{index_wide, owner_of, Indexed};
ghost use Rattle.windows.specs.Window.{spare, Window};

use rules::Gate;
use table::columns::{MOST_CAPACITY, WAITING_WIDE};

// How many sends a window has room for before the table goes back to its front.
pub const SPARE: usize = 256;

// The numbers of a window.
pub const WINDOW_LONG: usize = (MOST_CAPACITY + SPARE) * WAITING_WIDE;

// The gate after an event, and how many rows further back the waiting table stands.
#[derive(Clone, Copy)]
pub struct After {
    pub gate: Gate,
    pub gone: usize,
}

// The gate after a run of events, and the row of the window from which on the waiting table stands.
#[derive(Clone, Copy)]
pub struct Ended {
    pub gate: Gate,
    pub start: usize,
}

// Where the table stands once there is room for one more send: where it stood, or at the front again.
pub fn settle(window: &mut [u64], start: usize, size: usize) -> usize
    requires { (ws : List ℕ) × Window size start window.old ws }
    ensures by_index { (ws : List ℕ) → Window size start window.old ws → Window size result window.new ws }
    ensures upper_bound { result < spare }
{
    if start < SPARE {
        return start;
    }
    let first = start * WAITING_WIDE;
    moves::rows::close_up(&mut window[..first + size], first);
    0
}

// A table of `size` numbers is copied to the front of a window of zeros, and the index of its rows built.
pub fn open(waiting: &[u64], size: usize, rows: usize, window: &mut [u64], index: &mut [u16])
    requires size_in_bounds { (size ≤ length waiting.now) × (size ≤ length window.old) × ((j : ℕ) → get_or window.old j 0 ≡ 0) }
    requires rows_le_most_capacity { (rows ≤ most_capacity) × (rows * waiting_wide ≤ size) × (length index.old ≡ index_wide) }
    requires by_index { (k : ℕ) → k < rows → owner_of (take size waiting.now) k < most_guests }
    ensures window { Window size 0 window.new (take size waiting.now) }
    ensures indexed { Indexed (take size waiting.now) index.new rows }
{
    window[..size].copy_from_slice(&waiting[..size]);
    index::build(&waiting[..size], rows, index);
}

// The table that stands in a window is copied back.
pub fn close(window: &[u64], start: usize, size: usize, waiting: &mut [u64])
    requires by_index { (ws : List ℕ) × Window size start window.now ws }
    requires size_in_bounds { size ≤ length waiting.old }
    ensures { (ws : List ℕ) → Window size start window.now ws → waiting.new ≡ ws ++ drop size waiting.old }
{
    let first = start * WAITING_WIDE;
    waiting[..size].copy_from_slice(&window[first..first + size]);
}

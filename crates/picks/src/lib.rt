// The walk of the choice: the request that each phase would send. It reads and changes nothing. Functions for this repository's own crates.
#![tactic(auto)]

ghost use Rattle.std.specs.Prelude.{◌≡◌, ◌&&◌, ◌*◌, ◌≤◌, ◌<◌, leb, length};
ghost use Rattle.rules.specs.Numbers.{ceiling};
ghost use Rattle.rules.specs.Tables.{Request, settings_of};
ghost use Rattle.rules.specs.Choice.{due_at};
ghost use Rattle.table.specs.Columns.{guest_wide, waiting_wide, most_guests, most_capacity};
ghost use Rattle.table.specs.View.{guests_of, waiting_of};
ghost use Rattle.walks.specs.Walks.{Picks, Owned, Rising, SharesFit, place_in};
ghost use Rattle.walks.specs.Unseen.{bit_of, Marked};
ghost use Rattle.looks.specs.InLine.{Passed};
ghost use Rattle.picks.specs.Collected.{Collected};

use looks::{Best, look, nothing_yet};
use table::columns::{GUEST, MOST_GUESTS, WAITING_WIDE};
use walks::queue::Queue;

// Where at most so many wait, it takes less time to look at every row than to tell the first ones of the guests apart.
const FEW: usize = 32;

// What the walk of the choice finds: the request that each phase would send.
#[derive(Drop)]
pub struct Firsts {
    pub due: Option<usize>,
    pub open: Option<usize>,
}

// Looks at every row.
fn every(queue: Queue, latest: u64) -> Best
    requires count_le_most_capacity { (queue.count ≤ most_capacity) × (queue.count * waiting_wide ≤ length queue.waiting.now) × (queue.known ≤ most_guests) × (queue.known * guest_wide ≤ length queue.guests.now) }
    requires owned { Owned queue.waiting.now queue.count queue.known }
    requires time_le_ceiling { (queue.time ≤ ceiling) × (latest ≤ ceiling) }
    ensures { let q = queue.entry in Passed q.guests.now q.waiting.now q.known q.count q.time latest q.count result }
{
    let mut best = nothing_yet(queue.count * WAITING_WIDE, queue.time);
    for place in 0..queue.count {
        best = look(queue, place * WAITING_WIDE, latest, best);
    }
    best
}

// A guest's bit in the number that tells which guests were seen.
fn bit_of(seen: u64, guest: u64) -> u64
    requires { guest < most_guests }
    ensures { result ≡ bit_of seen guest }
{
    (seen >> guest) & 1
}

// The number with this guest's bit set.
fn with_bit(seen: u64, guest: u64) -> u64
    requires { guest < most_guests }
    ensures { Marked (bit_of seen) guest (bit_of result) }
{
    seen | (1 << guest)
}

// Collects where the first row of each guest begins, and how many these are. It writes down every row and keeps what stood first, so that nothing branches
// on whether a guest was seen; and it ends, and reads no further, once every guest was.
fn collect(queue: Queue, rows: &mut [u16]) -> usize
    requires count_le_most_capacity { (queue.count ≤ most_capacity) × (queue.count * waiting_wide ≤ length queue.waiting.now) × (queue.known ≤ most_guests) × (queue.known ≤ length rows.old) }
    requires owned { Owned queue.waiting.now queue.count queue.known }
    ensures { (result ≤ queue.entry.known) × Collected queue.entry.waiting.now rows.new result queue.entry.count }
{
    let mut seen: u64 = 0;
    let mut n: usize = 0;
    for row in 0..queue.count {
        let at = row * WAITING_WIDE;
        let guest = queue.waiting[at + GUEST];
        rows[n] = at as u16;
        let bit = bit_of(seen, guest);
        n += 1 - (bit as usize);
        seen = with_bit(seen, guest);
        if n == queue.known {
            return n;
        }
    }
    n
}

// Looks at the rows that are collected: within a guest no later tag is smaller.
fn among(queue: Queue, rows: &[u16], latest: u64) -> Best
    requires count_le_most_capacity { (queue.count ≤ most_capacity) × (queue.count * waiting_wide ≤ length queue.waiting.now) × (queue.known ≤ most_guests) × (queue.known * guest_wide ≤ length queue.guests.now) }
    requires owned { Owned queue.waiting.now queue.count queue.known × Rising queue.waiting.now queue.count }
    requires collected { Collected queue.waiting.now rows.now (length rows.now) queue.count }
    requires time_le_ceiling { (queue.time ≤ ceiling) × (latest ≤ ceiling) }
    ensures { let q = queue.entry in Passed q.guests.now q.waiting.now q.known q.count q.time latest q.count result }
{
    let mut best = nothing_yet(queue.count * WAITING_WIDE, queue.time);
    for at in rows {
        best = look(queue, *at as usize, latest, best);
    }
    best
}

// The place of the row at `at`, or none where all rows are passed.
fn place_in(at: usize, used: usize) -> Option<usize>
    ensures { result ≡ place_in at used }
{
    if at < used {
        Some(at / WAITING_WIDE)
    } else {
        None
    }
}

// The places of what was found, where the rows that are used end at `used`.
fn firsts_at(best: Best, used: usize) -> Firsts
    ensures { (result.due ≡ place_in best.first used) × (result.open ≡ place_in best.spare used) }
{
    Firsts {
        due: place_in(best.first, used),
        open: place_in(best.spare, used),
    }
}

// What each phase would send, in one walk for both. Where few wait it looks at every row, else at the first row of each guest. Rows are told by where their
// numbers begin.
pub fn first_in_line(queue: Queue, latest: u64) -> Firsts
    requires count_le_most_capacity { (queue.count ≤ most_capacity) × (queue.count * waiting_wide ≤ length queue.waiting.now) × (queue.known ≤ most_guests) × (queue.known * guest_wide ≤ length queue.guests.now) }
    requires owned { Owned queue.waiting.now queue.count queue.known × Rising queue.waiting.now queue.count × SharesFit queue.waiting.now queue.count }
    requires time_le_ceiling { (queue.time ≤ ceiling) × (latest ≤ ceiling) }
    ensures picks { let q = queue.entry in Picks (λ r. due_at (settings_of (guests_of q.guests.now q.known) r) q.time r && leb r.ltag latest) Request.rtag (waiting_of q.waiting.now q.count) result.due }
    ensures picks_2 { let q = queue.entry in Picks (λ r. leb r.ltag q.time) Request.stag (waiting_of q.waiting.now q.count) result.open }
{
    let used = queue.count * WAITING_WIDE;
    if queue.count <= FEW {
        let best = every(queue, latest);
        return firsts_at(best, used);
    }
    let mut rows = [0u16; MOST_GUESTS];
    let n = collect(queue, &mut rows[..]);
    let best = among(queue, &rows[..n], latest);
    firsts_at(best, used)
}

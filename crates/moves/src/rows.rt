// The moves within the lent tables: send, take out and clear. Each contract says what becomes of the numbers; MovesLaws in specs/ says which lists of document 01
// they then show.
ghost use Rattle.std.specs.Prelude.{◌≡◌, ℕ, ◌+◌, ◌*◌, ◌≤◌, ◌<◌, length};
ghost use Rattle.lists.specs.Parts.{closed, zeros};
ghost use Rattle.table.specs.Columns.{flight_wide, waiting_wide};
ghost use Rattle.moves.specs.Moves.{gone, joined, Named, freed, Pushed, Blank};

use table::columns::{COST, FLIGHT_WIDE, GUEST, ID, WAITING_WIDE};

// The first row of `tail`, of `wide` numbers, goes; each later one moves down a place, and the last becomes zeros.
pub fn close_up(tail: &mut [u64], wide: usize)
    requires { (0 < wide) × (wide ≤ length tail.old) }
    ensures { tail.new ≡ closed wide tail.old }
{
    let keep = tail.len() - wide;
    tail.copy_within(wide.., 0);
    tail[keep..].fill(0);
}

// close_up of waiting rows, apart from `send`: here it becomes one move of memory, there a loop, and a thousand rows took 1.6 microseconds, not 0.9.
fn close_rows(tail: &mut [u64])
    requires { waiting_wide ≤ length tail.old }
    ensures { tail.new ≡ closed waiting_wide tail.old }
{
    close_up(tail, WAITING_WIDE);
}

// Every row of `head` but the last moves up a place, over the last. What is then in the first is nobody's.
fn open_up(head: &mut [u64])
    requires { waiting_wide ≤ length head.old }
    ensures { Pushed waiting_wide head.old head.new }
{
    let keep = head.len() - WAITING_WIDE;
    head.copy_within(..keep, WAITING_WIDE);
}

// A request that was sent: whose, its id, and its cost.
#[derive(Drop)]
pub struct Sent {
    pub guest: u64,
    pub id: u64,
    pub cost: u64,
}

// The name of the request at `place` stands last in flight.
fn join(waiting: &[u64], flight: &mut [u64], place: usize, flying: usize) -> Sent
    requires { (place * waiting_wide + waiting_wide ≤ length waiting.now) × (flying * flight_wide + flight_wide ≤ length flight.old) }
    ensures flight_after { flight.new ≡ joined place flying waiting.now flight.old }
    ensures named { Named place waiting.now result }
{
    let from = place * WAITING_WIDE;
    let end = flying * FLIGHT_WIDE;
    let guest = waiting[from + GUEST];
    let id = waiting[from + ID];
    let cost = waiting[from + COST];
    flight[end + GUEST] = guest;
    flight[end + ID] = id;
    Sent { guest, id, cost }
}

// The request at `place` goes to the array: its name to the end of flight, and the requests behind it move down one place. Its cost is read before
// they do.
pub fn send(
    waiting: &mut [u64],
    flight: &mut [u64],
    place: usize,
    count: usize,
    flying: usize,
) -> Sent
    requires { (place < count) × (count * waiting_wide ≤ length waiting.old) × (flying * flight_wide + flight_wide ≤ length flight.old) }
    ensures waiting_after { waiting.new ≡ gone place count waiting.old }
    ensures flight_after { flight.new ≡ joined place flying waiting.old flight.old }
    ensures named { Named place waiting.old result }
{
    let from = place * WAITING_WIDE;
    let used = count * WAITING_WIDE;
    let sent = join(waiting, flight, place, flying);
    close_rows(&mut waiting[from..used]);
    sent
}

// The request at `place` goes, as by `send`, but the rows before it close up to those behind: the table is then what stands a row further back.
pub fn slide(waiting: &mut [u64], flight: &mut [u64], place: usize, flying: usize) -> Sent
    requires { (place * waiting_wide + waiting_wide ≤ length waiting.old) × (flying * flight_wide + flight_wide ≤ length flight.old) }
    ensures by_index { (count : ℕ) → place < count → count * waiting_wide ≤ length waiting.old → Blank count waiting.old → closed waiting_wide waiting.new ≡ gone place count waiting.old }
    ensures flight_after { flight.new ≡ joined place flying waiting.old flight.old }
    ensures named { Named place waiting.old result }
{
    let end = place * WAITING_WIDE + WAITING_WIDE;
    let sent = join(waiting, flight, place, flying);
    open_up(&mut waiting[..end]);
    sent
}

// The request at `place` leaves flight, and those behind it move down one place.
pub fn take_out(flight: &mut [u64], place: usize, count: usize)
    requires { (place < count) × (count * flight_wide ≤ length flight.old) }
    ensures { flight.new ≡ freed place count flight.old }
{
    let from = place * FLIGHT_WIDE;
    let used = count * FLIGHT_WIDE;
    close_up(&mut flight[from..used], FLIGHT_WIDE);
}

// The first `upto` numbers become zero.
pub fn clear(xs: &mut [u64], upto: usize)
    requires { upto ≤ length xs.old }
    ensures { xs.new ≡ zeros xs.old upto }
{
    xs[..upto].fill(0);
}

// The events of a part of a trace, each judged and its line written.
ghost use Rattle.std.specs.Prelude.{◌≡◌, List, ℕ, ◌+◌, ◌*◌, ◌≤◌, ◌<◌, ◌^◌, length, drop};
ghost use Rattle.table.specs.Columns.{waiting_wide};
ghost use Rattle.table.specs.View.{Known};
ghost use Rattle.table.specs.Does.{Leaves};
ghost use Rattle.index.specs.Index.{Beside, stands, shifted, Snug};
ghost use Rattle.windows.specs.Window.{spare, Window};
ghost use Rattle.lines.specs.Line.{LINE};
ghost use Rattle.trace.specs.Event.{event_of};
ghost use Rattle.trace.specs.Printed.{answered};
ghost use Rattle.feed.specs.Promise.{Judged, FedBy};

use index::{INDEX_WIDE, MOST_WALKED};
use rules::{Answer, Event, Gate, Refusal};
use table::columns::WAITING_WIDE;
use table::gates;
use table::gates::Decision;
use windows::WINDOW_LONG;

// One event as it was read is entered into the tables and answered; a bad one is refused 14 and changes nothing. No line tells when to wake the gate,
// so nobody asks it.
fn judge(
    gate: Gate,
    guests: &mut [u64],
    waiting: &mut [u64],
    flight: &mut [u64],
    event: Option<Event>,
    index: &mut [u16],
) -> Decision
    requires known { Known gate guests.old waiting.old flight.old }
    requires beside { Beside waiting.old index.old gate.waiting × Snug gate waiting.old index.old }
    ensures leaves { Leaves (λ t. answered t event) gate guests.old waiting.old flight.old result guests.new (stands index.old result.answer waiting.new) flight.new }
    ensures known_2 { Known result.gate guests.new (stands index.old result.answer waiting.new) flight.new }
    ensures beside_2 { Beside (stands index.old result.answer waiting.new) index.new result.gate.waiting }
{
    match event {
        Some(good) => step::step(gate, guests, waiting, flight, good, index),
        None => gates::decided(gate, Answer::Refused(Refusal::BadEvent)),
    }
}

// The gate after an event, the place after its line, and how many rows further back the waiting table stands. The place goes with every
// turn, so it is no windows::After with a place beside it.
#[derive(Drop)]
pub struct After {
    pub gate: Gate,
    pub at: usize,
    pub gone: usize,
}

// The event whose bytes begin at `from`: it is judged, and its line written at `at`.
fn one(
    version: u64,
    bytes: &[u8],
    from: usize,
    number: u64,
    gate: Gate,
    guests: &mut [u64],
    waiting: &mut [u64],
    flight: &mut [u64],
    out: &mut [u8],
    at: usize,
    index: &mut [u16],
) -> After
    requires from_in_bounds { from + 14 ≤ length bytes.now }
    requires known { Known gate guests.old waiting.old flight.old }
    requires at_in_bounds { at + LINE ≤ length out.old }
    requires beside { Beside waiting.old index.old gate.waiting × Snug gate waiting.old index.old }
    ensures gone_bound { (result.gone ≤ 1) × (0 < result.gone → 0 < length index.old) }
    ensures judged { Judged (event_of version (drop from bytes.now)) number gate guests.old waiting.old flight.old result.gate guests.new (shifted result.gone waiting.new) flight.new at out.old result.at out.new }
    ensures beside_2 { Beside (shifted result.gone waiting.new) index.new result.gate.waiting }
{
    let event = items::read_event(version, &bytes[from..from + 14]);
    let judged = judge(gate, guests, waiting, flight, event, index);
    let gone = index::gone_on(judged.answer, &index[..]);
    let next = lines::put_line(out, at, number, judged.answer);
    After {
        gate: judged.gate,
        at: next,
        gone,
    }
}

// The event, on the table that stands in a window from row `start` on.
fn one_in(
    version: u64,
    bytes: &[u8],
    from: usize,
    number: u64,
    gate: Gate,
    guests: &mut [u64],
    window: &mut [u64],
    start: usize,
    size: usize,
    flight: &mut [u64],
    out: &mut [u8],
    at: usize,
    index: &mut [u16],
) -> After
    requires from_in_bounds { from + 14 ≤ length bytes.now }
    requires at_in_bounds { at + LINE ≤ length out.old }
    requires by_index { (ws : List ℕ) × Window size start window.old ws × Known gate guests.old ws flight.old × Beside ws index.old gate.waiting × Snug gate ws index.old }
    ensures gone_bound { (result.gone ≤ 1) × (0 < result.gone → 0 < length index.old) }
    ensures by_index_2 { (ws : List ℕ) → Window size start window.old ws → (vs : List ℕ) × Window size start window.new vs × Judged (event_of version (drop from bytes.now)) number gate guests.old ws flight.old result.gate guests.new (shifted result.gone vs) flight.new at out.old result.at out.new × Beside (shifted result.gone vs) index.new result.gate.waiting }
{
    let first = start * WAITING_WIDE;
    one(
        version,
        bytes,
        from,
        number,
        gate,
        guests,
        &mut window[first..first + size],
        flight,
        out,
        at,
        index,
    )
}

// The gate after a run of events, how many they were, and how many bytes of lines they gave.
#[derive(Drop)]
pub struct Fed {
    pub gate: Gate,
    pub events: usize,
    pub bytes: usize,
}

// The same, and where the table of the waiting requests stands in its window.
#[derive(Drop)]
pub struct FedIn {
    pub fed: Fed,
    pub start: usize,
}

// Judges as many whole events of the bytes of a trace of this version as `out` has room for, on the table that stands at the front of a window; with no index
// it stays there.
fn feed_in(
    version: u64,
    bytes: &[u8],
    number: u64,
    first: Gate,
    guests: &mut [u64],
    window: &mut [u64],
    size: usize,
    flight: &mut [u64],
    out: &mut [u8],
    index: &mut [u16],
) -> FedIn
    requires bytes_bound { number + length bytes.now < 2 ^ 64 }
    requires size_in_bounds { 0 < length index.old → spare * waiting_wide + size ≤ length window.old }
    requires by_index { (ws : List ℕ) × Window size 0 window.old ws × Known first guests.old ws flight.old × Beside ws index.old first.waiting × Snug first ws index.old }
    ensures { (ws : List ℕ) → Window size 0 window.old ws → (vs : List ℕ) × Window size result.start window.new vs × FedBy version bytes.now number first guests.old ws flight.old result.fed.gate guests.new vs flight.new out.old out.new result.fed.events result.fed.bytes }
{
    let n = (bytes.len() / 14).min(out.len() / 65);
    let mut gate = first;
    let mut start: usize = 0;
    let mut at: usize = 0;
    for i in 0..n {
        start = windows::settle(window, start, size);
        let after = one_in(
            version,
            bytes,
            i * 14,
            number + (i as u64) + 1,
            gate,
            guests,
            window,
            start,
            size,
            flight,
            out,
            at,
            index,
        );
        gate = after.gate;
        at = after.at;
        start += after.gone;
    }
    let fed = Fed {
        gate,
        events: n,
        bytes: at,
    };
    FedIn { fed, start }
}

// The same with no index, on the table as it is lent: so few wait that each event walks them.
fn feed_walked(
    version: u64,
    bytes: &[u8],
    number: u64,
    first: Gate,
    guests: &mut [u64],
    waiting: &mut [u64],
    flight: &mut [u64],
    out: &mut [u8],
) -> Fed
    requires known { Known first guests.old waiting.old flight.old }
    requires bytes_bound { number + length bytes.now < 2 ^ 64 }
    ensures { FedBy version bytes.now number first guests.old waiting.old flight.old result.gate guests.new waiting.new flight.new out.old out.new result.events result.bytes }
{
    let size = waiting.len();
    let made = feed_in(
        version,
        bytes,
        number,
        first,
        guests,
        waiting,
        size,
        flight,
        out,
        &mut [],
    );
    made.fed
}

// The same with an index, on a copy of the table in a window; one walk of the rows builds it for all events.
fn feed_beside(
    version: u64,
    bytes: &[u8],
    number: u64,
    first: Gate,
    guests: &mut [u64],
    waiting: &mut [u64],
    flight: &mut [u64],
    out: &mut [u8],
) -> Fed
    requires known { Known first guests.old waiting.old flight.old }
    requires bytes_bound { number + length bytes.now < 2 ^ 64 }
    ensures { FedBy version bytes.now number first guests.old waiting.old flight.old result.gate guests.new waiting.new flight.new out.old out.new result.events result.bytes }
{
    let size = first.setup.capacity as usize * WAITING_WIDE;
    let rows = first.waiting as usize;
    let mut window = [0u64; WINDOW_LONG];
    let mut index = [0u16; INDEX_WIDE];
    windows::open(waiting, size, rows, &mut window, &mut index);
    let made = feed_in(
        version,
        bytes,
        number,
        first,
        guests,
        &mut window,
        size,
        flight,
        out,
        &mut index,
    );
    windows::close(&window, made.start, size, waiting);
    made.fed
}

// Judges as many whole events of the bytes of a trace of this version as `out` has room for, the first of which has the number after `number`: with an index
// of the waiting rows, unless so few wait that they are as well walked.
pub fn feed(
    version: u64,
    bytes: &[u8],
    number: u64,
    first: Gate,
    guests: &mut [u64],
    waiting: &mut [u64],
    flight: &mut [u64],
    out: &mut [u8],
) -> Fed
    requires known { Known first guests.old waiting.old flight.old }
    requires bytes_bound { number + length bytes.now < 2 ^ 64 }
    ensures { FedBy version bytes.now number first guests.old waiting.old flight.old result.gate guests.new waiting.new flight.new out.old out.new result.events result.bytes }
{
    if first.waiting as usize <= MOST_WALKED {
        return feed_walked(version, bytes, number, first, guests, waiting, flight, out);
    }
    feed_beside(version, bytes, number, first, guests, waiting, flight, out)
}

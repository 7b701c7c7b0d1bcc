// The events turn the page, a buffer at a turn, until no more bytes come; then the sheet is written. Functions for this repository's own crates.
#![tactic(auto)]

ghost use Rattle.std.specs.Prelude.{◌≡◌, true, false, List, ℕ, ◌+◌, ◌*◌, ◌^◌, ◌≤◌, ◌<◌, length, take, drop};
ghost use Rattle.table.specs.Columns.{waiting_wide};
ghost use Rattle.index.specs.Index.{Beside, shifted, Snug};
ghost use Rattle.windows.specs.Window.{spare, Window};
ghost use Rattle.trace.specs.Event.{event_of, events_of, whole};
ghost use Rattle.tally.specs.Kept.{page_of};
ghost use Rattle.pages.specs.Sheet.{read, page_after, onward};
ghost use Rattle.pages.specs.Standing.{Listed, stand_of, Firm, Standing, Closes};

use buffers::{BUFFER_LONG, TURNS};
use index::{INDEX_WIDE, MOST_WALKED};
use pages::output::last;
use pages::put_guests;
use port::{Moved, Streams};
use rules::Gate;
use stream::End;
use table::columns::WAITING_WIDE;
use windows::{After, Ended, WINDOW_LONG};

pub mod ledger; // what a sheet is made from

// The event whose bytes begin at `from` turns the page; a bad one is passed over.
fn one(
    version: u64,
    bytes: &[u8],
    from: usize,
    number: u64,
    gate: Gate,
    guests: &mut [u64],
    waiting: &mut [u64],
    flight: &mut [u64],
    book: &mut [u64],
    figures: &mut [u64],
    index: &mut [u16],
) -> After
    requires from_in_bounds { (from + 14 ≤ length bytes.now) × (number + 1 < 2 ^ 64) }
    requires firm { Firm number gate guests.old waiting.old flight.old book.old figures.old }
    requires beside { Beside waiting.old index.old gate.waiting × Snug gate waiting.old index.old }
    ensures gone_bound { (result.gone ≤ 1) × (0 < result.gone → 0 < length index.old) }
    ensures figures_after { page_of result.gate guests.new (shifted result.gone waiting.new) flight.new book.new figures.new ≡ read (page_of gate guests.old waiting.old flight.old book.old figures.old) (event_of version (drop from bytes.now)) }
    ensures firm_2 { Firm (number + 1) result.gate guests.new (shifted result.gone waiting.new) flight.new book.new figures.new }
    ensures beside_2 { Beside (shifted result.gone waiting.new) index.new result.gate.waiting }
{
    let event = items::read_event(version, &bytes[from..from + 14]);
    match event {
        Some(good) => booked::turn(
            number, gate, guests, waiting, flight, book, figures, good, index,
        ),
        None => After { gate, gone: 0 },
    }
}

// The event, on the table that stands in a window from row `start` on.
fn one_in(
    version: u64,
    bytes: &[u8],
    from: usize,
    number: u64,
    gate: Gate,
    guests: &mut [u64],
    window: &mut [u64],
    start: usize,
    size: usize,
    flight: &mut [u64],
    book: &mut [u64],
    figures: &mut [u64],
    index: &mut [u16],
) -> After
    requires from_in_bounds { (from + 14 ≤ length bytes.now) × (number + 1 < 2 ^ 64) }
    requires by_index { (ws : List ℕ) × Window size start window.old ws × Firm number gate guests.old ws flight.old book.old figures.old × Beside ws index.old gate.waiting × Snug gate ws index.old }
    ensures gone_bound { (result.gone ≤ 1) × (0 < result.gone → 0 < length index.old) }
    ensures by_index_2 { (ws : List ℕ) → Window size start window.old ws → (vs : List ℕ) × Window size start window.new vs × (page_of result.gate guests.new (shifted result.gone vs) flight.new book.new figures.new ≡ read (page_of gate guests.old ws flight.old book.old figures.old) (event_of version (drop from bytes.now))) × Firm (number + 1) result.gate guests.new (shifted result.gone vs) flight.new book.new figures.new × Beside (shifted result.gone vs) index.new result.gate.waiting }
{
    let first = start * WAITING_WIDE;
    one(
        version,
        bytes,
        from,
        number,
        gate,
        guests,
        &mut window[first..first + size],
        flight,
        book,
        figures,
        index,
    )
}

// All whole events of the bytes turn the page, on the waiting table that stands at the front of a window; with no index it stays there.
fn turn_in(
    version: u64,
    bytes: &[u8],
    number: u64,
    first: Gate,
    guests: &mut [u64],
    window: &mut [u64],
    size: usize,
    flight: &mut [u64],
    book: &mut [u64],
    figures: &mut [u64],
    index: &mut [u16],
) -> Ended
    requires bytes_bound { number + length bytes.now < 2 ^ 64 }
    requires size_in_bounds { 0 < length index.old → spare * waiting_wide + size ≤ length window.old }
    requires by_index { (ws : List ℕ) × Window size 0 window.old ws × Firm number first guests.old ws flight.old book.old figures.old × Beside ws index.old first.waiting × Snug first ws index.old }
    ensures { (ws : List ℕ) → Window size 0 window.old ws → (vs : List ℕ) × Window size result.start window.new vs × (page_of result.gate guests.new vs flight.new book.new figures.new ≡ page_after (page_of first guests.old ws flight.old book.old figures.old) (events_of version (whole bytes.now) bytes.now)) × Firm (number + whole bytes.now) result.gate guests.new vs flight.new book.new figures.new }
{
    let n = bytes.len() / 14;
    let mut gate = first;
    let mut start: usize = 0;
    for i in 0..n {
        start = windows::settle(window, start, size);
        let after = one_in(
            version,
            bytes,
            i * 14,
            number + (i as u64),
            gate,
            guests,
            window,
            start,
            size,
            flight,
            book,
            figures,
            index,
        );
        gate = after.gate;
        start += after.gone;
    }
    Ended { gate, start }
}

// All whole events of the bytes turn the page, on the waiting table as it is lent: so few wait that each event walks them.
fn turn_walked(
    version: u64,
    bytes: &[u8],
    number: u64,
    first: Gate,
    guests: &mut [u64],
    waiting: &mut [u64],
    flight: &mut [u64],
    book: &mut [u64],
    figures: &mut [u64],
) -> Gate
    requires bytes_bound { number + length bytes.now < 2 ^ 64 }
    requires firm { Firm number first guests.old waiting.old flight.old book.old figures.old }
    ensures figures_after { page_of result guests.new waiting.new flight.new book.new figures.new ≡ page_after (page_of first guests.old waiting.old flight.old book.old figures.old) (events_of version (whole bytes.now) bytes.now) }
    ensures firm_2 { Firm (number + whole bytes.now) result guests.new waiting.new flight.new book.new figures.new }
{
    let size = waiting.len();
    let turned = turn_in(
        version,
        bytes,
        number,
        first,
        guests,
        waiting,
        size,
        flight,
        book,
        figures,
        &mut [],
    );
    turned.gate
}

// All whole events of the bytes turn the page, on a copy of the waiting table in a window; one walk builds the index of its rows for all of them.
fn turn_beside(
    version: u64,
    bytes: &[u8],
    number: u64,
    first: Gate,
    guests: &mut [u64],
    waiting: &mut [u64],
    flight: &mut [u64],
    book: &mut [u64],
    figures: &mut [u64],
) -> Gate
    requires bytes_bound { number + length bytes.now < 2 ^ 64 }
    requires firm { Firm number first guests.old waiting.old flight.old book.old figures.old }
    ensures figures_after { page_of result guests.new waiting.new flight.new book.new figures.new ≡ page_after (page_of first guests.old waiting.old flight.old book.old figures.old) (events_of version (whole bytes.now) bytes.now) }
    ensures firm_2 { Firm (number + whole bytes.now) result guests.new waiting.new flight.new book.new figures.new }
{
    let size = first.setup.capacity as usize * WAITING_WIDE;
    let rows = first.waiting as usize;
    let mut window = [0u64; WINDOW_LONG];
    let mut index = [0u16; INDEX_WIDE];
    windows::open(waiting, size, rows, &mut window, &mut index);
    let turned = turn_in(
        version,
        bytes,
        number,
        first,
        guests,
        &mut window,
        size,
        flight,
        book,
        figures,
        &mut index,
    );
    windows::close(&window, turned.start, size, waiting);
    turned.gate
}

// All whole events of the bytes turn the page: with an index of the waiting rows, unless so few wait that they are as well walked.
fn turn_all(
    version: u64,
    bytes: &[u8],
    number: u64,
    first: Gate,
    guests: &mut [u64],
    waiting: &mut [u64],
    flight: &mut [u64],
    book: &mut [u64],
    figures: &mut [u64],
) -> Gate
    requires bytes_bound { number + length bytes.now < 2 ^ 64 }
    requires firm { Firm number first guests.old waiting.old flight.old book.old figures.old }
    ensures figures_after { page_of result guests.new waiting.new flight.new book.new figures.new ≡ page_after (page_of first guests.old waiting.old flight.old book.old figures.old) (events_of version (whole bytes.now) bytes.now) }
    ensures firm_2 { Firm (number + whole bytes.now) result guests.new waiting.new flight.new book.new figures.new }
{
    if first.waiting as usize <= MOST_WALKED {
        return turn_walked(
            version, bytes, number, first, guests, waiting, flight, book, figures,
        );
    }
    turn_beside(
        version, bytes, number, first, guests, waiting, flight, book, figures,
    )
}

// The gate after a turn, how many bytes are left at the front, and how many events there were so far.
#[derive(Drop)]
pub struct Turn {
    pub gate: Gate,
    pub rest: usize,
    pub number: u64,
}

// All whole events of the first `have` bytes turn the page; what is left of the bytes moves to the front.
fn take_in(
    version: u64,
    buffer: &mut [u8; BUFFER_LONG],
    have: usize,
    number: u64,
    gate: Gate,
    guests: &mut [u64],
    waiting: &mut [u64],
    flight: &mut [u64],
    book: &mut [u64],
    figures: &mut [u64],
) -> Turn
    requires have_in_bounds { (have ≤ 4096) × (number + have < 2 ^ 64) }
    requires firm { Firm number gate guests.old waiting.old flight.old book.old figures.old }
    ensures figures_after { stand_of version (take result.rest buffer.new) result.gate guests.new waiting.new flight.new book.new figures.new ≡ onward (stand_of version (take have buffer.old) gate guests.old waiting.old flight.old book.old figures.old) }
    ensures firm_2 { Firm result.number result.gate guests.new waiting.new flight.new book.new figures.new }
    ensures rest_bound { (result.rest < 14) × (result.number ≤ number + have) }
{
    let after = turn_all(
        version,
        &buffer[..have],
        number,
        gate,
        guests,
        waiting,
        flight,
        book,
        figures,
    );
    let events = have / 14;
    buffer.copy_within(events * 14..have, 0);
    Turn {
        gate: after,
        rest: have - events * 14,
        number: number + events as u64,
    }
}

// Writes the lines of the first `known` guests.
fn finish(known: u64, figures: &[u64], streams: &mut Streams, log: &mut u64) -> End
    requires { Closes log.old known figures.now }
    ensures { Listed result log.new }
{
    let mut out = [0u8; 20480];
    let n = put_guests(&mut out, known as usize, figures);
    last(&out, n, streams, log)
}

// Turns the page by the events of an input that has ended, and writes the sheet.
fn close(
    version: u64,
    buffer: &mut [u8; BUFFER_LONG],
    have: usize,
    opened: Gate,
    guests: &mut [u64],
    waiting: &mut [u64],
    flight: &mut [u64],
    book: &mut [u64],
    figures: &mut [u64],
    streams: &mut Streams,
    log: &mut u64,
) -> End
    requires have_in_bounds { have ≤ 4096 }
    requires firm { Firm 0 opened guests.old waiting.old flight.old book.old figures.old }
    requires standing { Standing true log.old (stand_of version (take have buffer.old) opened guests.old waiting.old flight.old book.old figures.old) }
    ensures { Listed result log.new }
{
    let turn = take_in(
        version, buffer, have, 0, opened, guests, waiting, flight, book, figures,
    );
    finish(turn.gate.guests, figures, streams, log)
}

// Turns the page by the events of an input that may go on, until no more bytes come, and writes the sheet.
fn pump(
    version: u64,
    buffer: &mut [u8; BUFFER_LONG],
    first: usize,
    opened: Gate,
    guests: &mut [u64],
    waiting: &mut [u64],
    flight: &mut [u64],
    book: &mut [u64],
    figures: &mut [u64],
    streams: &mut Streams,
    log: &mut u64,
) -> End
    requires first_in_bounds { first ≤ 4096 }
    requires firm { Firm 0 opened guests.old waiting.old flight.old book.old figures.old }
    requires standing { Standing false log.old (stand_of version (take first buffer.old) opened guests.old waiting.old flight.old book.old figures.old) }
    ensures { Listed result log.new }
{
    let mut gate = opened;
    let mut have = first;
    let mut done: u64 = 0;
    for _turn in 0..TURNS {
        let turn = take_in(
            version, buffer, have, done, gate, guests, waiting, flight, book, figures,
        );
        gate = turn.gate;
        done = turn.number;
        have = turn.rest;
        match stream::refill(buffer, have, streams, log) {
            Moved::Bytes(more) => have += more,
            Moved::Nothing => return finish(gate.guests, figures, streams, log),
            Moved::Failed => return End::Unread,
        }
    }
    End::Unended
}

// Turns the page by the events of an input that has ended or may go on, until no more bytes come, and writes the sheet.
pub fn run(
    ended: bool,
    version: u64,
    buffer: &mut [u8; BUFFER_LONG],
    first: usize,
    opened: Gate,
    guests: &mut [u64],
    waiting: &mut [u64],
    flight: &mut [u64],
    book: &mut [u64],
    figures: &mut [u64],
    streams: &mut Streams,
    log: &mut u64,
) -> End
    requires first_in_bounds { first ≤ 4096 }
    requires firm { Firm 0 opened guests.old waiting.old flight.old book.old figures.old }
    requires standing { Standing ended log.old (stand_of version (take first buffer.old) opened guests.old waiting.old flight.old book.old figures.old) }
    ensures { Listed result log.new }
{
    if ended {
        return close(
            version, buffer, first, opened, guests, waiting, flight, book, figures, streams, log,
        );
    }
    pump(
        version, buffer, first, opened, guests, waiting, flight, book, figures, streams, log,
    )
}

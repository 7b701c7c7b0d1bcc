// Reads a trace from standard input and prints its sheet: a line for each guest. `main` makes the arrays. Each function is told by the count `log`
// what was read before it, and promises what was after it: crates/pages/specs/Standing.antt. It reads and writes by `stream` alone, and writes at the end.
#![tactic(auto)]

ghost use Rattle.std.specs.Prelude.{◌≡◌, ◌≤◌, take, Ok};
ghost use Rattle.lines.specs.Line.{refusal_line};
ghost use Rattle.port.specs.Tape.{Holds, blank};
ghost use Rattle.trace.specs.Header.{header_of};
ghost use Rattle.stream.specs.Outcome.{Last, First};
ghost use Rattle.pages.specs.Sheet.{sheet_of};
ghost use Rattle.pages.specs.Standing.{Listed};

use buffers::BUFFER_LONG;
use headers::read_header;
use port::Streams;
use rolls::ledger::Ledger;
use rules::Refusal;
use stream::{End, ReadFailed};
use table::columns::SETTINGS_LONG;
use trace::Opened;

// Makes the arrays, each for the largest settings, runs the trace on them, and says on standard error where a read or a write failed.
fn main(rt: HostRuntime) {
    let mut buffer = [0u8; BUFFER_LONG];
    let mut ledger = Ledger::new();
    let mut streams = port::open(rt);
    let mut log = port::start();
    let end = run(&mut buffer, &mut ledger, &mut streams, &mut log);
    stream::report(b"sheet", end, &streams);
}

// Reads the first bytes, which hold the whole header or all of a shorter input, and goes on with them.
fn run(
    buffer: &mut [u8; BUFFER_LONG],
    ledger: &mut Ledger,
    streams: &mut Streams,
    log: &mut u64,
) -> End
    requires { Holds log.old blank }
    ensures { Listed result log.new }
{
    match stream::fill(buffer, streams, log) {
        Ok(have) => judge(buffer, have, ledger, streams, log),
        Err(ReadFailed) => End::Unread,
    }
}

// Goes on by what the header is.
fn judge(
    buffer: &mut [u8; BUFFER_LONG],
    have: usize,
    ledger: &mut Ledger,
    streams: &mut Streams,
    log: &mut u64,
) -> End
    requires have_in_bounds { have ≤ 4096 }
    requires first { First log.old (take have buffer.old) }
    ensures { Listed result log.new }
{
    match read_header(&buffer[..have]) {
        Err(refusal) => refuse(refusal, streams, log),
        Ok(opened) => follow(buffer, have, opened, ledger, streams, log),
    }
}

// Writes the one line of a bad header.
fn refuse(refusal: Refusal, streams: &mut Streams, log: &mut u64) -> End
    requires { Last sheet_of log.old (refusal_line refusal) }
    ensures { Listed result log.new }
{
    let mut out = [0u8; 65];
    let n = lines::put_refusal(&mut out, 0, refusal);
    pages::output::last(&out, n, streams, log)
}

// A good header: opens the tables, clears the figures, and goes on with the events. A buffer that is not full holds all of the input.
fn follow(
    buffer: &mut [u8; BUFFER_LONG],
    have: usize,
    opened: Opened,
    ledger: &mut Ledger,
    streams: &mut Streams,
    log: &mut u64,
) -> End
    requires have_in_bounds { have ≤ 4096 }
    requires buffer_value { header_of (take have buffer.old) ≡ Ok opened }
    requires first { First log.old (take have buffer.old) }
    ensures { Listed result log.new }
{
    let mut settings = [0u64; SETTINGS_LONG];
    let begun = begin::begin(
        buffer,
        have,
        opened,
        &mut settings,
        &mut ledger.tables.guests,
        &mut ledger.tables.waiting,
        &mut ledger.tables.flight,
    );
    ledger.tables.gate = begun.gate;
    ledger.figures.fill(0);
    let ended = have < BUFFER_LONG;
    rolls::run(
        ended,
        opened.version,
        buffer,
        begun.rest,
        ledger.tables.gate,
        &mut ledger.tables.guests,
        &mut ledger.tables.waiting,
        &mut ledger.tables.flight,
        &mut ledger.book,
        &mut ledger.figures,
        streams,
        log,
    )
}

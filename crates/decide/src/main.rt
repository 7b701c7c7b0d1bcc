// Reads a trace from standard input and prints what each of its events is answered. `main` makes the arrays. Each function is told by the count
// `log` what was read and written before it, and promises what was after it: crates/prints/specs/Standing.antt. It reads and writes by `stream` alone.
#![tactic(auto)]

ghost use Rattle.std.specs.Prelude.{◌≡◌, ◌≤◌, take, Ok};
ghost use Rattle.lines.specs.Line.{refusal_line};
ghost use Rattle.port.specs.Tape.{Holds, blank};
ghost use Rattle.trace.specs.Header.{header_of};
ghost use Rattle.trace.specs.Printed.{printed};
ghost use Rattle.stream.specs.Outcome.{Last, First};
ghost use Rattle.prints.specs.Standing.{Decided};

use buffers::{BUFFER_LONG, LINES_LONG};
use headers::read_header;
use port::Streams;
use rules::Refusal;
use stream::{End, ReadFailed};
use table::columns::SETTINGS_LONG;
use tables::Tables;
use trace::Opened;

// Makes the arrays, each for the largest settings, runs the trace on them, and says on standard error where a read or a write failed.
fn main(rt: HostRuntime) {
    let mut buffer = [0u8; BUFFER_LONG];
    let mut tables = Tables::new();
    let mut out = [0u8; LINES_LONG];
    let mut streams = port::open(rt);
    let mut log = port::start();
    let end = run(&mut buffer, &mut tables, &mut out, &mut streams, &mut log);
    stream::report(b"decide", end, &streams);
}

// Reads the first bytes, which hold the whole header or all of a shorter input, and goes on with them.
fn run(
    buffer: &mut [u8; BUFFER_LONG],
    tables: &mut Tables,
    out: &mut [u8; LINES_LONG],
    streams: &mut Streams,
    log: &mut u64,
) -> End
    requires { Holds log.old blank }
    ensures { Decided result log.new }
{
    match stream::fill(buffer, streams, log) {
        Ok(have) => judge(buffer, have, tables, out, streams, log),
        Err(ReadFailed) => End::Unread,
    }
}

// Goes on by what the header is.
fn judge(
    buffer: &mut [u8; BUFFER_LONG],
    have: usize,
    tables: &mut Tables,
    out: &mut [u8; LINES_LONG],
    streams: &mut Streams,
    log: &mut u64,
) -> End
    requires have_in_bounds { have ≤ 4096 }
    requires first { First log.old (take have buffer.old) }
    ensures { Decided result log.new }
{
    match read_header(&buffer[..have]) {
        Err(refusal) => refuse(out, refusal, streams, log),
        Ok(opened) => follow(buffer, have, opened, tables, out, streams, log),
    }
}

// Writes the one line of a bad header.
fn refuse(out: &mut [u8; LINES_LONG], refusal: Refusal, streams: &mut Streams, log: &mut u64) -> End
    requires { Last printed log.old (refusal_line refusal) }
    ensures { Decided result log.new }
{
    let n = lines::put_refusal(out, 0, refusal);
    stream::finish(&out[..n], streams, log)
}

// A good header: opens the tables, writes the header line, and goes on with the events. A buffer that is not full holds all of the input.
fn follow(
    buffer: &mut [u8; BUFFER_LONG],
    have: usize,
    opened: Opened,
    tables: &mut Tables,
    out: &mut [u8; LINES_LONG],
    streams: &mut Streams,
    log: &mut u64,
) -> End
    requires have_in_bounds { have ≤ 4096 }
    requires buffer_value { header_of (take have buffer.old) ≡ Ok opened }
    requires first { First log.old (take have buffer.old) }
    ensures { Decided result log.new }
{
    let mut settings = [0u64; SETTINGS_LONG];
    let begun = begin::begin(
        buffer,
        have,
        opened,
        &mut settings,
        &mut tables.guests,
        &mut tables.waiting,
        &mut tables.flight,
    );
    tables.gate = begun.gate;
    if !prints::output::title(out, streams, log) {
        return End::Unwritten;
    }
    let ended = have < BUFFER_LONG;
    pumps::run(
        ended,
        opened.version,
        buffer,
        begun.rest,
        tables.gate,
        &mut tables.guests,
        &mut tables.waiting,
        &mut tables.flight,
        out,
        streams,
        log,
    )
}

// The calls of std by which a program reads and writes. That `get` reads and `put` writes is seen here: each is one call, made again only where a
// signal cut it short, and the count of the tape moves on by what it answered. All that stands above has the tape from these promises alone.
#![tactic(auto)]

ghost use Rattle.std.specs.Prelude.{◌≡◌, ◌<◌, length, IsNone, IfSome};
ghost use Rattle.tape.specs.Tape.{blank, Holds};
ghost use Rattle.port.specs.Moves.{Goes, brought, took, Within, Answers, Counts};

use std::io::{Error, ErrorKind, Print, Read, Write};
use std::{fmt, io};

mod line; // a line on standard error, in memory of its own

use line::{LONGEST, Line};

// More tries than any run uses up: nothing says that signals end.
const TRIES: u64 = 1 << 48;

// What a call did: it moved bytes, it moved none, or it failed. No Result of a number, in which 0 would stand for the end.
#[derive(Drop)]
pub enum Moved {
    Bytes(usize),
    Nothing,
    Failed,
}

// Standard input, output and error, as `main` was given them, and the number of the error of the last call that failed.
#[derive(Drop)]
pub struct Streams {
    rt: HostRuntime,
    error: i32,
}

// The streams, before any call.
pub fn open(rt: HostRuntime) -> Streams {
    Streams { rt, error: 0 }
}

// The count of a tape on which nothing is yet.
pub fn start() -> u64
    ensures { Holds result blank }
{
    0
}

// Reads from standard input to the front of the buffer.
pub fn get(buffer: &mut [u8], streams: &mut Streams, log: &mut u64) -> Moved
    requires { 0 < length buffer.old }
    ensures goes { Goes (brought result buffer.new) log.old log.new }
    ensures within { Within result (length buffer.old) }
{
    for _ in 0..TRIES {
        let came = streams.rt.stdin().read(buffer);
        if let Some(moved) = outcome(came, streams, log) {
            return moved;
        }
    }
    Moved::Failed
}

// Writes the first of the bytes to standard output.
pub fn put(bytes: &[u8], streams: &mut Streams, log: &mut u64) -> Moved
    ensures goes { Goes (took result bytes.now) log.old log.new }
    ensures within { Within result (length bytes.now) }
{
    for _ in 0..TRIES {
        let went = streams.rt.stdout().write(bytes);
        if let Some(moved) = outcome(went, streams, log) {
            return moved;
        }
    }
    Moved::Failed
}

// What a call did, by what it answered, and the count moves on by the bytes; none where a signal cut the call short, so that it is to be made again.
fn outcome(answer: io::Result<usize>, streams: &mut Streams, log: &mut u64) -> Option<Moved>
    ensures again { IsNone result → log.new ≡ log.old }
    ensures moved { IfSome result (λ moved. Answers moved answer × Counts moved log.old log.new) }
{
    match answer {
        Ok(0) => Some(Moved::Nothing),
        Ok(count) => {
            *log = log.wrapping_add(count as u64);
            Some(Moved::Bytes(count))
        }
        Err(error) => {
            streams.error = error.raw_os_error().unwrap_or(0);
            if error.kind() == ErrorKind::Interrupted {
                None
            } else {
                Some(Moved::Failed)
            }
        }
    }
}

// Says on standard error what this program could not do, and why the last call failed: a colon and the error's text, without the number that std puts
// behind it.
pub fn complain(program: &[u8], what: &[u8], streams: &Streams) {
    let mut line = Line {
        bytes: [0; LONGEST],
        len: 0,
    };
    line.put(program);
    line.put(b": ");
    line.put(what);
    line.put(b": ");
    let _told = fmt::Write::write(&mut line, Error::from_raw_os_error(streams.error));
    line.cut_number();
    line.end();
    let _said = Print::write_all(&streams.rt.stderr(), line.shown());
}

// One turn of the program `decide`: all whole events of the bytes that are there are judged and their lines written, then more bytes are read or the program
// ends. Functions for this repository's own crates.
#![tactic(auto)]

ghost use Rattle.std.specs.Prelude.{◌≡◌, ◌+◌, ◌^◌, ◌≤◌, ◌<◌, length, take, drop};
ghost use Rattle.table.specs.View.{Known};
ghost use Rattle.trace.specs.Printed.{lines, cut, printed};
ghost use Rattle.feed.specs.Promise.{place_of};
ghost use Rattle.stream.specs.Outcome.{Next, Last};
ghost use Rattle.prints.specs.Standing.{Decided, Went, Rests, Follows};

use crate::output::emit;
use buffers::{BUFFER_LONG, LINES_LONG, put_cut, take_in};
use port::{Moved, Streams};
use rules::Gate;
use std::ops::ControlFlow;
use stream::End;

pub mod output; // lines are handed on to be written

// The gate after a turn, how many bytes are left at the front, the number of the last event, and whether all lines were written.
#[derive(Drop)]
pub struct Stand {
    pub gate: Gate,
    pub rest: usize,
    pub number: u64,
    pub written: bool,
}

// Judges all whole events of the first `have` bytes and writes their lines; what is left of the bytes moves to the front.
pub fn turn(
    version: u64,
    buffer: &mut [u8; BUFFER_LONG],
    have: usize,
    number: u64,
    gate: Gate,
    guests: &mut [u64],
    waiting: &mut [u64],
    flight: &mut [u64],
    out: &mut [u8; LINES_LONG],
    streams: &mut Streams,
    log: &mut u64,
) -> Stand
    requires have_in_bounds { (have ≤ 4096) × (number + have < 2 ^ 64) }
    requires known { Known gate guests.old waiting.old flight.old }
    requires next { Next printed log.old (lines (place_of version (take have buffer.old) number gate guests.old waiting.old flight.old)) }
    ensures went { Went result.written (place_of version (take have buffer.old) number gate guests.old waiting.old flight.old) (place_of version (take result.rest buffer.new) result.number result.gate guests.new waiting.new flight.new) log.old log.new }
    ensures known_2 { Known result.gate guests.new waiting.new flight.new }
    ensures rest_bound { (result.rest < 14) × (result.rest ≤ length buffer.new) }
{
    let taken = take_in(
        version, buffer, have, number, gate, guests, waiting, flight, out,
    );
    let written = emit(out, taken.bytes, streams, log);
    Stand {
        gate: taken.gate,
        rest: taken.rest,
        number: taken.number,
        written,
    }
}

// Reads on behind the bytes that are left of a cut event, so many bytes more, or ends where no more come.
pub fn read_on(
    buffer: &mut [u8; BUFFER_LONG],
    have: usize,
    number: u64,
    out: &mut [u8; LINES_LONG],
    streams: &mut Streams,
    log: &mut u64,
) -> ControlFlow<End, usize>
    requires have_bound { (have < 14) × (number + 1 < 2 ^ 64) }
    requires rests { Rests log.old number (take have buffer.old) }
    ensures follows { Follows result (drop have buffer.new) log.old log.new }
    ensures buffer_unchanged { take have buffer.new ≡ take have buffer.old }
{
    match stream::refill(buffer, have, streams, log) {
        Moved::Bytes(more) => ControlFlow::Continue(more),
        Moved::Nothing => { ControlFlow::Break(finish(&buffer[..have], number, out, streams, log)) }
        Moved::Failed => ControlFlow::Break(End::Unread),
    }
}

// Writes the line of an event that is cut short, where bytes of one are left.
pub fn finish(
    left: &[u8],
    number: u64,
    out: &mut [u8; LINES_LONG],
    streams: &mut Streams,
    log: &mut u64,
) -> End
    requires number_bound { number + 1 < 2 ^ 64 }
    requires last { Last printed log.old (cut number left.now) }
    ensures { Decided result log.new }
{
    let n = put_cut(left, number, out);
    stream::finish(&out[..n], streams, log)
}

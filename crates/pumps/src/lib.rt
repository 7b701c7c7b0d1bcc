// The events are judged and their lines written, a buffer at a turn, until no more bytes come. Functions for this repository's own crates.
#![tactic(auto)]

ghost use Rattle.std.specs.Prelude.{true, false, ◌≤◌, take};
ghost use Rattle.table.specs.View.{Known};
ghost use Rattle.feed.specs.Promise.{place_of};
ghost use Rattle.prints.specs.Standing.{Decided, Standing};

use buffers::{BUFFER_LONG, LINES_LONG, TURNS};
use port::Streams;
use prints::{finish, read_on, turn};
use rules::Gate;
use std::ops::ControlFlow;
use stream::End;

// Judges the events of an input that has ended.
fn close(
    version: u64,
    buffer: &mut [u8; BUFFER_LONG],
    have: usize,
    opened: Gate,
    guests: &mut [u64],
    waiting: &mut [u64],
    flight: &mut [u64],
    out: &mut [u8; LINES_LONG],
    streams: &mut Streams,
    log: &mut u64,
) -> End
    requires have_in_bounds { have ≤ 4096 }
    requires known { Known opened guests.old waiting.old flight.old }
    requires standing { Standing true log.old (place_of version (take have buffer.old) 0 opened guests.old waiting.old flight.old) }
    ensures { Decided result log.new }
{
    let stand = turn(
        version, buffer, have, 0, opened, guests, waiting, flight, out, streams, log,
    );
    if stand.written {
        finish(&buffer[..stand.rest], stand.number, out, streams, log)
    } else {
        End::Unwritten
    }
}

// Judges the events of an input that may go on, until no more bytes come.
fn pump(
    version: u64,
    buffer: &mut [u8; BUFFER_LONG],
    first: usize,
    opened: Gate,
    guests: &mut [u64],
    waiting: &mut [u64],
    flight: &mut [u64],
    out: &mut [u8; LINES_LONG],
    streams: &mut Streams,
    log: &mut u64,
) -> End
    requires first_in_bounds { first ≤ 4096 }
    requires known { Known opened guests.old waiting.old flight.old }
    requires standing { Standing false log.old (place_of version (take first buffer.old) 0 opened guests.old waiting.old flight.old) }
    ensures { Decided result log.new }
{
    let mut gate = opened;
    let mut have = first;
    let mut done: u64 = 0;
    for _turn in 0..TURNS {
        let stand = turn(
            version, buffer, have, done, gate, guests, waiting, flight, out, streams, log,
        );
        if !stand.written {
            return End::Unwritten;
        }
        gate = stand.gate;
        done = stand.number;
        have = stand.rest;
        match read_on(buffer, have, done, out, streams, log) {
            ControlFlow::Continue(more) => have += more,
            ControlFlow::Break(end) => return end,
        }
    }
    End::Unended
}

// Judges the events of an input that has ended or may go on, until no more bytes come.
pub fn run(
    ended: bool,
    version: u64,
    buffer: &mut [u8; BUFFER_LONG],
    first: usize,
    opened: Gate,
    guests: &mut [u64],
    waiting: &mut [u64],
    flight: &mut [u64],
    out: &mut [u8; LINES_LONG],
    streams: &mut Streams,
    log: &mut u64,
) -> End
    requires first_in_bounds { first ≤ 4096 }
    requires known { Known opened guests.old waiting.old flight.old }
    requires standing { Standing ended log.old (place_of version (take first buffer.old) 0 opened guests.old waiting.old flight.old) }
    ensures { Decided result log.new }
{
    if ended {
        return close(
            version, buffer, first, opened, guests, waiting, flight, out, streams, log,
        );
    }
    pump(
        version, buffer, first, opened, guests, waiting, flight, out, streams, log,
    )
}

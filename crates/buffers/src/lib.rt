// The bytes that were read: their whole events are taken in, and what is left of a cut one moves to the front, for the next read to go on from.
// Functions for this repository's own crates.
#![tactic(auto)]

ghost use Rattle.std.specs.Prelude.{◌≡◌, ◌+◌, ◌*◌, ◌≤◌, ◌<◌, ◌^◌, length, take};
ghost use Rattle.table.specs.View.{Known};
ghost use Rattle.lines.specs.Line.{LINE};
ghost use Rattle.lines.specs.Put.{Put};
ghost use Rattle.trace.specs.Printed.{cut};
ghost use Rattle.feed.specs.Promise.{Turned};

use feed::events::feed;
use rules::{Answer, Gate, Refusal};

// The bytes of the buffer that is read into.
pub const BUFFER_LONG: usize = 4096;

// The bytes of the lines of all its events: a line has at most 65 for the 14 of its event.
pub const LINES_LONG: usize = 5 * BUFFER_LONG;

// More turns of a buffer than any run uses up, 2^48: nothing says that an input ends.
pub const TURNS: u64 = 1 << 48;

// The gate after a turn, how many bytes are left at the front, the number of the last event, and how many bytes of lines there are.
#[derive(Drop)]
pub struct Turn {
    pub gate: Gate,
    pub rest: usize,
    pub number: u64,
    pub bytes: usize,
}

// Judges all whole events of the first `have` bytes of a trace of this version; what is left of the bytes moves to the front.
pub fn take_in(
    version: u64,
    buffer: &mut [u8],
    have: usize,
    number: u64,
    gate: Gate,
    guests: &mut [u64],
    waiting: &mut [u64],
    flight: &mut [u64],
    out: &mut [u8],
) -> Turn
    requires have_in_bounds { (have ≤ length buffer.old) × (number + have < 2 ^ 64) × (5 * have ≤ length out.old) }
    requires known { Known gate guests.old waiting.old flight.old }
    ensures turned { Turned version (take have buffer.old) number gate guests.old waiting.old flight.old (take result.rest buffer.new) result.number result.gate guests.new waiting.new flight.new out.old result.bytes out.new }
    ensures rest_bound { (result.rest < 14) × (result.rest ≤ length buffer.new) }
{
    let fed = feed(
        version,
        &buffer[..have],
        number,
        gate,
        guests,
        waiting,
        flight,
        out,
    );
    let taken = fed.events * 14;
    buffer.copy_within(taken..have, 0);
    Turn {
        gate: fed.gate,
        rest: have - taken,
        number: number + fed.events as u64,
        bytes: fed.bytes,
    }
}

// Puts the line of an event that is cut short, where bytes of one are left, and answers how many bytes it has.
pub fn put_cut(bytes: &[u8], number: u64, out: &mut [u8]) -> usize
    requires { (LINE ≤ length out.old) × (number + 1 < 2 ^ 64) }
    ensures put { Put 0 (cut number bytes.now) out.old result out.new }
    ensures upper_bound { result ≤ LINE }
{
    if bytes.is_empty() {
        return 0;
    }
    lines::put_line(out, 0, number + 1, Answer::Refused(Refusal::EventCut))
}

// The bytes of the result, written into lent room from its front on. Each function that puts something answers the place after it.
ghost use Rattle.std.specs.Prelude.{◌≡◌, ◌+◌, ◌*◌, ◌≤◌, ◌<◌, length, take, drop};
ghost use Rattle.std.proofs.lemmas.List.Edits.{sets};
ghost use Rattle.lines.specs.Put.{Put};
ghost use Rattle.trace.specs.Little.{byte_at};
ghost use Rattle.trace.specs.Header.{body as body_of};
ghost use Rattle.moved.specs.Result.{head_to, record_to, records_to, moved_to};
ghost use Rattle.moved.specs.Judging.{Bare, AllBare, Fit};

use fields::{body, guests_in};
use items::{event_byte, kind_in};
use lines::{put, put_all};

// Puts the header.
fn put_head(trace: &[u8], to: u64, room: &mut [u8]) -> usize
    requires { (9 ≤ length trace.now) × (to < 256) × (body_of to 0 ≤ length room.old) }
    ensures { Put 0 (head_to to trace.now) room.old result room.new }
{
    let a = put_all(room, 0, b"SGQ");
    let b = put(room, a, to as u8);
    let c = put(room, b, 0);
    let d = put_all(room, c, &trace[5..9]);
    if to == 2 {
        return put(room, d, 1);
    }
    d
}

// Puts the record of the guest whose record begins at `from`.
fn put_record(trace: &[u8], from: usize, to: u64, room: &mut [u8], at: usize) -> usize
    requires { (from + 12 ≤ length trace.now) × (at + 12 ≤ length room.old) × (to ≡ 2 → at + 14 ≤ length room.old) }
    ensures { Put at (record_to to trace.now from) room.old result room.new }
{
    let a = put_all(room, at, &trace[from..from + 12]);
    if to == 2 {
        let b = put(room, a, 0);
        return put(room, b, 0);
    }
    a
}

// Puts the records of all guests behind the header.
fn put_records(
    trace: &[u8],
    version: u64,
    to: u64,
    guests: usize,
    room: &mut [u8],
    first: usize,
) -> usize
    requires { (guests < 256) × (body_of version guests ≤ length trace.now) × (body_of to guests ≤ length room.old) × (first ≡ body_of to 0) }
    ensures { Put first (records_to to version trace.now 0 guests) room.old result room.new }
{
    let mut at = first;
    for k in 0..guests {
        at = put_record(trace, body(version, k), to, room, at);
    }
    at
}

// The first byte in this version of an event of a kind, which has zeros in its upper part: cost 1, or no cost.
fn first_byte(version: u64, kind: u8) -> u8
    requires { kind < 4 }
    ensures { result ≡ kind }
{
    if version == 2 {
        return event_byte(kind, 0);
    }
    kind
}

// Puts the event whose bytes begin at `from`.
fn put_event(bytes: &[u8], from: usize, version: u64, to: u64, room: &mut [u8], at: usize) -> usize
    requires { (from + 14 ≤ length bytes.now) × (at + 14 ≤ length room.old) × Bare version (byte_at bytes.now from) }
    ensures { Put at (take 14 (drop from bytes.now)) room.old result room.new }
{
    let kind = kind_in(version, bytes[from]);
    let a = put(room, at, first_byte(to, kind));
    put_all(room, a, &bytes[from + 1..from + 14])
}

// Puts all events behind the records.
fn put_events(bytes: &[u8], version: u64, to: u64, room: &mut [u8], first: usize)
    requires { (first + length bytes.now ≤ length room.old) × AllBare version bytes.now }
    ensures { room.new ≡ sets room.old first bytes.now }
{
    let mut at = first;
    for i in 0..bytes.len() / 14 {
        at = put_event(bytes, i * 14, version, to, room, at);
    }
}

// Writes the trace in the other version.
pub fn write(trace: &[u8], version: u64, to: u64, room: &mut [u8])
    requires { Fit version to trace.now (length room.old) }
    ensures { room.new ≡ sets room.old 0 (moved_to to trace.now) }
{
    let guests = guests_in(trace);
    let at = body(version, guests);
    let a = put_head(trace, to, room);
    let b = put_records(trace, version, to, guests, room, a);
    put_events(&trace[at..], version, to, room, b);
}

// One event of a trace, read from its 14 bytes. Functions for this repository's own crates.
#![tactic(auto)]

ghost use Rattle.std.specs.Prelude.{◌≡◌, ◌≤◌, ◌<◌, length};
ghost use Rattle.trace.specs.Event.{read_shown, kind_in, upper_in, event_byte, event_from, event_of};

use rules::{Arriving, Event, Flight};

// How far up the upper part of an event's first byte stands in version 2.
const UPPER: u8 = 2;

// The bits of the kind, below the upper part.
const KIND: u8 = 3;

// The kind of an event, from its first byte: the low two bits in version 2, the byte in version 1.
pub fn kind_in(version: u64, byte: u8) -> u8
    ensures { result ≡ kind_in version byte }
{
    if version == 2 { byte & KIND } else { byte }
}

// The upper part of the first byte, in which an arrival has its cost less one: the upper six bits in version 2, none in version 1.
pub fn upper_in(version: u64, byte: u8) -> u8
    ensures { result ≡ upper_in version byte }
{
    if version == 2 { byte >> UPPER } else { 0 }
}

// The first byte of an event of version 2, built of its kind and its upper part.
pub fn event_byte(kind: u8, upper: u8) -> u8
    requires { (kind < 4) × (upper < 64) }
    ensures { result ≡ event_byte kind upper }
{
    upper << UPPER | kind
}

// The event that its fields make. A trace is one array's: delta and rho are 1.
#[tactic(auto, unfolding(trace::specs::Event::event_from))]
fn event_from(kind: u8, upper: u8, guest: u64, id: u32, time: u64) -> Option<Event>
    ensures { result ≡ event_from kind upper guest id time }
{
    match kind {
        0 => {
            let cost = u64::from(upper) + 1;
            let what = Arriving {
                guest,
                id,
                cost,
                delta: 1,
                rho: 1,
            };
            Some(Event::Arrival(what, time))
        }
        1 if upper == 0 => Some(Event::Completion(Flight { guest, id }, time)),
        2 if upper == 0 && guest == 0 && id == 0 => Some(Event::Tick(time)),
        _ => None,
    }
}

// The event that stands at the front of the bytes of a trace of this version, none where it is bad.
pub fn read_event(version: u64, bytes: &[u8]) -> Option<Event>
    requires { 14 ≤ length bytes.now }
    ensures { read_shown result ≡ read_shown (event_of version bytes.now) }
{
    let kind = kind_in(version, bytes[0]);
    let upper = upper_in(version, bytes[0]);
    let id = u32::from_le_bytes([bytes[2], bytes[3], bytes[4], bytes[5]]);
    let time = u64::from_le_bytes([
        bytes[6], bytes[7], bytes[8], bytes[9], bytes[10], bytes[11], bytes[12], bytes[13],
    ]);
    event_from(kind, upper, u64::from(bytes[1]), id, time)
}

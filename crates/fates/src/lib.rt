// What becomes of one event: whether it is kept, and if not, the first reason that fits. Functions for this repository's own crates.
#![tactic(auto)]

ghost use Rattle.std.specs.Prelude.{◌≡◌, ◌≤◌, length, drop};
ghost use Rattle.rules.specs.Events.{moment as moment_of};
ghost use Rattle.salvage.specs.Fates.{by_time, fate_of};

use items::read_event;
use rules::Event;
use salvage::Reason;
use tags::CEILING;

// How far an event may lie ahead of the last kept: 3,600 seconds.
const FARTHEST: u64 = 3600000000000;

// By its time: the ceiling, then that of the last kept, where one was.
fn by_time(last: Option<u64>, time: u64) -> Result<u64, Reason>
    ensures { result ≡ by_time last time }
{
    if time > CEILING {
        return Err(Reason::Above);
    }
    let Some(before) = last else {
        return Ok(time);
    };
    if time < before {
        return Err(Reason::Behind);
    }
    if time - before > FARTHEST {
        return Err(Reason::Ahead);
    }
    Ok(time)
}

// The time of an event.
fn moment(event: Event) -> u64
    ensures { result ≡ moment_of event }
{
    match event {
        Event::Arrival(_, time) | Event::Completion(_, time) | Event::Tick(time) => time,
    }
}

// What becomes of the event whose bytes begin at `from`: cut short, or by what is read, its kind and spare part and then its time.
pub fn fate_of(version: u64, bytes: &[u8], from: usize, last: Option<u64>) -> Result<u64, Reason>
    requires { from ≤ length bytes.now }
    ensures { result ≡ fate_of version last (drop from bytes.now) }
{
    if bytes.len() - from < 14 {
        return Err(Reason::Cut);
    }
    let event = read_event(version, &bytes[from..from + 14]).ok_or(Reason::Bad)?;
    by_time(last, moment(event))
}

// Whether a trace can be moved: its header, its events, what the other version can say, and the room. Functions for this repository's own crates.
#![tactic(auto)]

ghost use Rattle.std.specs.Prelude.{◌≡◌, ◌+◌, ◌≤◌, ◌<◌, length, Some};
ghost use Rattle.lists.specs.Words.{all};
ghost use Rattle.lists.specs.Tab.{tab};
ghost use Rattle.rules.specs.Refusals.{judged};
ghost use Rattle.trace.specs.Header.{body as body_of, settings_at};
ghost use Rattle.trace.specs.Answers.{reads_of};
ghost use Rattle.moved.specs.Moves.{is_dear, creditless, moved_shown, room_for, body_tests, answer_by, answer_to};
ghost use Rattle.moved.specs.Judging.{Surveyed, Headed};

use fields::{body, credit_at};
use headers::read_header_for;
use items::read_event;
use moved::Stopped;
use rules::{Event, Refusal};
use std::num::NonZeroU64;
use trace::Opened;

// An arrival of another cost than 1.
fn is_dear(event: Event) -> bool
    ensures { result ≡ is_dear (Some event) }
{
    matches!(event, Event::Arrival(what, _) if what.cost != 1)
}

// Looks at all whole events of the bytes of a trace of this version: the number of the first arrival of another cost than 1, or that of the first bad
// one, which is refused.
fn look_over(version: u64, bytes: &[u8]) -> Result<Option<NonZeroU64>, Stopped>
    ensures { Surveyed (reads_of version bytes.now) result }
{
    let mut dear = None;
    for i in 0..bytes.len() / 14 {
        let number = NonZeroU64::new(i as u64 + 1);
        let Some(event) = read_event(version, &bytes[i * 14..i * 14 + 14]) else {
            return Err(Stopped {
                why: Refusal::BadEvent,
                event: number,
            });
        };
        if is_dear(event) {
            dear = dear.or(number);
        }
    }
    Ok(dear)
}

// No guest has a credit.
fn is_creditless(bytes: &[u8], version: u64, guests: usize) -> bool
    requires { (guests < 256) × (body_of version guests ≤ length bytes.now) }
    ensures { result ≡ all creditless (tab guests (settings_at version bytes.now)) }
{
    for k in 0..guests {
        if credit_at(bytes, version, body(version, k)) != 0 {
            return false;
        }
    }
    true
}

// What follows a good header: the events, what the other version can say, and the room.
fn judge_body(trace: &[u8], opened: Opened, to: u64, room: usize) -> Result<usize, Stopped>
    requires { Headed opened.version opened.guests opened.rule trace.now }
    ensures { moved_shown result ≡ moved_shown (answer_by (judged (body_tests to trace.now room)) to trace.now) }
{
    let guests = opened.guests as usize;
    let at = body(opened.version, guests);
    let dear = look_over(opened.version, &trace[at..])?;
    let rest = trace.len() - at;
    let whole = rest / 14;
    if whole * 14 < rest {
        return Err(Stopped {
            why: Refusal::EventCut,
            event: NonZeroU64::new(whole as u64 + 1),
        });
    }
    if opened.rule != 1 || !is_creditless(trace, opened.version, guests) {
        return Err(Stopped::from(Refusal::NoWayBack));
    }
    if dear.is_some() {
        return Err(Stopped {
            why: Refusal::NoWayBack,
            event: dear,
        });
    }
    room_for(body(to, guests), rest, room)
}

// The last test: the room holds the header and the events of the result.
fn room_for(head: usize, events: usize, room: usize) -> Result<usize, Stopped>
    ensures { result ≡ room_for head events room }
{
    if room < head || room - head < events {
        return Err(Stopped::from(Refusal::RoomShort));
    }
    Ok(head + events)
}

// Whether a trace of version `from` can be moved to version `to`, into room of so many bytes: how many bytes the result has, or why not.
pub fn judge(trace: &[u8], from: u64, to: u64, room: usize) -> Result<usize, Stopped>
    ensures { moved_shown result ≡ moved_shown (answer_to from to trace.now room) }
{
    let opened = read_header_for(trace, from, from)?;
    judge_body(trace, opened, to, room)
}

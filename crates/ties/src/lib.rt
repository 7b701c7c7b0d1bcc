// What a line of another gate says: which request it sends, among those that tie with the one that our rules pick. Functions for this repository's own crates.
#![tactic(auto)]

ghost use Rattle.std.specs.Prelude.{◌≡◌, List, ℕ, ◌+◌, ◌*◌, ◌≤◌, ◌<◌, length};
ghost use Rattle.rules.specs.Chosen.{at};
ghost use Rattle.rules.specs.declared.Answer.TheVariants.{Sent};
ghost use Rattle.table.specs.Columns.{waiting_wide, GUEST, ID, waiting_at};
ghost use Rattle.table.specs.View.{waiting_of, table_of};
ghost use Rattle.walks.specs.Walks.{Picks};
ghost use Rattle.index.specs.Index.{Beside};
ghost use Rattle.lines.specs.Line.{line_of};
ghost use Rattle.judge.specs.Judging.{begins, ok_in, tag_in, ties, named, leads};
ghost use Rattle.judge.specs.Hearing.{size_if, said_of, tag_column, latest_in, Timely, Lending, Tells, Finds};

use crate::saying::says;
use judge::{Said, Told};
use lines::LINE_LONG;
use rules::{Answer, Gate, Phase};
use sends::latest_limit;
use table::columns::{GUEST, GUEST_WIDE, ID, LTAG, RESERVATION, RTAG, STAG, WAITING_WIDE};

pub mod saying; // a printed line, held against the lines

// Only this answer may stand, and it changes nothing.
pub fn hear_plain(
    gate: Gate,
    answer: Answer,
    number: u64,
    said: &[u8],
    text: &mut [u8; LINE_LONG],
) -> Said
    ensures { result ≡ said_of gate answer (size_if (begins (line_of number answer) said.now) (line_of number answer)) }
{
    let long = says(text, number, answer, said);
    Said { gate, answer, long }
}

// The tag by which a phase chooses, of the request at `place`.
fn tag_at(waiting: &[u64], place: usize, phase: Phase) -> u64
    requires { place * waiting_wide + waiting_wide ≤ length waiting.now }
    ensures { result ≡ waiting_at waiting.now place (tag_column phase) }
{
    match phase {
        Phase::Reservation => waiting[place * WAITING_WIDE + RTAG],
        Phase::Weight => waiting[place * WAITING_WIDE + STAG],
    }
}

// The latest limit tag that passes in a phase.
fn latest_in(gate: Gate, phase: Phase) -> u64
    ensures { result ≡ latest_in phase gate }
{
    match phase {
        Phase::Reservation => latest_limit(gate.setup.rule, gate.time),
        Phase::Weight => gate.time,
    }
}

// The send of the request at `place`.
pub fn send_of(waiting: &[u64], place: usize, phase: Phase) -> Answer
    requires { (place * waiting_wide + waiting_wide ≤ length waiting.now) × (waiting_at waiting.now place ID < 4294967296) }
    ensures { result ≡ Sent phase (waiting_at waiting.now place GUEST) (waiting_at waiting.now place ID) }
{
    let guest = waiting[place * WAITING_WIDE + GUEST];
    let id = waiting[place * WAITING_WIDE + ID] as u32;
    Answer::Sent { phase, guest, id }
}

// The request at `place` may be chosen in this phase, and has this tag; `latest` is the latest limit tag that passes.
fn is_tied(
    gate: Gate,
    guests: &[u64],
    waiting: &[u64],
    place: usize,
    phase: Phase,
    latest: u64,
    tag: u64,
) -> bool
    requires lending { Lending gate guests.now waiting.now × (place < gate.waiting) }
    requires latest_value { (latest ≡ latest_in phase gate) × Timely phase tag gate }
    ensures { (fs : List ℕ) → result ≡ ties phase (table_of gate guests.now waiting.now fs) tag (at (waiting_of waiting.now gate.waiting) place) }
{
    let from = place * WAITING_WIDE;
    if latest < waiting[from + LTAG] {
        return false;
    }
    match phase {
        Phase::Weight => waiting[from + STAG] == tag,
        Phase::Reservation => {
            let guest = waiting[from + GUEST] as usize;
            if guests[guest * GUEST_WIDE + RESERVATION] == 0 {
                return false;
            }
            waiting[from + RTAG] == tag
        }
    }
}

// How many bytes the line of the request at `place` has, where it is tied and the lines begin with its line.
fn says_tied(
    gate: Gate,
    guests: &[u64],
    waiting: &[u64],
    place: usize,
    phase: Phase,
    latest: u64,
    tag: u64,
    number: u64,
    said: &[u8],
    text: &mut [u8; LINE_LONG],
) -> Option<usize>
    requires lending { Lending gate guests.now waiting.now × (place < gate.waiting) }
    requires latest_value { (latest ≡ latest_in phase gate) × Timely phase tag gate }
    ensures { (fs : List ℕ) → result ≡ size_if (named number said.now phase (table_of gate guests.now waiting.now fs) tag (at (waiting_of waiting.now gate.waiting) place)) (line_of number (Sent phase (waiting_at waiting.now place GUEST) (waiting_at waiting.now place ID))) }
{
    if !is_tied(gate, guests, waiting, place, phase, latest, tag) {
        return None;
    }
    let answer = send_of(waiting, place, phase);
    says(text, number, answer, said)
}

// Looks for a request that ties with the one at `place`, which our rules pick in this phase, and whose line the lines begin with: that one first, for none before
// it ties with it, so that only where the other gate breaks a tie otherwise a second one is looked at.
fn find_tied(
    gate: Gate,
    guests: &[u64],
    waiting: &[u64],
    place: usize,
    phase: Phase,
    number: u64,
    said: &[u8],
    text: &mut [u8; LINE_LONG],
) -> Option<Told>
    requires lending { Lending gate guests.now waiting.now }
    requires by_index { (fs : List ℕ) → Picks (ok_in phase (table_of gate guests.now waiting.now fs)) (tag_in phase) (waiting_of waiting.now gate.waiting) (Some place) }
    ensures { (fs : List ℕ) → Tells number said.now phase (table_of gate guests.now waiting.now fs) place result }
{
    let tag = tag_at(waiting, place, phase);
    let latest = latest_in(gate, phase);
    for i in place..gate.waiting as usize {
        let heard = says_tied(
            gate, guests, waiting, i, phase, latest, tag, number, said, text,
        );
        if let Some(long) = heard {
            return Some(Told { place: i, long });
        }
    }
    None
}

// No request before `place` is of the guest of the one there.
fn is_first(waiting: &[u64], place: usize) -> bool
    requires { place * waiting_wide + waiting_wide ≤ length waiting.now }
    ensures { (count : ℕ) → place < count → result ≡ leads (waiting_of waiting.now count) place }
{
    let guest = waiting[place * WAITING_WIDE + GUEST];
    for i in 0..place {
        if waiting[i * WAITING_WIDE + GUEST] == guest {
            return false;
        }
    }
    true
}

// The same of one of the first `count` requests: it is its guest's first row by the index, where there is one.
fn leads_here(waiting: &[u64], count: usize, place: usize, index: &[u16]) -> bool
    requires place_lt_count { (place < count) × (place * waiting_wide + waiting_wide ≤ length waiting.now) }
    requires beside { Beside waiting.now index.now count }
    ensures { result ≡ leads (waiting_of waiting.now count) place }
{
    if index.is_empty() {
        return is_first(waiting, place);
    }
    let guest = waiting[place * WAITING_WIDE + GUEST] as usize;
    let first = index[guest] as usize;
    first == place + 1
}

// The request that the lines say goes: one that ties with the one at `place`, and the first waiting of its guest, for within a guest reservation tags may tie.
pub fn find_send(
    gate: Gate,
    guests: &[u64],
    waiting: &[u64],
    place: usize,
    phase: Phase,
    number: u64,
    said: &[u8],
    text: &mut [u8; LINE_LONG],
    index: &[u16],
) -> Option<Told>
    requires lending { Lending gate guests.now waiting.now }
    requires by_index { (fs : List ℕ) → Picks (ok_in phase (table_of gate guests.now waiting.now fs)) (tag_in phase) (waiting_of waiting.now gate.waiting) (Some place) }
    requires beside { Beside waiting.now index.now gate.waiting }
    ensures { (fs : List ℕ) → Finds number said.now phase (table_of gate guests.now waiting.now fs) place result }
{
    let told = find_tied(gate, guests, waiting, place, phase, number, said, text)?;
    leads_here(waiting, gate.waiting as usize, told.place, index).then_some(told)
}

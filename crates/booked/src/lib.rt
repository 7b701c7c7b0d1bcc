// One event on the book and the figures as numbers: noted, counted, struck. Functions for this repository's own crates.
// Gate and tables stay side by side for the reason that stands at the head of sends.
#![tactic(auto)]

ghost use Rattle.std.specs.Prelude.{◌≡◌, ◌+◌, ◌^◌, ◌≤◌, ◌<◌, length};
ghost use Rattle.rules.specs.Choice.{choice};
ghost use Rattle.rules.specs.declared.Event.TheVariants.{Arrival};
ghost use Rattle.table.specs.View.{Known};
ghost use Rattle.table.specs.Does.{Leaves};
ghost use Rattle.index.specs.Index.{Beside, stands, shifted, Snug};
ghost use Rattle.book.specs.Page.{turned};
ghost use Rattle.tally.specs.Kept.{page_of, Kept};
ghost use Rattle.tally.specs.Notes.{struck_at, sent_for};
ghost use Rattle.booked.specs.Turns.{noted_in, counted_in, Notable, gone_from, ahead_in, wait_in, struck_in, sent_in, Sendable, Settles, Entering};

use rules::{Answer, Arriving, Event, Gate, Phase};
use table::columns::{LTAG, WAITING_WIDE};
use table::gates::Decision;
use tally::columns::{ARRIVALS, COMPLETIONS, LIMITED, NOTE_WIDE, SINCE};
use windows::After;

// An arrival that entered is noted and counted. Its request stands last among the waiting.
fn came(
    gate: Gate,
    waiting: &[u64],
    book: &mut [u64],
    figures: &mut [u64],
    what: Arriving,
    time: u64,
)
    requires { Notable (Arrival what time) gate waiting.now book.old figures.old }
    ensures book_after { book.new ≡ noted_in (Arrival what time) gate waiting.now book.old }
    ensures figures_after { figures.new ≡ counted_in (Arrival what time) figures.old }
{
    let last = gate.waiting as usize - 1;
    let limited = waiting[last * WAITING_WIDE + LTAG];
    tally::notes::note(book, last, what.guest, what.id as u64, time, limited);
    tally::figures::count(figures, what.guest, ARRIVALS);
}

// An event that entered is noted and counted.
fn noted(gate: Gate, waiting: &[u64], book: &mut [u64], figures: &mut [u64], event: Event)
    requires { Notable event gate waiting.now book.old figures.old }
    ensures book_after { book.new ≡ noted_in event gate waiting.now book.old }
    ensures figures_after { figures.new ≡ counted_in event figures.old }
{
    match event {
        Event::Arrival(what, time) => came(gate, waiting, book, figures, what, time),
        Event::Completion(which, _) => tally::figures::count(figures, which.guest, COMPLETIONS),
        Event::Tick(_) => {}
    }
}

// A request was sent: its wait is read off its note, the note struck, and the send counted.
fn gone(gate: Gate, book: &mut [u64], figures: &mut [u64], phase: Phase, guest: u64, id: u64)
    requires { Sendable guest id gate book.old figures.old }
    ensures book_after { book.new ≡ struck_at (gone_from guest id gate book.old) gate.waiting book.old }
    ensures figures_after { figures.new ≡ sent_for phase guest (ahead_in gate book.old (gone_from guest id gate book.old)) (wait_in gate book.old (gone_from guest id gate book.old)) figures.old }
{
    let count = gate.waiting as usize;
    let time = gate.time;
    let place = tally::notes::find(&book[..], count, guest, id).unwrap();
    let since = book[place * NOTE_WIDE + SINCE];
    let limited = book[place * NOTE_WIDE + LIMITED];
    tally::notes::strike(book, place, count);
    tally::figures::sent(figures, phase, guest, time < limited, time - since);
}

// What the choice sent, if anything, is struck and counted.
fn settled(gate: Gate, book: &mut [u64], figures: &mut [u64], answer: Answer)
    requires { Settles answer gate book.old figures.old }
    ensures book_after { book.new ≡ struck_in answer gate book.old }
    ensures figures_after { figures.new ≡ sent_in answer gate book.old figures.old }
{
    match answer {
        Answer::Sent { phase, guest, id } => gone(gate, book, figures, phase, guest, id as u64),
        Answer::Nothing | Answer::Refused(_) => {}
    }
}

// An event that entered: it is noted and counted, the choice is made, and what was sent is struck and counted. The gate and the tables are as the
// choice finds them; `number` events were judged before this one.
fn accepted(
    number: u64,
    gate: Gate,
    guests: &mut [u64],
    waiting: &mut [u64],
    flight: &mut [u64],
    book: &mut [u64],
    figures: &mut [u64],
    event: Event,
    index: &mut [u16],
) -> Decision
    requires known { Known gate guests.old waiting.old flight.old }
    requires entering { Entering number event gate waiting.old book.old figures.old }
    requires beside { Beside waiting.old index.old gate.waiting × Snug gate waiting.old index.old }
    ensures leaves { Leaves choice gate guests.old waiting.old flight.old result guests.new (stands index.old result.answer waiting.new) flight.new }
    ensures book_after { book.new ≡ struck_in result.answer gate (noted_in event gate waiting.old book.old) }
    ensures figures_after { figures.new ≡ sent_in result.answer gate (noted_in event gate waiting.old book.old) (counted_in event figures.old) }
    ensures beside_2 { Beside (stands index.old result.answer waiting.new) index.new result.gate.waiting }
{
    noted(gate, &waiting[..], book, figures, event);
    let made = choose::choose(gate, guests, waiting, flight, index);
    settled(gate, book, figures, made.answer);
    made
}

// One event: refused, and every number stands as it did; or it enters, is noted and counted, the choice is made, and what is sent is struck and
// counted; the index follows the waiting rows. `number` events were judged before it: it bounds the counts, and the code does not read it.
pub fn turn(
    number: u64,
    gate: Gate,
    guests: &mut [u64],
    waiting: &mut [u64],
    flight: &mut [u64],
    book: &mut [u64],
    figures: &mut [u64],
    event: Event,
    index: &mut [u16],
) -> After
    requires known { Known gate guests.old waiting.old flight.old }
    requires kept { Kept number gate waiting.old book.old figures.old }
    requires number_bound { number + 1 < 2 ^ 64 }
    requires beside { Beside waiting.old index.old gate.waiting × Snug gate waiting.old index.old }
    ensures gone_bound { (result.gone ≤ 1) × (0 < result.gone → 0 < length index.old) }
    ensures figures_after { page_of result.gate guests.new (shifted result.gone waiting.new) flight.new book.new figures.new ≡ turned (page_of gate guests.old waiting.old flight.old book.old figures.old) event }
    ensures known_2 { Known result.gate guests.new (shifted result.gone waiting.new) flight.new }
    ensures kept_2 { Kept (number + 1) result.gate (shifted result.gone waiting.new) book.new figures.new }
    ensures beside_2 { Beside (shifted result.gone waiting.new) index.new result.gate.waiting }
{
    match enter::enter(gate, guests, waiting, flight, event, index) {
        Err(_) => After { gate, gone: 0 },
        Ok(moved) => {
            let made = accepted(
                number, moved, guests, waiting, flight, book, figures, event, index,
            );
            After {
                gate: made.gate,
                gone: index::gone_on(made.answer, &index[..]),
            }
        }
    }
}

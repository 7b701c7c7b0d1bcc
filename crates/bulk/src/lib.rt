// Many events in one call: each answered in its place of a lent buffer, exactly as if they came one by one. The lent tables are tested once for all of
// them; where it pays, the waiting rows are copied once into a window and their index is built once for all of them. No `requires`: any value of any number, any
// length of any slice. What it promises is in crates/batch/specs/Promise.antt.
// Gate and tables stay side by side for the reason that stands at the head of sends.
#![tactic(auto)]

ghost use Rattle.std.specs.Prelude.{◌≡◌, true, List, ℕ, ◌+◌, ◌*◌, ◌≤◌, ◌<◌, length};
ghost use Rattle.table.specs.Columns.{waiting_wide};
ghost use Rattle.table.specs.View.{Known};
ghost use Rattle.index.specs.Index.{Beside, stands, shifted, Snug};
ghost use Rattle.windows.specs.Window.{spare, Window};
ghost use Rattle.gate.specs.Promise.{numbers};
ghost use Rattle.gate.specs.Judges.{Judges};
ghost use Rattle.batch.specs.Rows.{count_of, event_at, answer_wide};
ghost use Rattle.batch.specs.Promise.{host_of, one, seen_batch, batched};
ghost use Rattle.batch.specs.Turns.{turn, Ran};

use batch::Batched;
use calling::numbers::follow;
use index::{INDEX_WIDE, MOST_WALKED};
use rules::{Event, Gate, Outcome, Refusal};
use slots::answers::{ANSWER_WIDE, put_answer};
use slots::events::{EVENT_WIDE, MOST_EVENTS, event_at};
use table::columns::WAITING_WIDE;
use windows::{After, Ended, WINDOW_LONG};

// With fewer events than these the window and its index cost more to set up than the events save by them.
const LEAST_EVENTS: usize = 16;

// One event as its row has it, on lent tables of which `found` is true; what is no event is refused 14 and changes nothing.
fn answer(
    gate: Gate,
    guests: &mut [u64],
    waiting: &mut [u64],
    flight: &mut [u64],
    found: Result<(), Refusal>,
    event: Option<Event>,
    index: &mut [u16],
) -> Outcome
    requires judges { Judges gate guests.old waiting.old flight.old found }
    requires beside { Beside waiting.old index.old gate.waiting × Snug gate waiting.old index.old }
    ensures flight_after { (result, guests.new, stands index.old result.answer waiting.new, flight.new) ≡ one numbers event (host_of numbers gate guests.old waiting.old flight.old) }
    ensures judges_2 { Judges result.gate guests.new (stands index.old result.answer waiting.new) flight.new found }
    ensures beside_2 { Beside (stands index.old result.answer waiting.new) index.new result.gate.waiting }
{
    match event {
        Some(good) => follow(gate, guests, waiting, flight, found, good, index),
        None => table::gates::refused(gate, Refusal::BadEvent),
    }
}

// The event of row k is answered in row k.
fn answer_row(
    events: &[u64],
    k: usize,
    gate: Gate,
    guests: &mut [u64],
    waiting: &mut [u64],
    flight: &mut [u64],
    found: Result<(), Refusal>,
    answers: &mut [u64],
    index: &mut [u16],
) -> After
    requires k_bound { (k < count_of events.now) × (count_of events.now * answer_wide ≤ length answers.old) }
    requires judges { Judges gate guests.old waiting.old flight.old found }
    requires beside { Beside waiting.old index.old gate.waiting × Snug gate waiting.old index.old }
    ensures gone_bound { (result.gone ≤ 1) × (0 < result.gone → 0 < length index.old) }
    ensures answers_after { (host_of numbers result.gate guests.new (shifted result.gone waiting.new) flight.new, answers.new) ≡ turn (event_at events.now k) k (host_of numbers gate guests.old waiting.old flight.old) answers.old }
    ensures judges_2 { Judges result.gate guests.new (shifted result.gone waiting.new) flight.new found }
    ensures beside_2 { Beside (shifted result.gone waiting.new) index.new result.gate.waiting }
{
    let event = event_at(events, k);
    let outcome = answer(gate, guests, waiting, flight, found, event, index);
    put_answer(answers, k * ANSWER_WIDE, outcome);
    let gone = index::gone_on(outcome.answer, index);
    After {
        gate: outcome.gate,
        gone,
    }
}

// The event of row k, on the table that stands in a window from row `start` on.
fn answer_row_in(
    events: &[u64],
    k: usize,
    gate: Gate,
    guests: &mut [u64],
    window: &mut [u64],
    start: usize,
    size: usize,
    flight: &mut [u64],
    found: Result<(), Refusal>,
    answers: &mut [u64],
    index: &mut [u16],
) -> After
    requires k_bound { (k < count_of events.now) × (count_of events.now * answer_wide ≤ length answers.old) }
    requires by_index { (ws : List ℕ) × Window size start window.old ws × Judges gate guests.old ws flight.old found × Beside ws index.old gate.waiting × Snug gate ws index.old }
    ensures gone_bound { (result.gone ≤ 1) × (0 < result.gone → 0 < length index.old) }
    ensures by_index_2 { (ws : List ℕ) → Window size start window.old ws → (vs : List ℕ) × Window size start window.new vs × (host_of numbers result.gate guests.new (shifted result.gone vs) flight.new, answers.new) ≡ turn (event_at events.now k) k (host_of numbers gate guests.old ws flight.old) answers.old × Judges result.gate guests.new (shifted result.gone vs) flight.new found × Beside (shifted result.gone vs) index.new result.gate.waiting }
{
    let first = start * WAITING_WIDE;
    answer_row(
        events,
        k,
        gate,
        guests,
        &mut window[first..first + size],
        flight,
        found,
        answers,
        index,
    )
}

// Every event is answered in its row, on tables of which `found` is true, the waiting one at the front of a window; the index goes on from event to event.
fn answer_rows_in(
    events: &[u64],
    first: Gate,
    guests: &mut [u64],
    window: &mut [u64],
    size: usize,
    flight: &mut [u64],
    found: Result<(), Refusal>,
    answers: &mut [u64],
    index: &mut [u16],
) -> Ended
    requires answer_wide_in_bounds { count_of events.now * answer_wide ≤ length answers.old }
    requires size_in_bounds { 0 < length index.old → spare * waiting_wide + size ≤ length window.old }
    requires by_index { (ws : List ℕ) × Window size 0 window.old ws × Judges first guests.old ws flight.old found × Beside ws index.old first.waiting × Snug first ws index.old }
    ensures { (ws : List ℕ) → Window size 0 window.old ws → (vs : List ℕ) × Window size result.start window.new vs × Ran events.now (host_of numbers first guests.old ws flight.old) answers.old (host_of numbers result.gate guests.new vs flight.new) answers.new }
{
    let mut gate = first;
    let mut start = 0;
    for k in 0..events.len() / EVENT_WIDE {
        start = windows::settle(window, start, size);
        let after = answer_row_in(
            events, k, gate, guests, window, start, size, flight, found, answers, index,
        );
        gate = after.gate;
        start += after.gone;
    }
    Ended { gate, start }
}

// An index pays where the tables were found sound, for so many events over so many waiting.
fn pays(found: Result<(), Refusal>, events: usize, rows: usize) -> bool
    ensures { result ≡ true → found ≡ Ok tt }
{
    LEAST_EVENTS <= events && MOST_WALKED < rows && found.is_ok()
}

// Every event is answered in its row, without an index: the lent table is its own window.
fn answer_walked(
    events: &[u64],
    gate: Gate,
    guests: &mut [u64],
    waiting: &mut [u64],
    flight: &mut [u64],
    found: Result<(), Refusal>,
    answers: &mut [u64],
) -> Gate
    requires answer_wide_in_bounds { count_of events.now * answer_wide ≤ length answers.old }
    requires judges { Judges gate guests.old waiting.old flight.old found }
    ensures { Ran events.now (host_of numbers gate guests.old waiting.old flight.old) answers.old (host_of numbers result guests.new waiting.new flight.new) answers.new }
{
    let size = waiting.len();
    let ended = answer_rows_in(
        events,
        gate,
        guests,
        waiting,
        size,
        flight,
        found,
        answers,
        &mut [],
    );
    ended.gate
}

// Every event is answered in its row, on tables that are known to be sound, with one window and one index for all of them.
fn answer_beside(
    events: &[u64],
    gate: Gate,
    guests: &mut [u64],
    waiting: &mut [u64],
    flight: &mut [u64],
    answers: &mut [u64],
) -> Gate
    requires answer_wide_in_bounds { count_of events.now * answer_wide ≤ length answers.old }
    requires known { Known gate guests.old waiting.old flight.old }
    ensures { Ran events.now (host_of numbers gate guests.old waiting.old flight.old) answers.old (host_of numbers result guests.new waiting.new flight.new) answers.new }
{
    let rows = gate.waiting as usize;
    let size = gate.setup.capacity as usize * WAITING_WIDE;
    let mut window = [0u64; WINDOW_LONG];
    let mut index = [0u16; INDEX_WIDE];
    windows::open(&waiting[..], size, rows, &mut window[..], &mut index[..]);
    let ended = answer_rows_in(
        events,
        gate,
        guests,
        &mut window[..],
        size,
        flight,
        Ok(()),
        answers,
        &mut index[..],
    );
    let start = ended.start;
    windows::close(&window[..], start, size, waiting);
    ended.gate
}

// Every event is answered in its row, with one index for all of them where it pays.
fn answer_all(
    events: &[u64],
    gate: Gate,
    guests: &mut [u64],
    waiting: &mut [u64],
    flight: &mut [u64],
    found: Result<(), Refusal>,
    answers: &mut [u64],
) -> Gate
    requires answer_wide_in_bounds { count_of events.now * answer_wide ≤ length answers.old }
    requires judges { Judges gate guests.old waiting.old flight.old found }
    ensures { Ran events.now (host_of numbers gate guests.old waiting.old flight.old) answers.old (host_of numbers result guests.new waiting.new flight.new) answers.new }
{
    let rows = gate.waiting as usize;
    if pays(found, events.len() / EVENT_WIDE, rows) {
        answer_beside(events, gate, guests, waiting, flight, answers)
    } else {
        answer_walked(events, gate, guests, waiting, flight, found, answers)
    }
}

// Up to 256 events: room for the answers and the number of events are judged, then the lent tables, once; then each event is answered in its row.
pub fn call(
    gate: Gate,
    guests: &mut [u64],
    waiting: &mut [u64],
    flight: &mut [u64],
    events: &[u64],
    answers: &mut [u64],
) -> Batched
    ensures { seen_batch (result, guests.new, waiting.new, flight.new, answers.new) ≡ seen_batch (batched events.now gate guests.old waiting.old flight.old answers.old) }
{
    let count = events.len() / EVENT_WIDE;
    if answers.len() / ANSWER_WIDE < count {
        return Batched {
            gate: gate,
            found: Err(Refusal::AnswersShort),
        };
    }
    if MOST_EVENTS < count {
        return Batched {
            gate: gate,
            found: Err(Refusal::TooManyEvents),
        };
    }
    let found = calling::numbers::judge(gate, guests, waiting, flight);
    let after = answer_all(events, gate, guests, waiting, flight, found, answers);
    Batched {
        gate: after,
        found: Ok(()),
    }
}

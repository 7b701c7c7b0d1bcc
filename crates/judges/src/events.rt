// All events of a trace: the other gate's lines are heard one after the other, each at the tables that those before it left.
ghost use Rattle.std.specs.Prelude.{◌≡◌, List, ℕ, ◌+◌, ◌*◌, ◌≤◌, ◌<◌, ◌^◌, length};
ghost use Rattle.rules.specs.Tables.{Table};
ghost use Rattle.table.specs.Columns.{waiting_wide};
ghost use Rattle.table.specs.View.{table_of, Known};
ghost use Rattle.tables.specs.Tables.{table_in, AreKnown};
ghost use Rattle.index.specs.Index.{Beside, Snug};
ghost use Rattle.windows.specs.Window.{spare, Window};
ghost use Rattle.judge.specs.Acceptable.{cut_asked, asked_from};
ghost use Rattle.judge.specs.Judging.{judged_from};

use crate::{ended, wrong_at};
use hears::hear_in;
use index::INDEX_WIDE;
use judge::Judged;
use lines::LINE_LONG;
use rules::{Answer, Gate, Refusal};
use table::columns::WAITING_WIDE;
use tables::Tables;
use ties::saying::says;
use windows::WINDOW_LONG;

// What is left behind the whole events, of which there are so many: the line of one that is cut short, and nothing more.
fn judge_rest(rest: &[u8], number: u64, said: &[u8], text: &mut [u8; LINE_LONG]) -> Judged
    requires { number + 3 < 2 ^ 64 }
    ensures { (t : Table) → result ≡ judged_from number t (cut_asked rest.now) said.now }
{
    if rest.is_empty() {
        return ended(number + 2, said);
    }
    let answer = Answer::Refused(Refusal::EventCut);
    let Some(long) = says(text, number + 1, answer, said) else {
        return wrong_at(number + 2, answer);
    };
    ended(number + 3, &said[long..])
}

// Judges the lines behind the header line, on the table that stands at the front of a window, with the index of the waiting rows beside it.
fn judge_beside(
    version: u64,
    bytes: &[u8],
    first: Gate,
    guests: &mut [u64],
    window: &mut [u64],
    size: usize,
    flight: &mut [u64],
    said: &[u8],
    text: &mut [u8; LINE_LONG],
    index: &mut [u16],
) -> Judged
    requires size_in_bounds { spare * waiting_wide + size ≤ length window.old }
    requires by_index { (ws : List ℕ) × Window size 0 window.old ws × Known first guests.old ws flight.old × Beside ws index.old first.waiting × Snug first ws index.old }
    ensures { (ws : List ℕ) → Window size 0 window.old ws → result ≡ judged_from 0 (table_of first guests.old ws flight.old) (asked_from version bytes.now) said.now }
{
    let n = bytes.len() / 14;
    let mut gate = first;
    let mut start: usize = 0;
    let mut at: usize = 0;
    for i in 0..n {
        start = windows::settle(window, start, size);
        let heard = hear_in(
            version,
            bytes,
            i * 14,
            gate,
            guests,
            window,
            start,
            size,
            flight,
            i as u64 + 1,
            &said[at..],
            text,
            index,
        );
        let Some(long) = heard.long else {
            return wrong_at(i as u64 + 2, heard.answer);
        };
        gate = heard.gate;
        at += long;
        start += index::gone_on(heard.answer, &index[..]);
    }
    judge_rest(&bytes[n * 14..], n as u64, &said[at..], text)
}

// Judges the lines behind the header line, of the events of a trace of this version, from the tables on that its header opens. The waiting rows are copied into a
// window, and one walk builds their index for all events.
pub fn judge_events(
    version: u64,
    bytes: &[u8],
    tables: &mut Tables,
    said: &[u8],
    text: &mut [u8; LINE_LONG],
) -> Judged
    requires { AreKnown tables.old }
    ensures { result ≡ judged_from 0 (table_in tables.old) (asked_from version bytes.now) said.now }
{
    let size = tables.gate.setup.capacity as usize * WAITING_WIDE;
    let rows = tables.gate.waiting as usize;
    let mut window = [0u64; WINDOW_LONG];
    let mut index = [0u16; INDEX_WIDE];
    windows::open(&tables.waiting, size, rows, &mut window, &mut index);
    judge_beside(
        version,
        bytes,
        tables.gate,
        &mut tables.guests,
        &mut window,
        size,
        &mut tables.flight,
        said,
        text,
        &mut index,
    )
}

// Whether the lines of another gate, which breaks ties between guests as it likes, are right for a trace: a function of the two, both lent, of any length.
// Nothing is kept of either; the tables are of the gate's own size, and follow the other gate's choices.
#![tactic(auto)]

ghost use Rattle.std.specs.Prelude.{◌≡◌, Ok, Err};
ghost use Rattle.gate.specs.Replies.{four_of};
ghost use Rattle.trace.specs.Header.{header_of};
ghost use Rattle.judge.specs.Judging.{wrong_at, ended as ended_at, judged_of};

use begin::open_tables;
use fields::body;
use headers::read_header;
use judge::Judged;
use lines::LINE_LONG;
use replies::five_of;
use rules::{Answer, Refusal};
use table::columns::SETTINGS_LONG;
use tables::Tables;
use trace::Opened;

mod events; // all events of a trace

// Line `line` may not stand, and this answer was due there.
fn wrong_at(line: u64, answer: Answer) -> Judged
    ensures { result ≡ wrong_at line (four_of answer) }
{
    let due = five_of(answer, None);
    Judged {
        line,
        kind: due.kind,
        guest: due.guest,
        id: due.id,
        refusal: due.refusal,
    }
}

// Nothing asks for line `line`: all lines may stand where no byte is left.
fn ended(line: u64, said: &[u8]) -> Judged
    ensures { result ≡ ended_at line said.now }
{
    if said.is_empty() {
        return Judged {
            line: 0,
            kind: 0,
            guest: 0,
            id: 0,
            refusal: 0,
        };
    }
    Judged {
        line,
        kind: 4,
        guest: 0,
        id: 0,
        refusal: 0,
    }
}

// A bad header has its one line, and nothing more.
fn judge_refused(trace: &[u8], why: Refusal, said: &[u8], text: &mut [u8; LINE_LONG]) -> Judged
    requires { header_of trace.now ≡ Err why }
    ensures { result ≡ judged_of trace.now said.now }
{
    let end = lines::put_refusal(text, 0, why);
    let Some(rest) = said.strip_prefix(&text[..end]) else {
        return wrong_at(1, Answer::Refused(why));
    };
    ended(2, rest)
}

// A good header has the header line; the tables are opened, and the events follow.
fn judge_opened(
    trace: &[u8],
    opened: Opened,
    said: &[u8],
    tables: &mut Tables,
    text: &mut [u8; LINE_LONG],
) -> Judged
    requires { header_of trace.now ≡ Ok opened }
    ensures { result ≡ judged_of trace.now said.now }
{
    let Some(rest) = said.strip_prefix(b"event answer\n") else {
        return Judged {
            line: 1,
            kind: 0,
            guest: 0,
            id: 0,
            refusal: 0,
        };
    };
    let mut settings = [0u64; SETTINGS_LONG];
    tables.gate = open_tables(
        trace,
        opened,
        &mut settings,
        &mut tables.guests,
        &mut tables.waiting,
        &mut tables.flight,
    );
    let at = body(opened.version, opened.guests as usize);
    events::judge_events(opened.version, &trace[at..], tables, rest, text)
}

// Judges the lines by what the header is; the tables are opened anew.
fn judge_on(trace: &[u8], said: &[u8], tables: &mut Tables, text: &mut [u8; LINE_LONG]) -> Judged
    ensures { result ≡ judged_of trace.now said.now }
{
    match read_header(trace) {
        Err(why) => judge_refused(trace, why, said, text),
        Ok(opened) => judge_opened(trace, opened, said, tables, text),
    }
}

// Judges another gate's lines of a trace.
pub fn judge(trace: &[u8], lines: &[u8]) -> Judged
    ensures { result ≡ judged_of trace.now lines.now }
{
    let mut tables = Tables::new();
    let mut text = [0u8; LINE_LONG];
    judge_on(trace, lines, &mut tables, &mut text)
}

// What is kept, written into lent room from its front on, and the list of what is dropped. Each function that puts something answers the place after it.
ghost use Rattle.std.specs.Prelude.{◌≡◌, ◌+◌, ◌≤◌, [], ◌∷◌, length, take};
ghost use Rattle.std.proofs.lemmas.List.Edits.{sets};
ghost use Rattle.lines.specs.Put.{Put};
ghost use Rattle.trace.specs.Header.{mark};
ghost use Rattle.salvage.specs.Fates.{reason_number};
ghost use Rattle.salvage.specs.Result.{kept_of, rows_of, event_count, flat, salvaged, list_of};
ghost use Rattle.salvage.specs.Judging.{Begun, Roomy};

use fates::fate_of;
use lines::put_all;
use salvage::Reason;

// Puts the header and the records, which end at `end`: the mark, and the rest as it stands.
fn put_head(trace: &[u8], end: usize, room: &mut [u8]) -> usize
    requires { (take 3 trace.now ≡ mark) × (3 ≤ end) × (end ≤ length trace.now) × (end ≤ length room.old) }
    ensures { Put 0 (take end trace.now) room.old result room.new }
{
    let a = put_all(room, 0, b"SGQ");
    put_all(room, a, &trace[3..end])
}

// Puts the row of the event of this number, which is dropped.
fn put_row(why: Reason, number: u64, list: &mut [u64], at: usize) -> usize
    requires { at + 2 ≤ length list.old }
    ensures { Put at (number ∷ reason_number why ∷ []) list.old result list.new }
{
    list[at] = number;
    list[at + 1] = why.number();
    at + 2
}

// Puts the kept events behind the records, and the rows of the others.
fn put_events(version: u64, bytes: &[u8], room: &mut [u8], first: usize, list: &mut [u64])
    requires { (first + length (kept_of version bytes.now (event_count bytes.now)) ≤ length room.old) × (length (flat (rows_of version bytes.now (event_count bytes.now))) ≤ length list.old) }
    ensures { (room.new ≡ sets room.old first (kept_of version bytes.now (event_count bytes.now))) × (list.new ≡ sets list.old 0 (flat (rows_of version bytes.now (event_count bytes.now)))) }
{
    let mut last = None;
    let mut at = first;
    let mut row: usize = 0;
    for i in 0..bytes.len().div_ceil(14) {
        let from = i * 14;
        match fate_of(version, bytes, from, last) {
            Ok(time) => {
                last = Some(time);
                at = put_all(room, at, &bytes[from..from + 14]);
            }
            Err(why) => row = put_row(why, i as u64 + 1, list, row),
        }
    }
}

// Writes what comes out of a trace, and the list.
pub fn write(trace: &[u8], version: u64, at: usize, room: &mut [u8], list: &mut [u64])
    requires { Begun version at trace.now × Roomy trace.now (length room.old) (length list.old) }
    ensures { (room.new ≡ sets room.old 0 (salvaged trace.now)) × (list.new ≡ sets list.old 0 (list_of trace.now)) }
{
    let first = put_head(trace, at, room);
    put_events(version, &trace[at..], room, first, list);
}

// The salvage of a torn trace: the good events of a lent trace go into lent room as a trace of the same version, and the number and the reason of each other one
// into a lent list.
#![tactic(auto)]

ghost use Rattle.std.specs.Prelude.{◌≡◌, length};
ghost use Rattle.rules.specs.Refusals.{judged};
ghost use Rattle.salvage.specs.Salvages.{salvaged_shown, room_tests, leaves_by, salvages};
ghost use Rattle.salvage.specs.Judging.{Begun};

use crate::judging::look_over;
use crate::writing::write;
use fields::body;
use headers::read_header;
use rules::Refusal;
use salvage::Written;

mod judging; // how much there is to write
mod writing; // what is kept, and the list

// Behind a good header: where there is room, what is kept and the list are written.
fn sort(
    trace: &[u8],
    version: u64,
    at: usize,
    room: &mut [u8],
    list: &mut [u64],
) -> Result<Written, Refusal>
    requires { Begun version at trace.now }
    ensures { (salvaged_shown result, room.new, list.new) ≡ leaves_by (judged (room_tests trace.now (length room.old) (length list.old))) trace.now room.old list.old }
{
    let seen = look_over(version, &trace[at..]);
    let bytes = at + seen.bytes;
    if room.len() < bytes || list.len() / 2 < seen.rows {
        return Err(Refusal::RoomShort);
    }
    write(trace, version, at, room, list);
    Ok(Written {
        bytes,
        rows: seen.rows,
    })
}

// Salvages a trace of either version; when refused, nothing is written.
pub fn salvage(trace: &[u8], room: &mut [u8], list: &mut [u64]) -> Result<Written, Refusal>
    ensures { (salvaged_shown result, room.new, list.new) ≡ salvages trace.now room.old list.old }
{
    let opened = read_header(trace)?;
    let at = body(opened.version, opened.guests as usize);
    sort(trace, opened.version, at, room, list)
}

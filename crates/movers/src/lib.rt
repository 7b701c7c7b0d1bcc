// The moves of a trace from version 1 to version 2, with rule 1, credit 0 and cost 1, and back: from a lent trace into lent room.
#![tactic(auto)]

ghost use Rattle.std.specs.Prelude.{◌≡◌, ◌<◌};
ghost use Rattle.moved.specs.Moves.{moved_shown, moves};

use crate::writing::write;
use movable::judge;
use moved::Stopped;

mod writing; // the bytes of the result

// Moves a trace from one version to another, where it is well-formed, can be said there and has room; else nothing is written.
fn carry(trace: &[u8], from: u64, to: u64, room: &mut [u8]) -> Result<usize, Stopped>
    requires { to < 256 }
    ensures { (moved_shown result, room.new) ≡ moves from to trace.now room.old }
{
    let long = judge(trace, from, to, room.len())?;
    write(trace, from, to, room);
    Ok(long)
}

// Moves a trace of version 1 to version 2.
pub fn up(trace: &[u8], room: &mut [u8]) -> Result<usize, Stopped>
    ensures { (moved_shown result, room.new) ≡ moves 1 2 trace.now room.old }
{
    carry(trace, 1, 2, room)
}

// Moves a trace of version 2 back to version 1.
pub fn back(trace: &[u8], room: &mut [u8]) -> Result<usize, Stopped>
    ensures { (moved_shown result, room.new) ≡ moves 2 1 trace.now room.old }
{
    carry(trace, 2, 1, room)
}

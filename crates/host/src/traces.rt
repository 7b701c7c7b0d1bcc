// The moves of a trace from version 1 to version 2 and back, as C functions.
ghost use Rattle.std.specs.Prelude.{◌≡◌};
ghost use Rattle.moved.specs.Moves.{moves};
ghost use Rattle.hands.specs.Traces.{three_of};

use hands::{Carried, three_of};

// Moves a lent trace of version 1 into lent room, as version 2.
#[unsafe(no_mangle)]
pub extern "C" fn sgq_trace_up(trace: &[u8], room: &mut [u8]) -> Carried
    ensures { (three_of result, room.new) ≡ moves 1 2 trace.now room.old }
{
    let done = movers::up(trace, room);
    three_of(done)
}

// Moves a lent trace of version 2 into lent room, back as version 1.
#[unsafe(no_mangle)]
pub extern "C" fn sgq_trace_back(trace: &[u8], room: &mut [u8]) -> Carried
    ensures { (three_of result, room.new) ≡ moves 2 1 trace.now room.old }
{
    let done = movers::back(trace, room);
    three_of(done)
}

// The salvage of a torn trace, as a C function.
ghost use Rattle.std.specs.Prelude.{◌≡◌};
ghost use Rattle.salvage.specs.Salvages.{salvages};
ghost use Rattle.hands.specs.Traces.{mended_of};

use hands::{Mended, mended_of};

// Salvages a lent trace of either version into lent room, and lists what it drops, two numbers for each: event number from 1, and reason.
#[unsafe(no_mangle)]
pub extern "C" fn sgq_salvage(trace: &[u8], room: &mut [u8], list: &mut [u64]) -> Mended
    ensures { (mended_of result, room.new, list.new) ≡ salvages trace.now room.old list.old }
{
    let done = saves::salvage(trace, room, list);
    mended_of(done)
}

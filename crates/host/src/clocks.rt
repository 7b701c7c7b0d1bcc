// The clock of a board that counts microseconds in 32 bits, as a C function.
ghost use Rattle.std.specs.Prelude.{◌≡◌};
ghost use Rattle.clock.specs.Reading.{doing};

use clock::{Clock, Told};

// A reading of the board's counter, which moves the lent clock on.
#[unsafe(no_mangle)]
pub extern "C" fn sgq_clock_read(clock: &mut Clock, reading: u32) -> Told
    ensures { (result, clock.new) ≡ doing clock.old reading }
{
    clock::read(clock, reading)
}

// The clock of a board that counts microseconds in 32 bits: one record that each reading moves on. It tells the time in nanoseconds, as the gate
// takes it. What a reading does is in specs/Reading.antt. No `requires`: whatever record, whatever reading.
// Whether a reading was taken is a number, and no Option: the record is C's.
#![tactic(auto)]

ghost use Rattle.std.specs.Prelude.{◌≡◌};
ghost use Rattle.clock.specs.Reading.{elapsed as elapsed_of, clock_of, moved_to, doing};

use rules::Refusal;
use tags::CEILING;

// The clock: its time in nanoseconds, the last reading, and whether one was taken: 0 none yet, any other number taken.
#[repr(C)]
#[derive(Clone, Copy)]
pub struct Clock {
    pub time: u64,
    pub last: u32,
    pub started: u32,
}

// What a reading is told: 0 or the number of its refusal, and the clock's time, 0 in a refusal.
#[repr(C)]
#[derive(Clone, Copy)]
pub struct Told {
    pub refusal: u64,
    pub time: u64,
}

// What a reading comes to: what is told, and the clock after it.
#[derive(Clone, Copy)]
struct Turn {
    told: Told,
    clock: Clock,
}

// A microsecond in nanoseconds.
const MICRO: u64 = 1000;

// The time between two readings, in nanoseconds.
fn elapsed(last: u32, reading: u32) -> u64
    ensures { result ≡ elapsed_of last reading }
{
    let between = std::num::wrapping_sub_u32(reading, last);
    between as u64 * MICRO
}

// The clock moved on to these three numbers, and its time told.
fn moved_to(time: u64, last: u32, started: u32) -> Turn
    ensures { (result.told, result.clock) ≡ moved_to (clock_of time last started) }
{
    Turn {
        told: Told {
            refusal: 0,
            time: time,
        },
        clock: Clock {
            time: time,
            last: last,
            started: started,
        },
    }
}

// A reading of the clock that these three numbers are. No sum can wrap: the room up to the ceiling is taken first.
fn advance(time: u64, last: u32, started: u32, reading: u32) -> Turn
    ensures { (result.told, result.clock) ≡ doing (clock_of time last started) reading }
{
    if started == 0 {
        return moved_to(0, reading, 1);
    }
    let since = elapsed(last, reading);
    if CEILING - since < time {
        return Turn {
            told: Told {
                refusal: u64::from(Refusal::TimeAboveCeiling),
                time: 0,
            },
            clock: Clock {
                time: time,
                last: last,
                started: started,
            },
        };
    }
    moved_to(time + since, reading, started)
}

// A reading of a lent clock, which it moves on.
pub fn read(clock: &mut Clock, reading: u32) -> Told
    ensures { (result, clock.new) ≡ doing clock.old reading }
{
    let turn = advance(clock.time, clock.last, clock.started, reading);
    *clock = turn.clock;
    turn.told
}

// What an event does before the choice is made, on a table that is known to be sound: its refusals in their order, then what enters. For this
// repository's own crates, and no public call. Soundness is shown once, where a table comes from, and kept by every event.
// Gate and tables stay side by side for the reason that stands at the head of sends.
#![tactic(auto)]

ghost use Rattle.table.specs.View.{Known};
ghost use Rattle.index.specs.Index.{Beside};
ghost use Rattle.enter.specs.Enters.{Enters, EntersBeside};

use rules::{Event, Gate, Refusal};

pub mod arrive; // an arrival
pub mod events; // a completion and a tick
mod rows; // what an arrival asks of the waiting rows, and the placing

// An event: refused, and every number stands as it did, or entered. The index follows the rows.
pub fn enter(
    gate: Gate,
    guests: &mut [u64],
    waiting: &mut [u64],
    flight: &mut [u64],
    event: Event,
    index: &mut [u16],
) -> Result<Gate, Refusal>
    requires known { Known gate guests.old waiting.old flight.old }
    requires beside { Beside waiting.old index.old gate.waiting }
    ensures enters { Enters event gate guests.old waiting.old flight.old result guests.new waiting.new flight.new }
    ensures enters_beside { EntersBeside gate result waiting.new index.new }
{
    match event {
        Event::Arrival(what, time) => arrive::arrive(
            gate, guests, waiting, flight, what, time, index,
        ),
        Event::Completion(which, time) => events::complete(
            gate, guests, waiting, flight, which, time,
        ),
        Event::Tick(time) => events::wait(gate, guests, waiting, flight, time),
    }
}

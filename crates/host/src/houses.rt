// The calls at one of a house's arrays (document 02, K14), as C functions. The gate is lent as seven numbers, the counters of all arrays and the phases of this one
// behind its tables.
ghost use Rattle.std.specs.Prelude.{◌≡◌};
ghost use Rattle.arrays.specs.declared.Ask.TheVariants.{Arrives, Completes, Ticks};
ghost use Rattle.arrays.specs.Promise.{asked, begun};
ghost use Rattle.hands.specs.Host.{gate_in, site_at, house_hosted};

use arrays::{Asking, Site};
use gate::{Opening, Reply};
use hands::{gate_in, hand_back};
use rules::{Flight, Setup};

// Opens an array: its gate with these counts, under this rule for limits, and with four settings a guest; its counters and phases begin at 0.
#[unsafe(no_mangle)]
pub extern "C" fn sgq_arrays_open(
    seven: &mut [u64; 7],
    arrays: u64,
    array: u64,
    depth: u64,
    known: u64,
    capacity: u64,
    rule: u64,
    settings: &[u64],
    guests: &mut [u64],
    waiting: &mut [u64],
    flight: &mut [u64],
    counters: &mut [u64],
    phases: &mut [u64],
) -> Reply
    ensures { (result, seven.new, guests.new, waiting.new, flight.new, counters.new, phases.new) ≡ house_hosted seven.old (begun (site_at arrays array) depth known capacity rule settings.now guests.old waiting.old flight.old counters.old phases.old) }
{
    let site = Site { arrays, array };
    let setup = Setup {
        depth,
        capacity,
        rule,
    };
    let opening = Opening {
        setup,
        guests: known,
    };
    let outcome = house::open(
        site, opening, settings, guests, waiting, flight, counters, phases,
    );
    hand_back(seven, outcome)
}

// An arrival at an array; what was counted goes with it.
#[unsafe(no_mangle)]
pub extern "C" fn sgq_arrays_arrive(
    seven: &mut [u64; 7],
    arrays: u64,
    array: u64,
    guests: &mut [u64],
    waiting: &mut [u64],
    flight: &mut [u64],
    counters: &mut [u64],
    phases: &mut [u64],
    guest: u64,
    id: u32,
    time: u64,
    cost: u64,
) -> Reply
    ensures { (result, seven.new, guests.new, waiting.new, flight.new, counters.new, phases.new) ≡ house_hosted seven.old (asked (site_at arrays array) (gate_in seven.old) guests.old waiting.old flight.old counters.old phases.old (Arrives (record { guest = guest; id = id; cost = cost }) time)) }
{
    let gate = gate_in(seven);
    let site = Site { arrays, array };
    let which = Asking { guest, id, cost };
    let outcome = house::arrive(
        site, gate, guests, waiting, flight, counters, phases, which, time,
    );
    hand_back(seven, outcome)
}

// A completion at an array; it counts at every array.
#[unsafe(no_mangle)]
pub extern "C" fn sgq_arrays_complete(
    seven: &mut [u64; 7],
    arrays: u64,
    array: u64,
    guests: &mut [u64],
    waiting: &mut [u64],
    flight: &mut [u64],
    counters: &mut [u64],
    phases: &mut [u64],
    guest: u64,
    id: u32,
    time: u64,
) -> Reply
    ensures { (result, seven.new, guests.new, waiting.new, flight.new, counters.new, phases.new) ≡ house_hosted seven.old (asked (site_at arrays array) (gate_in seven.old) guests.old waiting.old flight.old counters.old phases.old (Completes (record { guest = guest; id = id }) time)) }
{
    let gate = gate_in(seven);
    let site = Site { arrays, array };
    let which = Flight { guest, id };
    let outcome = house::complete(
        site, gate, guests, waiting, flight, counters, phases, which, time,
    );
    hand_back(seven, outcome)
}

// A tick at an array.
#[unsafe(no_mangle)]
pub extern "C" fn sgq_arrays_tick(
    seven: &mut [u64; 7],
    arrays: u64,
    array: u64,
    guests: &mut [u64],
    waiting: &mut [u64],
    flight: &mut [u64],
    counters: &mut [u64],
    phases: &mut [u64],
    time: u64,
) -> Reply
    ensures { (result, seven.new, guests.new, waiting.new, flight.new, counters.new, phases.new) ≡ house_hosted seven.old (asked (site_at arrays array) (gate_in seven.old) guests.old waiting.old flight.old counters.old phases.old (Ticks time)) }
{
    let gate = gate_in(seven);
    let site = Site { arrays, array };
    let outcome = house::tick(site, gate, guests, waiting, flight, counters, phases, time);
    hand_back(seven, outcome)
}

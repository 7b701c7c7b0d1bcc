// The calls at one of a house's arrays, over lent numbers: the counters of all arrays, and the gate, the tables and the phases of the one that is named. Any value of
// any number, any length of any slice. What each promises is in crates/arrays/specs/Promise.antt.
// The host lends its slices one by one, so they stay side by side: the C interface.
#![tactic(auto)]

ghost use Rattle.std.specs.Prelude.{◌≡◌};
ghost use Rattle.arrays.specs.declared.Ask.TheVariants.{Arrives, Completes, Ticks};
ghost use Rattle.rules.specs.Refusals.{accept, judged};
ghost use Rattle.arrays.specs.Promise.{seen_at, asked, opening_tests, begun};

use arrays::{Ask, Asking, Site};
use counters::clear_all;
use counters::handing::is_taken;
use follows::follow;
use gate::Opening;
use rules::{Flight, Gate, Outcome};
use sites::{judge, judge_opening};

// What is asked at an array: counters and phases are judged, then guest and array; the gate is asked, and where it accepts, it is counted.
pub fn ask(
    site: Site,
    gate: Gate,
    guests: &mut [u64],
    waiting: &mut [u64],
    flight: &mut [u64],
    counters: &mut [u64],
    phases: &mut [u64],
    what: Ask,
) -> Outcome
    ensures { seen_at (result, guests.new, waiting.new, flight.new, counters.new, phases.new) ≡ seen_at (asked site gate guests.old waiting.old flight.old counters.old phases.old what) }
{
    let found = judge(site, gate, &counters[..], &phases[..], what);
    match found {
        Err(why) => calling::counts::refused(gate, why),
        Ok(()) => follow(site, gate, guests, waiting, flight, counters, phases, what),
    }
}

// A tick at an array.
pub fn tick(
    site: Site,
    gate: Gate,
    guests: &mut [u64],
    waiting: &mut [u64],
    flight: &mut [u64],
    counters: &mut [u64],
    phases: &mut [u64],
    time: u64,
) -> Outcome
    ensures { seen_at (result, guests.new, waiting.new, flight.new, counters.new, phases.new) ≡ seen_at (asked site gate guests.old waiting.old flight.old counters.old phases.old (Ticks time)) }
{
    ask(
        site,
        gate,
        guests,
        waiting,
        flight,
        counters,
        phases,
        Ask::Ticks(time),
    )
}

// A request is completed at an array: it counts for its guest at all of them.
pub fn complete(
    site: Site,
    gate: Gate,
    guests: &mut [u64],
    waiting: &mut [u64],
    flight: &mut [u64],
    counters: &mut [u64],
    phases: &mut [u64],
    which: Flight,
    time: u64,
) -> Outcome
    ensures { seen_at (result, guests.new, waiting.new, flight.new, counters.new, phases.new) ≡ seen_at (asked site gate guests.old waiting.old flight.old counters.old phases.old (Completes which time)) }
{
    let what = Ask::Completes(which, time);
    ask(site, gate, guests, waiting, flight, counters, phases, what)
}

// A request arrives at an array, and its gate is handed what was counted.
pub fn arrive(
    site: Site,
    gate: Gate,
    guests: &mut [u64],
    waiting: &mut [u64],
    flight: &mut [u64],
    counters: &mut [u64],
    phases: &mut [u64],
    which: Asking,
    time: u64,
) -> Outcome
    ensures { seen_at (result, guests.new, waiting.new, flight.new, counters.new, phases.new) ≡ seen_at (asked site gate guests.old waiting.old flight.old counters.old phases.old (Arrives which time)) }
{
    let what = Ask::Arrives(which, time);
    ask(site, gate, guests, waiting, flight, counters, phases, what)
}

// An opening, once nothing stands against opening the gate: where it is accepted, the counters and phases of this array begin at 0.
fn begin(
    site: Site,
    opening: Opening,
    settings: &[u64],
    guests: &mut [u64],
    waiting: &mut [u64],
    flight: &mut [u64],
    counters: &mut [u64],
    phases: &mut [u64],
) -> Outcome
    requires { judged (opening_tests site opening.setup.depth opening.guests opening.setup.capacity opening.setup.rule counters.old phases.old) ≡ accept }
    ensures { (result, guests.new, waiting.new, flight.new, counters.new, phases.new) ≡ begun site opening.setup.depth opening.guests opening.setup.capacity opening.setup.rule settings.now guests.old waiting.old flight.old counters.old phases.old }
{
    let outcome = opens::open(opening, settings, guests, waiting, flight);
    let answer = outcome.answer;
    if !is_taken(answer) {
        return outcome;
    }
    clear_all(counters, opening.guests as usize, site.array as usize);
    phases::clear(phases, opening.setup.depth as usize);
    outcome
}

// Opens an array: its gate with these counts, under this rule, and with four settings a guest; its counters and phases begin at 0.
pub fn open(
    site: Site,
    opening: Opening,
    settings: &[u64],
    guests: &mut [u64],
    waiting: &mut [u64],
    flight: &mut [u64],
    counters: &mut [u64],
    phases: &mut [u64],
) -> Outcome
    ensures { seen_at (result, guests.new, waiting.new, flight.new, counters.new, phases.new) ≡ seen_at (begun site opening.setup.depth opening.guests opening.setup.capacity opening.setup.rule settings.now guests.old waiting.old flight.old counters.old phases.old) }
{
    let found = judge_opening(site, opening, &counters[..], &phases[..]);
    match found {
        Err(why) => opens::not_opened(why),
        Ok(()) => begin(
            site, opening, settings, guests, waiting, flight, counters, phases,
        ),
    }
}

// What follows once a call is judged: the gate is asked, and what it accepts is counted and noted. What has to be known of the tables as they stood is read before the
// gate is asked. Functions for this repository's own crates.
// The host lends its slices one by one, so they stay side by side: the C interface.
#![tactic(auto)]

ghost use Rattle.std.specs.Prelude.{◌≡◌};
ghost use Rattle.rules.specs.Refusals.{accept, judged};
ghost use Rattle.arrays.specs.declared.Ask.TheVariants.{Arrives, Completes, Ticks};
ghost use Rattle.arrays.specs.Promise.{ask_tests, asked};

use arrays::{Ask, Asking, Site};
use counters::handing::{arriving_of, is_taken};
use counters::{Counter, count_all, set_row};
use phases::{BY_RESERVATION, close_up, note, phase_at, place_of};
use rules::{Flight, Gate, Outcome};

// A request arrives: where it is accepted, its guest's counters at this array begin anew.
fn follow_arrival(
    site: Site,
    gate: Gate,
    guests: &mut [u64],
    waiting: &mut [u64],
    flight: &mut [u64],
    counters: &mut [u64],
    phases: &mut [u64],
    which: Asking,
    time: u64,
) -> Outcome
    requires { judged (ask_tests site gate counters.old phases.old (Arrives which time)) ≡ accept }
    ensures { (result, guests.new, waiting.new, flight.new, counters.new, phases.new) ≡ asked site gate guests.old waiting.old flight.old counters.old phases.old (Arrives which time) }
{
    let row = (site.array as usize) * (gate.guests as usize) + (which.guest as usize);
    let what = arriving_of(&counters[..], row, which);
    let outcome = calling::numbers::arrive(gate, guests, waiting, flight, what, time);
    let answer = outcome.answer;
    if !is_taken(answer) {
        return outcome;
    }
    set_row(counters, row, Counter { delta: 0, rho: 0 });
    note(phases, gate.flight as usize, answer);
    outcome
}

// A request completes: where it is accepted, it counts for its guest at every array, and leaves its place.
fn follow_completion(
    site: Site,
    gate: Gate,
    guests: &mut [u64],
    waiting: &mut [u64],
    flight: &mut [u64],
    counters: &mut [u64],
    phases: &mut [u64],
    which: Flight,
    time: u64,
) -> Outcome
    requires { judged (ask_tests site gate counters.old phases.old (Completes which time)) ≡ accept }
    ensures { (result, guests.new, waiting.new, flight.new, counters.new, phases.new) ≡ asked site gate guests.old waiting.old flight.old counters.old phases.old (Completes which time) }
{
    let flying = gate.flight as usize;
    let place = place_of(&flight[..], flying, which);
    let reserved = place.is_some_and(|place| phase_at(&phases[..], place) == BY_RESERVATION);
    let outcome = calling::numbers::complete(gate, guests, waiting, flight, which, time);
    let answer = outcome.answer;
    if !is_taken(answer) {
        return outcome;
    }
    count_all(
        counters,
        site.arrays as usize,
        gate.guests as usize,
        which.guest as usize,
        reserved,
    );
    close_up(phases, flying, place.unwrap());
    note(phases, flying - 1, answer);
    outcome
}

// Time passes: nothing is counted.
fn follow_tick(
    site: Site,
    gate: Gate,
    guests: &mut [u64],
    waiting: &mut [u64],
    flight: &mut [u64],
    counters: &[u64],
    phases: &mut [u64],
    time: u64,
) -> Outcome
    requires { judged (ask_tests site gate counters.now phases.old (Ticks time)) ≡ accept }
    ensures { (result, guests.new, waiting.new, flight.new, counters.now, phases.new) ≡ asked site gate guests.old waiting.old flight.old counters.now phases.old (Ticks time) }
{
    let outcome = calling::numbers::tick(gate, guests, waiting, flight, time);
    let answer = outcome.answer;
    if !is_taken(answer) {
        return outcome;
    }
    note(phases, gate.flight as usize, answer);
    outcome
}

// What is asked at an array, once nothing stands against asking the gate.
pub fn follow(
    site: Site,
    gate: Gate,
    guests: &mut [u64],
    waiting: &mut [u64],
    flight: &mut [u64],
    counters: &mut [u64],
    phases: &mut [u64],
    what: Ask,
) -> Outcome
    requires { judged (ask_tests site gate counters.old phases.old what) ≡ accept }
    ensures { (result, guests.new, waiting.new, flight.new, counters.new, phases.new) ≡ asked site gate guests.old waiting.old flight.old counters.old phases.old what }
{
    match what {
        Ask::Arrives(which, time) => follow_arrival(
            site, gate, guests, waiting, flight, counters, phases, which, time,
        ),
        Ask::Completes(which, time) => follow_completion(
            site, gate, guests, waiting, flight, counters, phases, which, time,
        ),
        Ask::Ticks(time) => follow_tick(
            site,
            gate,
            guests,
            waiting,
            flight,
            &counters[..],
            phases,
            time,
        ),
    }
}

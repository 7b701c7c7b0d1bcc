// Whether lent tables are sound, by the numbers in them. Functions for this repository's own crates.
#![tactic(auto)]

pub mod lengths; // counts in range, and tables long enough for them

ghost use Rattle.std.specs.Prelude.{◌≡◌};
ghost use Rattle.table.specs.View.{sound_numbers};
ghost use Rattle.sound.specs.Fitting.{Fitting};

use entries::requests::{all_fit, all_flown, all_named};
use entries::settings::all_settled;
use orders::all_orderly;
use pairs::all_once;
use ranges::is_ruled;
use rules::Gate;
use tags::CEILING;
use unused::is_clear;

// Whether lent tables that are long enough are sound: the rules in document 01's order; the first broken one ends the test.
pub fn is_sound(gate: Gate, guests: &[u64], waiting: &[u64], flight: &[u64]) -> bool
    requires { Fitting gate guests.now waiting.now flight.now }
    ensures { result ≡ sound_numbers gate guests.now waiting.now flight.now }
{
    let known = gate.guests as usize;
    let capacity = gate.setup.capacity as usize;
    let depth = gate.setup.depth as usize;
    let count = gate.waiting as usize;
    let sent = gate.flight as usize;
    if !is_ruled(gate.setup.rule) {
        return false;
    }
    if !all_settled(guests, known) {
        return false;
    }
    if capacity < count {
        return false;
    }
    if depth < sent {
        return false;
    }
    if CEILING < gate.time {
        return false;
    }
    if !all_named(waiting, count, gate.guests) {
        return false;
    }
    if !all_flown(flight, sent, gate.guests) {
        return false;
    }
    if !all_once(waiting, count, flight, sent) {
        return false;
    }
    if !all_fit(waiting, count) {
        return false;
    }
    if !all_orderly(guests, known, waiting, count) {
        return false;
    }
    is_clear(waiting, count, capacity, flight, sent, depth)
}

// By which phase each request in flight at an array was sent: a lent number beside each place of its flight table.
// crates/arrays/specs/Phases.antt has their meaning. Functions for this repository's own crates.
#![tactic(auto)]

ghost use Rattle.std.specs.Prelude.{◌≡◌, [], ◌+◌, ◌*◌, ◌≤◌, ◌<◌, length, get_or, IfSome};
ghost use Rattle.std.specs.Option.{unwrap_or};
ghost use Rattle.rules.specs.Tables.{same};
ghost use Rattle.table.specs.Columns.{flight_wide};
ghost use Rattle.table.specs.View.{flights_of};
ghost use Rattle.arrays.specs.Phases.{good_phase, in_step, place_of, phases_over};
ghost use Rattle.arrays.specs.Steps.{name_at, closed, noted, Placed};

use calling::counts::{FLIGHT_WIDE, GUEST, ID};
use rules::{Answer, Flight, Phase};

// The number of a request that was sent by reservation; 0 stands at a place that is not used.
pub const BY_RESERVATION: u64 = Phase::Reservation as u64;

// The number of one that was sent by weight.
pub const BY_WEIGHT: u64 = Phase::Weight as u64;

// The number of a place is good, where a request flies there or not.
fn is_good_phase(flies: bool, phase: u64) -> bool
    ensures { result ≡ good_phase flies phase }
{
    if flies {
        matches!(phase, BY_RESERVATION | BY_WEIGHT)
    } else {
        phase == 0
    }
}

// Phases are in step with a flight table of `depth` places in which `flying` requests fly.
pub fn is_in_step(phases: &[u64], flying: u64, depth: usize) -> bool
    requires { depth ≤ length phases.now }
    ensures { result ≡ in_step flying depth phases.now }
{
    if (depth as u64) < flying {
        return false;
    }
    for (place, phase) in phases[..depth].iter().enumerate() {
        if !is_good_phase((place as u64) < flying, *phase) {
            return false;
        }
    }
    true
}

// The request at a place is the one named.
fn is_named(flight: &[u64], place: usize, which: Flight) -> bool
    requires { place * flight_wide + flight_wide ≤ length flight.now }
    ensures { result ≡ same which (name_at flight.now place) }
{
    let at = place * FLIGHT_WIDE;
    which.guest == flight[at + GUEST] && which.id as u64 == flight[at + ID]
}

// Where a request stands among those in flight, if it is there and the table is long enough for so many.
pub fn place_of(flight: &[u64], flying: usize, which: Flight) -> Option<usize>
    ensures place { flying * flight_wide ≤ length flight.now → unwrap_or result flying ≡ place_of which (flights_of flight.now flying) }
    ensures flies { IfSome result (λ place. place < flying) }
{
    if flight.len() / FLIGHT_WIDE < flying {
        return None;
    }
    for place in 0..flying {
        if is_named(flight, place, which) {
            return Some(place);
        }
    }
    None
}

// The number at a place, 0 past the last.
pub fn phase_at(phases: &[u64], place: usize) -> u64
    ensures { result ≡ get_or phases.now place 0 }
{
    phases.get(place).copied().unwrap_or(0)
}

// The phase of what an answer sends is noted at `place`.
pub fn note(phases: &mut [u64], place: usize, answer: Answer)
    requires { Placed answer place phases.old }
    ensures { phases.new ≡ noted answer place phases.old }
{
    if let Answer::Sent { phase, .. } = answer {
        phases[place] = phase as u64;
    }
}

// The request at `place` of `flying` leaves, and those behind it move down one place.
pub fn close_up(phases: &mut [u64], flying: usize, place: usize)
    requires { (place < flying) × (flying ≤ length phases.old) }
    ensures { phases.new ≡ closed flying place phases.old }
{
    phases.copy_within(place + 1..flying, place);
    phases[flying - 1] = 0;
}

// No request flies: zeros at every place.
pub fn clear(phases: &mut [u64], depth: usize)
    requires { depth ≤ length phases.old }
    ensures { phases.new ≡ phases_over depth [] phases.old }
{
    phases[..depth].fill(0);
}

// What is judged before the gate is asked, and before it is opened: the arrays, the gate's counts, the lent counters and phases, the guest, the array named.
// crates/arrays/specs/Promise.antt has the order. Functions for this repository's own crates.
#![tactic(auto)]

ghost use Rattle.std.specs.Prelude.{◌≡◌, [], ◌∷◌, ◌≤◌, leb};
ghost use Rattle.rules.specs.Numbers.{within};
ghost use Rattle.rules.specs.Refusals.{judged};
ghost use Rattle.table.specs.Columns.{most_guests};
ghost use Rattle.arrays.specs.Counters.{most_arrays};
ghost use Rattle.arrays.specs.Promise.{short_at, array_test, place_tests, ask_tests, opening_tests};
ghost use Rattle.arrays.specs.Steps.{verdict_of, lent_tests, guest_tests};

use arrays::{Ask, Site};
use calling::counts::{is_counted, is_ruled};
use counters::{COUNTER_WIDE, MOST_ARRAYS, is_good};
use gate::Opening;
use phases::is_in_step;
use rules::{Gate, Refusal};

// There are as many arrays as a house may have.
fn is_several(arrays: u64) -> bool
    ensures { result ≡ within 1 most_arrays arrays }
{
    (1..=MOST_ARRAYS).contains(&arrays)
}

// Counters or phases are shorter than so many guests at so many arrays and a depth need.
fn is_short(arrays: usize, guests: usize, depth: usize, counters: &[u64], phases: &[u64]) -> bool
    requires { (arrays ≤ most_arrays) × (guests ≤ most_guests) }
    ensures { result ≡ short_at arrays guests depth counters.now phases.now }
{
    counters.len() < arrays * guests * COUNTER_WIDE || phases.len() < depth
}

// The arrays, the gate's counts, and the counters and phases, which are lent beside its tables: 22, 3, 2, 3.
fn judge_lent(site: Site, gate: Gate, counters: &[u64], phases: &[u64]) -> Result<(), Refusal>
    ensures { verdict_of result ≡ judged (lent_tests site gate counters.now phases.now) }
{
    if !is_several(site.arrays) {
        return Err(Refusal::NoArray);
    }
    if !is_counted(gate.setup.depth, gate.guests, gate.setup.capacity) {
        return Err(Refusal::Unsound);
    }
    let arrays = site.arrays as usize;
    let guests = gate.guests as usize;
    let depth = gate.setup.depth as usize;
    if is_short(arrays, guests, depth, counters, phases) {
        return Err(Refusal::ShortTable);
    }
    if !is_good(counters, arrays * guests) || !is_in_step(phases, gate.flight, depth) {
        return Err(Refusal::Unsound);
    }
    Ok(())
}

// The array that is named is not there.
fn is_absent(site: Site) -> bool
    ensures { result ≡ leb site.arrays site.array }
{
    site.arrays <= site.array
}

// The array that is named: 22.
fn judge_array(site: Site) -> Result<(), Refusal>
    ensures { verdict_of result ≡ judged (array_test site ∷ []) }
{
    if is_absent(site) {
        return Err(Refusal::NoArray);
    }
    Ok(())
}

// A guest, and the array that is named: 4, 22.
fn judge_guest(site: Site, gate: Gate, guest: u64) -> Result<(), Refusal>
    ensures { verdict_of result ≡ judged (guest_tests site gate guest) }
{
    if gate.guests <= guest {
        return Err(Refusal::UnknownGuest);
    }
    judge_array(site)
}

// The guest of what is asked, where it has one, and the array that is named.
fn judge_place(site: Site, gate: Gate, what: Ask) -> Result<(), Refusal>
    ensures { verdict_of result ≡ judged (place_tests site gate what) }
{
    match what {
        Ask::Arrives(which, _) => judge_guest(site, gate, which.guest),
        Ask::Completes(which, _) => judge_guest(site, gate, which.guest),
        Ask::Ticks(_) => judge_array(site),
    }
}

// All that is judged before the gate is asked.
pub fn judge(
    site: Site,
    gate: Gate,
    counters: &[u64],
    phases: &[u64],
    what: Ask,
) -> Result<(), Refusal>
    ensures { verdict_of result ≡ judged (ask_tests site gate counters.now phases.now what) }
{
    judge_lent(site, gate, counters, phases)?;
    judge_place(site, gate, what)
}

// All that is judged before the gate is opened: 22, 1, 2.
pub fn judge_opening(
    site: Site,
    opening: Opening,
    counters: &[u64],
    phases: &[u64],
) -> Result<(), Refusal>
    ensures { verdict_of result ≡ judged (opening_tests site opening.setup.depth opening.guests opening.setup.capacity opening.setup.rule counters.now phases.now) }
{
    if !is_several(site.arrays) || is_absent(site) {
        return Err(Refusal::NoArray);
    }
    let setup = opening.setup;
    if !is_counted(setup.depth, opening.guests, setup.capacity) || !is_ruled(setup.rule) {
        return Err(Refusal::BadSetting);
    }
    let arrays = site.arrays as usize;
    let guests = opening.guests as usize;
    let places = opening.setup.depth as usize;
    if is_short(arrays, guests, places, counters, phases) {
        return Err(Refusal::ShortTable);
    }
    Ok(())
}

// The public call that opens a gate over lent numbers, in rows of the widths of table::columns. It has no `requires`: it takes whatever it is handed. What it promises
// is in crates/gate/specs/Promise.antt.
#![tactic(auto)]

ghost use Rattle.std.specs.Prelude.{◌≡◌};
ghost use Rattle.gate.specs.Promise.{seen, opened};
ghost use Rattle.gate.specs.Judges.{JudgesOpening, not_opened};

use entries::settings::all_settled_list;
use gate::Opening;
use ranges::is_ruled;
use rules::{Answer, Gate, Outcome, Refusal, Setup};
use sound::lengths::{is_countable, is_short};
use table::columns::{FLIGHT_WIDE, SETTINGS_WIDE, WAITING_WIDE};
use table::gates;

// What a refused opening answers: a gate of zeros, so that nothing is open, and the refusal.
pub fn not_opened(why: Refusal) -> Outcome
    ensures { result ≡ not_opened why }
{
    let none = Setup {
        depth: 0,
        capacity: 0,
        rule: 0,
    };
    gates::refused(gates::gate_at(none, 0, 0, 0, 0), why)
}

// An opening judged, in document 01's order: counts and rule, lengths, settings.
fn judge_opening(
    gate: Gate,
    settings: &[u64],
    guests: &[u64],
    waiting: &[u64],
    flight: &[u64],
) -> Result<(), Refusal>
    ensures { JudgesOpening gate.setup.depth gate.guests gate.setup.capacity gate.setup.rule settings.now guests.now waiting.now flight.now result }
{
    if !is_countable(gate) {
        return Err(Refusal::BadSetting);
    }
    if !is_ruled(gate.setup.rule) {
        return Err(Refusal::BadSetting);
    }
    let known = gate.guests as usize;
    if settings.len() < known * SETTINGS_WIDE {
        return Err(Refusal::ShortTable);
    }
    if is_short(gate, guests, waiting, flight) {
        return Err(Refusal::ShortTable);
    }
    if !all_settled_list(settings, known) {
        return Err(Refusal::BadSetting);
    }
    Ok(())
}

// Opening: the lent tables become a fresh table of these settings, four numbers a guest. Nothing waits in it, so no tick would send.
pub fn open(
    opening: Opening,
    settings: &[u64],
    guests: &mut [u64],
    waiting: &mut [u64],
    flight: &mut [u64],
) -> Outcome
    ensures { seen (result, guests.new, waiting.new, flight.new) ≡ seen (opened opening.setup.depth opening.guests opening.setup.capacity opening.setup.rule settings.now guests.old waiting.old flight.old) }
{
    let gate = gates::gate_at(opening.setup, opening.guests, 0, 0, 0);
    let found = judge_opening(gate, settings, &guests[..], &waiting[..], &flight[..]);
    match found {
        Err(why) => not_opened(why),
        Ok(()) => {
            let count = opening.guests as usize;
            let rooms = opening.setup.capacity as usize;
            let places = opening.setup.depth as usize;
            places::start(guests, settings, count);
            moves::rows::clear(waiting, rooms * WAITING_WIDE);
            moves::rows::clear(flight, places * FLIGHT_WIDE);
            gates::answered(gate, Answer::Nothing, None)
        }
    }
}

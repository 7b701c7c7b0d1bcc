// The gate after each kind of move, the decision of a send, and the outcome of a refusal. A gate is made from its parts in one place, and so are
// a decision and an outcome. No table is touched here.
ghost use Rattle.std.specs.Prelude.{◌≡◌, ◌≤◌, ◌<◌};
ghost use Rattle.table.specs.Columns.{most_depth, most_capacity};
ghost use Rattle.table.specs.View.{gate_at, decision_of, outcome_of};
ghost use Rattle.table.specs.Does.{timed_gate, freed_gate, placed_gate, refusing, sending};

use rules::{Answer, Gate, Outcome, Phase, Refusal, Setup};

// The gate of these settings at a time, with so many waiting and so many in flight.
pub fn gate_at(setup: Setup, guests: u64, time: u64, waiting: u64, flight: u64) -> Gate
    ensures { result ≡ gate_at setup guests time waiting flight }
{
    Gate {
        setup: setup,
        guests: guests,
        time: time,
        waiting: waiting,
        flight: flight,
    }
}

// What an event comes to: the gate after it, and its answer. When to wake the gate is asked apart, and only where someone wants to know.
#[derive(Drop)]
pub struct Decision {
    pub gate: Gate,
    pub answer: Answer,
}

// The decision of these parts.
pub fn decided(gate: Gate, answer: Answer) -> Decision
    ensures { result ≡ decision_of gate answer }
{
    Decision {
        gate: gate,
        answer: answer,
    }
}

// The outcome of a call: the gate after it, its answer, and when to wake the gate.
pub fn answered(gate: Gate, answer: Answer, wake: Option<u64>) -> Outcome
    ensures { result ≡ outcome_of gate answer wake }
{
    Outcome {
        gate: gate,
        answer: answer,
        wake: wake,
    }
}

// A refusal leaves the gate as it stood, and carries no time to wake: 0 stands in its place.
pub fn refused(gate: Gate, why: Refusal) -> Outcome
    ensures { result ≡ refusing why gate }
{
    answered(gate, Answer::Refused(why), Some(0))
}

// A request of `guest` with this id went from the waiting to the array.
pub fn sent(gate: Gate, phase: Phase, guest: u64, id: u32) -> Decision
    requires { (0 < gate.waiting) × (gate.flight < gate.setup.depth) × (gate.setup.depth ≤ most_depth) }
    ensures { result ≡ sending phase guest id gate }
{
    let setup = gate.setup;
    let after = gate_at(
        setup,
        gate.guests,
        gate.time,
        gate.waiting - 1,
        gate.flight + 1,
    );
    decided(
        after,
        Answer::Sent {
            phase: phase,
            guest: guest,
            id: id,
        },
    )
}

// Only the time moves on.
pub fn timed(gate: Gate, time: u64) -> Gate
    ensures { result ≡ timed_gate time gate }
{
    let setup = gate.setup;
    gate_at(setup, gate.guests, time, gate.waiting, gate.flight)
}

// A request left the array.
pub fn freed(gate: Gate, time: u64) -> Gate
    requires { 0 < gate.flight }
    ensures { result ≡ freed_gate time gate }
{
    let setup = gate.setup;
    gate_at(setup, gate.guests, time, gate.waiting, gate.flight - 1)
}

// A request stands last among the waiting.
pub fn placed(gate: Gate, time: u64) -> Gate
    requires { gate.waiting ≤ most_capacity }
    ensures { result ≡ placed_gate time gate }
{
    let setup = gate.setup;
    gate_at(setup, gate.guests, time, gate.waiting + 1, gate.flight)
}

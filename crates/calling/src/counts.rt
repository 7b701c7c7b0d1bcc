// What a product above the gate needs to know of it beside its calls: whether counts and a rule lie in their ranges, how a request in flight stands in its
// row, and what a call that is not made answers.
ghost use Rattle.std.specs.Prelude.{◌≡◌};
ghost use Rattle.rules.specs.Sound.{counted, ruled};
ghost use Rattle.rules.specs.Waking.{unsaid};
ghost use Rattle.rules.specs.declared.Answer.TheVariants.{Refused};
ghost use Rattle.table.specs.View.{outcome_of};

use rules::{Gate, Outcome, Refusal};

// Where a request's guest stands in its row of the flight table.
pub const GUEST: usize = table::columns::GUEST;

// Where its id stands there.
pub const ID: usize = table::columns::ID;

// How many numbers the row has.
pub const FLIGHT_WIDE: usize = table::columns::FLIGHT_WIDE;

// Depth, guests and capacity lie in their ranges.
pub fn is_counted(depth: u64, guests: u64, capacity: u64) -> bool
    ensures { result ≡ counted depth guests capacity }
{
    ranges::is_counted(depth, guests, capacity)
}

// The rule for limits is 1 or 2.
pub fn is_ruled(rule: u64) -> bool
    ensures { result ≡ ruled rule }
{
    ranges::is_ruled(rule)
}

// A refusal at a gate: it stays as it stood.
pub fn refused(gate: Gate, why: Refusal) -> Outcome
    ensures { result ≡ outcome_of gate (Refused why) unsaid }
{
    table::gates::refused(gate, why)
}

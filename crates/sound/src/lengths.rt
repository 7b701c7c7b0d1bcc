// Whether the counts of a gate lie in their ranges, and whether lent tables are long enough for them.
ghost use Rattle.std.specs.Prelude.{◌≡◌};
ghost use Rattle.table.specs.View.{countable, short};

use ranges::is_counted;
use rules::Gate;
use table::columns::{FLIGHT_WIDE, GUEST_WIDE, WAITING_WIDE};

// Depth, guests and capacity lie in their ranges.
pub fn is_countable(gate: Gate) -> bool
    ensures { result ≡ countable gate }
{
    is_counted(gate.setup.depth, gate.guests, gate.setup.capacity)
}

// A lent table is shorter than the settings need; where the counts are out of range nothing is known to be needed.
pub fn is_short(gate: Gate, guests: &[u64], waiting: &[u64], flight: &[u64]) -> bool
    ensures { result ≡ short gate guests.now waiting.now flight.now }
{
    if !is_countable(gate) {
        return false;
    }
    let known = gate.guests as usize;
    let capacity = gate.setup.capacity as usize;
    let depth = gate.setup.depth as usize;
    if guests.len() < known * GUEST_WIDE {
        return true;
    }
    if waiting.len() < capacity * WAITING_WIDE {
        return true;
    }
    flight.len() < depth * FLIGHT_WIDE
}

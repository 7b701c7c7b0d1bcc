// The walk over what is in flight that finds a name. It reads and changes nothing.
ghost use Rattle.std.specs.Prelude.{◌*◌, ◌≤◌, length};
ghost use Rattle.table.specs.Columns.{flight_wide, most_depth};
ghost use Rattle.table.specs.View.{flights_of};
ghost use Rattle.walks.specs.Walks.{Finds};

use table::columns::{FLIGHT_WIDE, GUEST, ID};

// The first place in flight with this guest and this id.
pub fn find_flight(flight: &[u64], count: usize, guest: u64, id: u64) -> Option<usize>
    requires { (count ≤ most_depth) × (count * flight_wide ≤ length flight.now) }
    ensures { Finds (record { guest = guest; id = id }) (flights_of flight.now count) result }
{
    for place in 0..count {
        let at = place * FLIGHT_WIDE;
        if flight[at + GUEST] == guest && flight[at + ID] == id {
            return Some(place);
        }
    }
    None
}

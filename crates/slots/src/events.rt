// A lent list of events, a row of numbers each: kind (0 arrival, 1 completion, 2 tick), guest, id, time, cost, delta, rho.
ghost use Rattle.std.specs.Prelude.{◌≡◌, ◌<◌};
ghost use Rattle.batch.specs.Rows.{count_of, event_from, event_at};

use rules::{Arriving, Event, Flight};

// How many numbers a row has.
pub const EVENT_WIDE: usize = 7;

// Where the kind stands in a row.
pub const EVENT_KIND: usize = 0;

// Where the guest stands.
pub const EVENT_GUEST: usize = 1;

// Where the id stands.
pub const EVENT_ID: usize = 2;

// Where the time stands.
pub const EVENT_TIME: usize = 3;

// Where an arrival's cost stands.
pub const EVENT_COST: usize = 4;

// Where its delta stands.
pub const EVENT_DELTA: usize = 5;

// Where its rho stands.
pub const EVENT_RHO: usize = 6;

// The most events of one call.
pub const MOST_EVENTS: usize = 256;

// The event that seven numbers are, or none: refusal 14.
// The kind is the number that C hands over, and this is the one place that reads it.
#[tactic(auto, unfolding(batch::specs::Rows::event_from))]
fn event_from(
    kind: u64,
    guest: u64,
    id: u64,
    time: u64,
    cost: u64,
    delta: u64,
    rho: u64,
) -> Option<Event>
    ensures { result ≡ event_from kind guest id time cost delta rho }
{
    let id = u32::try_from(id).ok()?;
    let bare = cost == 0 && delta == 0 && rho == 0;
    match kind {
        0 => {
            let what = Arriving {
                guest,
                id,
                cost,
                delta,
                rho,
            };
            Some(Event::Arrival(what, time))
        }
        1 if bare => Some(Event::Completion(Flight { guest, id }, time)),
        2 if bare && guest == 0 && id == 0 => Some(Event::Tick(time)),
        _ => None,
    }
}

// The event of row k.
pub fn event_at(events: &[u64], k: usize) -> Option<Event>
    requires { k < count_of events.now }
    ensures { result ≡ event_at events.now k }
{
    let from = k * EVENT_WIDE;
    event_from(
        events[from + EVENT_KIND],
        events[from + EVENT_GUEST],
        events[from + EVENT_ID],
        events[from + EVENT_TIME],
        events[from + EVENT_COST],
        events[from + EVENT_DELTA],
        events[from + EVENT_RHO],
    )
}

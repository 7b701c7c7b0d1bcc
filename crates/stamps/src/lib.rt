// The tags of a request that arrives, and the row that it gets with them. Functions for this repository's own crates.
#![tactic(auto)]

ghost use Rattle.std.specs.Prelude.{◌≡◌};
ghost use Rattle.lists.specs.Lines.{line_at};
ghost use Rattle.rules.specs.Events.{raised};
ghost use Rattle.table.specs.Columns.{guest_wide};
ghost use Rattle.table.specs.View.{guest_form};
ghost use Rattle.stamps.specs.Arrive.{stamp_of, Stampable, Placeable, Placed};

use places::Placing;
use rules::{Arriving, Gate};
use table::columns::{CREDIT, GUEST_WIDE, LIMIT, LNEXT, RESERVATION, RNEXT, SHARES, SNEXT};
use table::gates;
use tags::{Down, Stamp, Up, raised};

// The tags of a request that arrives: of each kind its guest has, the larger of the next number, raised for delta or rho, and the time; but the share tag may
// lie back by its credit, and at an idle guest it is not later than the time.
pub fn tags_of(guests: &[u64], what: Arriving, time: u64, idle: bool) -> Stamp
    requires { Stampable guests.now what }
    ensures { result ≡ stamp_of idle time (raised what (guest_form.read (line_at guest_wide guests.now what.guest))) }
{
    let g = what.guest as usize;
    let reservation = guests[g * GUEST_WIDE + RESERVATION];
    let limit = guests[g * GUEST_WIDE + LIMIT];
    let rnext = guests[g * GUEST_WIDE + RNEXT];
    let lnext = guests[g * GUEST_WIDE + LNEXT];
    let snext = guests[g * GUEST_WIDE + SNEXT];
    let shares = guests[g * GUEST_WIDE + SHARES];
    let credit = guests[g * GUEST_WIDE + CREDIT];
    let r = raised::<Down>(what.rho, reservation, rnext);
    let l = raised::<Up>(what.delta, limit, lnext);
    let s = raised::<Down>(what.delta, shares, snext);
    let rtag = tags::tag_if(0 < reservation, time, r);
    let ltag = tags::tag_if(0 < limit, time, l);
    let stag = tags::share_tag(idle, time, s, shares, credit);
    Stamp {
        rtag: rtag,
        ltag: ltag,
        stag: stag,
    }
}

// The request is placed last among the waiting, and its guest's next numbers follow it.
pub fn place(
    gate: Gate,
    guests: &mut [u64],
    waiting: &mut [u64],
    what: Arriving,
    time: u64,
    stamp: Stamp,
) -> Gate
    requires { Placeable gate guests.old waiting.old what stamp }
    ensures { Placed gate guests.old waiting.old what time stamp result guests.new waiting.new }
{
    let count = gate.waiting as usize;
    let placing = Placing {
        guest: what.guest,
        id: what.id as u64,
        stamp: stamp,
        cost: what.cost,
    };
    places::append(waiting, count, placing);
    places::follow(guests, placing);
    gates::placed(gate, time)
}

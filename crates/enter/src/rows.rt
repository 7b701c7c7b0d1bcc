// What an arrival asks of the waiting rows, and the placing, with their index beside them. One of no numbers is none: then the rows are walked.
ghost use Rattle.std.specs.Prelude.{◌≡◌, map, ◌*◌, ◌≤◌, ◌<◌, length};
ghost use Rattle.lists.specs.Words.{lowest};
ghost use Rattle.rules.specs.Tables.{Request};
ghost use Rattle.table.specs.Columns.{waiting_wide, most_guests, most_capacity};
ghost use Rattle.table.specs.View.{waiting_of};
ghost use Rattle.walks.specs.Walks.{Owned, Rising};
ghost use Rattle.walks.specs.Survey.{own_of, highest};
ghost use Rattle.stamps.specs.Arrive.{Placeable, Placed};
ghost use Rattle.index.specs.Index.{Beside};

use rules::{Arriving, Gate};
use stamps::place;
use tags::Stamp;
use walks::survey::{Own, Span};

// What waits of a guest, beside a request of this id: along its own rows where there is an index.
pub fn own_rows(waiting: &[u64], count: usize, guest: u64, id: u64, index: &[u16]) -> Own
    requires count_le_most_capacity { (count ≤ most_capacity) × (count * waiting_wide ≤ length waiting.now) × (guest < most_guests) }
    requires beside { Beside waiting.now index.now count }
    ensures { result ≡ own_of (record { guest = guest; id = id }) (waiting_of waiting.now count) }
{
    if index.len() == 0 {
        return walks::survey::own_rows(waiting, count, guest, id);
    }
    seeks::own_rows(waiting, count, guest, id, index)
}

// The ends of the share tags waiting: by the first and the last row of each guest where there is an index, and more rows than are as well walked.
pub fn ends(waiting: &[u64], count: usize, known: usize, index: &[u16]) -> Span
    requires count_le_most_capacity { (count ≤ most_capacity) × (count * waiting_wide ≤ length waiting.now) × (known ≤ most_guests) }
    requires owned { Owned waiting.now count known × Rising waiting.now count }
    requires beside { Beside waiting.now index.now count }
    ensures { (result.least ≡ lowest (map Request.stag (waiting_of waiting.now count))) × (result.most ≡ highest (map Request.stag (waiting_of waiting.now count))) }
{
    if index::is_walked(index, count) {
        return walks::survey::ends(waiting, count);
    }
    spans::ends(waiting, count, known, index)
}

// The request is placed last among the waiting, and the index follows.
pub fn place_last(
    gate: Gate,
    guests: &mut [u64],
    waiting: &mut [u64],
    what: Arriving,
    time: u64,
    stamp: Stamp,
    index: &mut [u16],
) -> Gate
    requires placeable { Placeable gate guests.old waiting.old what stamp }
    requires waiting_lt_most_capacity { (gate.waiting < most_capacity) × (what.guest < most_guests) × Beside waiting.old index.old gate.waiting }
    ensures placed { Placed gate guests.old waiting.old what time stamp result guests.new waiting.new }
    ensures beside { Beside waiting.new index.new result.waiting }
{
    let count = gate.waiting as usize;
    let guest = what.guest;
    let after = place(gate, guests, waiting, what, time, stamp);
    index::keep_placed(index, count, guest);
    after
}

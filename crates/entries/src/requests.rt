// Whether each request, by itself, is one: its guest exists, its id has 32 bits, its tags are at most the ceiling, its cost is from 1 to 64.
ghost use Rattle.std.specs.Prelude.{◌≡◌, ◌*◌, ◌≤◌, ◌<◌, length};
ghost use Rattle.lists.specs.Words.{all};
ghost use Rattle.lists.specs.Lines.{lines_of};
ghost use Rattle.rules.specs.Tables.{name};
ghost use Rattle.table.specs.Columns.{ID, flight_wide, waiting_wide};
ghost use Rattle.table.specs.View.{waiting_of, flights_of, name_is};
ghost use Rattle.entries.specs.Tests.{named, named_row, fits, stamped_as};

use ranges::is_fair;
use table::columns::{COST, FLIGHT_WIDE, GUEST, ID, LTAG, RTAG, STAG, WAITING_WIDE};
use tags::Stamp;

// One request's name: of `known` guests its guest exists, and its id has 32 bits.
fn is_named(guest: u64, id: u64, known: u64) -> bool
    ensures { result ≡ named known (name_is guest id) }
{
    guest < known && id < 4294967296
}

// The name that begins each of the first rows, WIDE numbers each, is one.
fn are_named<const WIDE: usize>(rows: &[u64], count: usize, known: u64) -> bool
    requires { (count * WIDE ≤ length rows.now) × (ID < WIDE) }
    ensures { result ≡ all (named_row known) (lines_of WIDE rows.now count) }
{
    for i in (0..count).rev() {
        let guest = rows[i * WIDE + GUEST];
        let id = rows[i * WIDE + ID];
        if !is_named(guest, id, known) {
            return false;
        }
    }
    true
}

// Every waiting request's guest exists, and its id has 32 bits.
pub fn all_named(waiting: &[u64], count: usize, known: u64) -> bool
    requires { count * waiting_wide ≤ length waiting.now }
    ensures { result ≡ all (λ q. named known (name q)) (waiting_of waiting.now count) }
{
    are_named::<WAITING_WIDE>(waiting, count, known)
}

// Every guest of a request in flight exists, and its id has 32 bits.
pub fn all_flown(flight: &[u64], count: usize, known: u64) -> bool
    requires { count * flight_wide ≤ length flight.now }
    ensures { result ≡ all (named known) (flights_of flight.now count) }
{
    are_named::<FLIGHT_WIDE>(flight, count, known)
}

// One request's tags are at most the ceiling, and its cost is fair.
#[tactic(auto, unfolding(rules::specs::Sound::lawful))]
fn is_fit(stamp: Stamp, cost: u64) -> bool
    ensures { result ≡ fits (stamped_as stamp.rtag stamp.ltag stamp.stag cost) }
{
    stamp.fits() && is_fair(cost)
}

// Every waiting request's tags are at most the ceiling, and its cost is fair.
pub fn all_fit(waiting: &[u64], count: usize) -> bool
    requires { count * waiting_wide ≤ length waiting.now }
    ensures { result ≡ all fits (waiting_of waiting.now count) }
{
    for i in (0..count).rev() {
        let stamp = Stamp {
            rtag: waiting[i * WAITING_WIDE + RTAG],
            ltag: waiting[i * WAITING_WIDE + LTAG],
            stag: waiting[i * WAITING_WIDE + STAG],
        };
        let cost = waiting[i * WAITING_WIDE + COST];
        if !is_fit(stamp, cost) {
            return false;
        }
    }
    true
}

// The drop after a weight send, on the lent tables. The contract says what becomes of the numbers; DropLaws of `moves` says which lists of document 01 they then
// show. Functions for this repository's own crates.
#![tactic(auto)]

ghost use Rattle.std.specs.Prelude.{◌≡◌, ◌+◌, ◌-◌, ◌*◌, ◌≤◌, eqb, length, MatchOption};
ghost use Rattle.lists.specs.Lines.{whether};
ghost use Rattle.rules.specs.Numbers.{ceiling, second, most_cost};
ghost use Rattle.table.specs.Columns.{RESERVATION, guest_wide, waiting_wide, guest_at};
ghost use Rattle.drops.specs.Fall.{Falls};
ghost use Rattle.moves.specs.Moves.{fall_of, last_past, next_dropped, tags_dropped, Lawful, Unreserved};

use table::columns::{COST, GUEST, GUEST_WIDE, RESERVATION, RNEXT, RTAG, WAITING_WIDE};
use tags::{Down, Rounding};

// A tag of `owner`, d earlier where the owner is `guest`, but never below 0.
fn lowered(owner: u64, guest: u64, tag: u64, d: u64) -> u64
    ensures { result ≡ whether (eqb owner guest) (tag - d) tag }
{
    if owner == guest {
        tag.saturating_sub(d)
    } else {
        tag
    }
}

// What follows a request of `owner` with this tag and cost, where the owner is `guest`; else the next number as it was.
fn past(owner: u64, guest: u64, tag: u64, cost: u64, spacing: u64, next: u64) -> u64
    requires { (tag ≤ ceiling) × (cost ≤ most_cost) × (spacing ≤ second) }
    ensures { result ≡ whether (eqb owner guest) (tag + cost * spacing) next }
{
    if owner == guest {
        tag + cost * spacing
    } else {
        next
    }
}

// What a weight send does to the reservation numbers of its guest.
#[derive(Drop)]
pub struct Fall {
    // The guest's spacing.
    pub spacing: u64,
    // How far each of its tags drops.
    pub by: u64,
    // Its next number, dropped alike.
    pub next: u64,
}

// The fall of `guest` after a weight send at this cost; none, if it has no reservation.
pub fn fall_after(guests: &[u64], guest: u64, cost: u64) -> Option<Fall>
    requires { (guest * guest_wide + guest_wide ≤ length guests.now) × (cost ≤ most_cost) }
    ensures { MatchOption result (guest_at guests.now guest RESERVATION ≡ 0) (λ f. Falls guest cost guests.now f) }
{
    let from = (guest as usize) * GUEST_WIDE;
    let r = guests[from + RESERVATION];
    if r == 0 {
        return None;
    }
    let spacing = Down::spacing(r);
    let by = cost * spacing;
    let next = guests[from + RNEXT].saturating_sub(by);
    Some(Fall { spacing, by, next })
}

// Every reservation tag of `guest` drops by its fall, but never below 0. What follows the last of them is handed back, or the next number where there is none.
fn lower(waiting: &mut [u64], count: usize, guest: u64, fall: Fall) -> u64
    requires { (count * waiting_wide ≤ length waiting.old) × (fall.spacing ≤ second) × Lawful count waiting.old }
    ensures waiting_after { waiting.new ≡ tags_dropped guest fall.by waiting.old count }
    ensures value { result ≡ last_past guest fall.by fall.spacing fall.next waiting.old count }
{
    let mut after = fall.next;
    for i in 0..count {
        let from = i * WAITING_WIDE;
        let g = waiting[from + GUEST];
        let r = waiting[from + RTAG];
        let c = waiting[from + COST];
        let q = lowered(g, guest, r, fall.by);
        after = past(g, guest, q, c, fall.spacing, after);
        waiting[from + RTAG] = q;
    }
    after
}

// After a weight send at this cost: each reservation tag of `guest` drops by the cost times its spacing, if it has one, but never below 0; its next reservation
// number follows the last of them, or with none waiting drops alike.
pub fn drop_tags(guests: &mut [u64], waiting: &mut [u64], count: usize, guest: u64, cost: u64)
    requires guest_wide_in_bounds { (guest * guest_wide + guest_wide ≤ length guests.old) × (count * waiting_wide ≤ length waiting.old) }
    requires cost_le_most_cost { (cost ≤ most_cost) × Lawful count waiting.old × Unreserved guest count guests.old waiting.old }
    ensures guests_after { guests.new ≡ next_dropped guest cost count waiting.old guests.old }
    ensures waiting_after { waiting.new ≡ tags_dropped guest (fall_of guest cost guests.old) waiting.old count }
{
    let Some(fall) = fall_after(guests, guest, cost) else {
        return;
    };
    let next = lower(waiting, count, guest, fall);
    guests[(guest as usize) * GUEST_WIDE + RNEXT] = next;
}

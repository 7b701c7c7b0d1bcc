// The settling of the shares when an idle guest's request arrives: every waiting share tag, and the next share number of every guest with
// something waiting, moves by time − m, up or down. One pass over the waiting rows and one over the guests.
#![tactic(auto)]

ghost use Rattle.std.specs.Prelude.{◌≡◌, ℕ, ◌*◌, ◌+◌, ◌-◌, ◌≤◌, ◌<◌, false, eqb, length, get_or};
ghost use Rattle.table.specs.Columns.{guest_wide, GUEST, waiting_wide, most_guests, most_capacity, waiting_at};
ghost use Rattle.walks.specs.Survey.{idle_in};
ghost use Rattle.shares.specs.Shares.{Movable, TagsMove, NextsMove, Marked, moved_tags, moved_unless, moved_nexts};

use table::columns::{GUEST, GUEST_WIDE, MOST_GUESTS, SNEXT, STAG, WAITING_WIDE};

// A share number moved by time − m, up or down.
fn moved(x: u64, time: u64, m: u64) -> u64
    requires { Movable time m x }
    ensures { result ≡ x + time - m }
{
    x + time - m
}

// Every waiting share tag moves, and every guest with something waiting is marked.
fn move_tags(waiting: &mut [u64], count: usize, time: u64, m: u64, busy: &mut [u64; MOST_GUESTS])
    requires count_le_most_capacity { (count ≤ most_capacity) × (count * waiting_wide ≤ length waiting.old) }
    requires by_index { (k : ℕ) → k < count → waiting_at waiting.old k GUEST < most_guests }
    requires tags_move { TagsMove time m waiting.old count }
    ensures waiting_after { waiting.new ≡ moved_tags time m waiting.old count }
    ensures marked { Marked waiting.old count busy.old busy.new }
{
    for i in 0..count {
        let g = waiting[i * WAITING_WIDE + GUEST] as usize;
        let tag = waiting[i * WAITING_WIDE + STAG];
        let to = moved(tag, time, m);
        waiting[i * WAITING_WIDE + STAG] = to;
        busy[g] = 1;
    }
}

// A next share number, moved where the mark is not 0.
fn next_share(mark: u64, next: u64, time: u64, m: u64) -> u64
    requires { eqb mark 0 ≡ false → Movable time m next }
    ensures { result ≡ moved_unless (eqb mark 0) time m next }
{
    if mark == 0 {
        next
    } else {
        moved(next, time, m)
    }
}

// The next share number of every marked guest moves.
fn move_nexts(guests: &mut [u64], known: usize, busy: &[u64; MOST_GUESTS], time: u64, m: u64)
    requires known_le_most_guests { (known ≤ most_guests) × (known * guest_wide ≤ length guests.old) }
    requires nexts_move { NextsMove time m (λ g. eqb (get_or busy.now g 0) 0) guests.old known }
    ensures { guests.new ≡ moved_nexts time m (λ g. eqb (get_or busy.now g 0) 0) guests.old known }
{
    for g in 0..known {
        let next = guests[g * GUEST_WIDE + SNEXT];
        let to = next_share(busy[g], next, time, m);
        guests[g * GUEST_WIDE + SNEXT] = to;
    }
}

// The settling of the shares, whole.
pub fn adjust(
    guests: &mut [u64],
    known: usize,
    waiting: &mut [u64],
    count: usize,
    time: u64,
    m: u64,
)
    requires known_le_most_guests { (known ≤ most_guests) × (known * guest_wide ≤ length guests.old) × (count ≤ most_capacity) × (count * waiting_wide ≤ length waiting.old) }
    requires by_index { (k : ℕ) → k < count → waiting_at waiting.old k GUEST < known }
    requires tags_move { TagsMove time m waiting.old count × NextsMove time m (idle_in waiting.old count) guests.old known }
    ensures guests_after { guests.new ≡ moved_nexts time m (idle_in waiting.old count) guests.old known }
    ensures waiting_after { waiting.new ≡ moved_tags time m waiting.old count }
{
    // Marks are 0 or 1: of bools the compiler makes a branch for each guest, and with 16 waiting an event took 30 ns more, of 130.
    let mut busy = [0; MOST_GUESTS];
    move_tags(waiting, count, time, m, &mut busy);
    move_nexts(guests, known, &busy, time, m);
}

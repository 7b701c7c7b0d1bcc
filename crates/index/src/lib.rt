// An index over the waiting rows, so that an event need not walk them: for each guest the place of its first and of its last row, for each row the place of the next
// one of its guest. It is built by one walk of the rows and kept beside them; a place is written one higher, and 0 says that there is none. Functions for this
// repository's own crates.
// Places are numbers in one array of fixed size, and no Options: there is no heap, and an Option<u16> is twice as wide.
#![tactic(auto)]

ghost use Rattle.std.specs.Prelude.{◌≡◌, false, List, ℕ, ◌+◌, ◌-◌, ◌*◌, ◌≤◌, ◌<◌, length, get_or};
ghost use Rattle.table.specs.Columns.{waiting_wide, most_guests, most_capacity};
ghost use Rattle.index.specs.Index.{NEXTS, index_wide, owner_of, Head, Indexed, Beside, Gains, Loses, stands, shifted, fallen, Rewritten};

use rules::Answer;
use table::columns::{GUEST, MOST_CAPACITY, MOST_GUESTS, WAITING_WIDE};

// Where the places of the guests' last rows begin, behind those of their first rows.
pub const LASTS: usize = MOST_GUESTS;

// Where the places of the next rows begin.
pub const NEXTS: usize = LASTS + MOST_GUESTS;

// The numbers of an index.
pub const INDEX_WIDE: usize = NEXTS + MOST_CAPACITY;

// With no more rows than these an event walks them as fast as it goes by the guests.
pub const MOST_WALKED: usize = 64;

// A place, as it is written, once the row of the number `mark` has gone from before it.
fn fallen_by(x: u16, mark: u16) -> u16
    ensures { result ≡ fallen mark x }
{
    if mark < x { x - 1 } else { x }
}

// The first `upto` numbers fall where they stand.
fn fall(index: &mut [u16], upto: usize, mark: u16)
    requires { upto ≤ length index.old }
    ensures { Rewritten (λ j. fallen mark (get_or index.old j 0)) index.old index.new 0 upto }
{
    for number in index[..upto].iter_mut() {
        *number = fallen_by(*number, mark);
    }
}

// The numbers behind `from`, the last of them at `upto`, move down by one and fall.
fn close(index: &mut [u16], from: usize, upto: usize, mark: u16)
    requires { (from ≤ upto) × (upto < length index.old) }
    ensures { Rewritten (λ j. fallen mark (get_or index.old (j + 1) 0)) index.old index.new from upto }
{
    for i in from..upto {
        index[i] = fallen_by(index[i + 1], mark);
    }
}

// Where the number of a new row is written: as the next of its guest's last row, or as its guest's first.
fn spot(last: u16, guest: usize) -> usize
    requires { guest < most_guests }
    ensures { (last ≡ 0 → result ≡ guest) × (0 < last → result + 1 ≡ NEXTS + last) }
{
    if last == 0 {
        guest
    } else {
        NEXTS + (last as usize) - 1
    }
}

// A guest's last row once its first has gone: the same, where there is a next.
fn stays(last: u16, next: u16) -> u16
    ensures { (next ≡ 0 → result ≡ 0) × (0 < next → result ≡ last) }
{
    if next == 0 { 0 } else { last }
}

// A row of `guest` stands behind the others, at `count`: it is the next of its guest's last, or its guest's first.
pub fn link(index: &mut [u16], count: usize, guest: u64)
    requires count_lt_most_capacity { (count < most_capacity) × (guest < most_guests) }
    requires by_index { (ws : List ℕ) × Indexed ws index.old count }
    ensures { (ws ws' : List ℕ) → Indexed ws index.old count → Gains ws ws' count guest → Indexed ws' index.new (count + 1) }
{
    let g = guest as usize;
    let last = index[LASTS + g];
    let at = spot(last, g);
    let number = (count + 1) as u16;
    index[at] = number;
    index[LASTS + g] = number;
    index[NEXTS + count] = 0;
}

// The row at `place` goes, the first of `guest`: the next of its guest is the first now, and every place behind it falls by one.
pub fn unlink(index: &mut [u16], place: usize, count: usize, guest: u64)
    requires { (length index.old ≡ index_wide) × (place < count) × (count ≤ most_capacity) × (guest < most_guests) }
    ensures { (ws ws' : List ℕ) → Indexed ws index.old count → Head ws guest 0 place → Loses ws ws' count place → Indexed ws' index.new (count - 1) }
{
    let g = guest as usize;
    let last = index[LASTS + g];
    let next = index[NEXTS + place];
    index[g] = next;
    index[LASTS + g] = stays(last, next);
    let mark = (place + 1) as u16;
    fall(index, NEXTS + place, mark);
    close(index, NEXTS + place, NEXTS + count - 1, mark);
}

// The index over the rows, in one walk of them.
pub fn build(waiting: &[u64], count: usize, index: &mut [u16])
    requires count_le_most_capacity { (count ≤ most_capacity) × (count * waiting_wide ≤ length waiting.now) × (length index.old ≡ index_wide) }
    requires by_index { (k : ℕ) → k < count → owner_of waiting.now k < most_guests }
    ensures { Indexed waiting.now index.new count }
{
    index[..NEXTS].fill(0);
    for k in 0..count {
        let guest = waiting[k * WAITING_WIDE + GUEST];
        link(index, k, guest);
    }
}

// There is no index, or there are so few rows that those who would go by the guests walk them.
pub fn is_walked(index: &[u16], count: usize) -> bool
    ensures { result ≡ false → 0 < length index.now }
{
    index.is_empty() || count <= MOST_WALKED
}

// A row of `guest` is placed last: the index, where there is one, follows.
pub fn keep_placed(index: &mut [u16], count: usize, guest: u64)
    requires count_lt_most_capacity { (count < most_capacity) × (guest < most_guests) }
    requires by_index { (ws : List ℕ) × Beside ws index.old count }
    ensures { (ws ws' : List ℕ) → Beside ws index.old count → Gains ws ws' count guest → Beside ws' index.new (count + 1) }
{
    if index.is_empty() {
        return;
    }
    link(index, count, guest);
}

// The row at `place`, the first of `guest`, is sent: the index, where there is one, follows.
pub fn keep_sent(index: &mut [u16], place: usize, count: usize, guest: u64)
    requires place_lt_count { (place < count) × (count ≤ most_capacity) × (guest < most_guests) }
    requires by_index { (ws : List ℕ) × Beside ws index.old count }
    ensures { (ws ws' : List ℕ) → Beside ws index.old count → Head ws guest 0 place → Loses ws ws' count place → Beside ws' index.new (count - 1) }
{
    if index.is_empty() {
        return;
    }
    unlink(index, place, count, guest);
}

// How many rows further back the table stands after an event with this answer.
pub fn gone_on(answer: Answer, index: &[u16]) -> usize
    ensures upper_bound { (result ≤ 1) × (0 < result → 0 < length index.now) }
    ensures by_index { (ws : List ℕ) → stands index.now answer ws ≡ shifted result ws }
{
    if index.is_empty() {
        return 0;
    }
    match answer {
        Answer::Sent { .. } => 1,
        _ => 0,
    }
}

// The book as rows of numbers: a request is noted, its note is found, and struck once it was sent. Each contract says what becomes of the
// numbers; proofs/ say which book they then show.
ghost use Rattle.std.specs.Prelude.{◌≡◌, ◌+◌, ◌*◌, ◌<◌, ◌≤◌, length, IfSome};
ghost use Rattle.std.specs.Option.{unwrap_or};
ghost use Rattle.table.specs.Columns.{most_capacity};
ghost use Rattle.book.specs.Page.{named};
ghost use Rattle.tally.specs.Columns.{note_wide};
ghost use Rattle.tally.specs.Notes.{note_line, noted_at, found_in, struck_at};

use crate::columns::{LIMITED, NOTE_WIDE, SINCE};
use table::columns::{GUEST, ID};

// A request is noted at `place`.
pub fn note(book: &mut [u64], place: usize, guest: u64, id: u64, since: u64, limited: u64)
    requires { place * note_wide + note_wide ≤ length book.old }
    ensures { book.new ≡ noted_at place (note_line guest id since limited) book.old }
{
    book[place * NOTE_WIDE + GUEST] = guest;
    book[place * NOTE_WIDE + ID] = id;
    book[place * NOTE_WIDE + SINCE] = since;
    book[place * NOTE_WIDE + LIMITED] = limited;
}

// The first place with this guest and this id. The id is tested first: it tells more requests apart.
pub fn find(book: &[u64], count: usize, guest: u64, id: u64) -> Option<usize>
    requires { (count ≤ most_capacity) × (count * note_wide ≤ length book.now) }
    ensures place { unwrap_or result count ≡ found_in (named guest id) book.now count }
    ensures inside { IfSome result (λ place. place < count) }
{
    for place in 0..count {
        let at = place * NOTE_WIDE;
        if book[at + ID] == id && book[at + GUEST] == guest {
            return Some(place);
        }
    }
    None
}

// The note at `place` goes, and those behind it move down one place.
pub fn strike(book: &mut [u64], place: usize, count: usize)
    requires { (place < count) × (count * note_wide ≤ length book.old) }
    ensures { book.new ≡ struck_at place count book.old }
{
    let from = place * NOTE_WIDE;
    let used = count * NOTE_WIDE;
    moves::rows::close_up(&mut book[from..used], NOTE_WIDE);
}

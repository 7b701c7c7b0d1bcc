// Where each number stands in a row of the book and in a row of figures. The first two numbers of a note are guest and id, as in any row of a request.
use table::columns::{MOST_CAPACITY, MOST_GUESTS};

// The moment of a note's acceptance.
pub const SINCE: usize = 2;

// The limit tag that the request waits with.
pub const LIMITED: usize = 3;

// How many numbers a note has.
pub const NOTE_WIDE: usize = 4;

// A row of figures: accepted arrivals.
pub const ARRIVALS: usize = 0;

// Completions.
pub const COMPLETIONS: usize = 1;

// Sends by reservation.
pub const RESERVED: usize = 2;

// Sends by weight.
pub const WEIGHED: usize = 3;

// Sends by reservation whose limit tag lay ahead.
pub const AHEAD: usize = 4;

// The upper number of the summed wait.
pub const UPPER: usize = 5;

// Its lower number.
pub const LOWER: usize = 6;

// The longest wait.
pub const LONGEST: usize = 7;

// How many numbers a row of figures has.
pub const FIGURES_WIDE: usize = 8;

// How many numbers the largest book has.
pub const BOOK_LONG: usize = MOST_CAPACITY * NOTE_WIDE;

// How many numbers the figures of the most guests have.
pub const FIGURES_LONG: usize = MOST_GUESTS * FIGURES_WIDE;

// What a sheet is made from, in one struct that is passed on by reference.
ghost use Rattle.std.specs.Prelude.{◌≡◌};

use tables::Tables;
use tally::columns::{BOOK_LONG, FIGURES_LONG};

// The tables, a row of the book for each waiting request and a row of figures for each guest, each of the largest size.
#[derive(Drop)]
pub struct Ledger {
    pub tables: Tables,
    pub book: [u64; BOOK_LONG],
    pub figures: [u64; FIGURES_LONG],
}

impl Ledger {
    // Zeros, before a header opens the tables: of no guest, with nothing waiting and nothing in flight.
    pub fn new() -> Self
        ensures { (result.tables.gate.guests ≡ 0) × (result.tables.gate.waiting ≡ 0) × (result.tables.gate.flight ≡ 0) }
    {
        Ledger {
            tables: Tables::new(),
            book: [0; BOOK_LONG],
            figures: [0; FIGURES_LONG],
        }
    }
}

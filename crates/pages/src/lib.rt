// The sheet of a sale day: the lines of the figures, and how they are handed on to be written. Functions for this repository's own crates.
#![tactic(auto)]

ghost use Rattle.std.specs.Prelude.{[], ◌∷◌, ◌+◌, ◌*◌, ◌≤◌, length};
ghost use Rattle.lines.specs.Line.{spaced};
ghost use Rattle.lines.specs.Put.{Put};
ghost use Rattle.tally.specs.Columns.{ARRIVALS, COMPLETIONS, RESERVED, WEIGHED, figures_wide, figure_at};
ghost use Rattle.tally.specs.Kept.{figures_in, figures_of};
ghost use Rattle.pages.specs.Sheet.{figures_line, figures_lines};
ghost use Rattle.pages.specs.Standing.{SHEETLINE, Owing};

use lines::{put, put_number, put_value};
use tally::columns::{
    AHEAD, ARRIVALS, COMPLETIONS, FIGURES_WIDE, LONGEST, LOWER, RESERVED, UPPER, WEIGHED,
};

pub mod output; // what is printed is handed on to be written

// Puts five numbers, each after a space.
fn put_five(out: &mut [u8], at: usize, a: u64, b: u64, c: u64, d: u64, e: u64) -> usize
    requires { at + 105 ≤ length out.old }
    ensures put { Put at (spaced (a ∷ b ∷ c ∷ d ∷ e ∷ [])) out.old result out.new }
    ensures upper_bound { result ≤ at + 105 }
{
    let i = put_value(out, at, a);
    let j = put_value(out, i, b);
    let k = put_value(out, j, c);
    let l = put_value(out, k, d);
    put_value(out, l, e)
}

// Puts the line of one guest. What is left waiting is what arrived and was not sent, in flight what was sent and is not complete.
fn put_guest(out: &mut [u8], at: usize, guest: usize, figures: &[u64]) -> usize
    requires at_in_bounds { (at + SHEETLINE ≤ length out.old) × (guest * figures_wide + figures_wide ≤ length figures.now) }
    requires guest_bound { figure_at figures.now guest RESERVED + figure_at figures.now guest WEIGHED ≤ figure_at figures.now guest ARRIVALS }
    requires guest_bound_2 { figure_at figures.now guest COMPLETIONS ≤ figure_at figures.now guest RESERVED + figure_at figures.now guest WEIGHED }
    ensures put { Put at (figures_line guest (figures_in figures.now guest)) out.old result out.new }
    ensures upper_bound { result ≤ at + SHEETLINE }
{
    let row = guest * FIGURES_WIDE;
    let arrivals = figures[row + ARRIVALS];
    let completions = figures[row + COMPLETIONS];
    let reserved = figures[row + RESERVED];
    let weighed = figures[row + WEIGHED];
    let ahead = figures[row + AHEAD];
    let longest = figures[row + LONGEST];
    let upper = figures[row + UPPER];
    let lower = figures[row + LOWER];
    let sends = reserved + weighed;
    let a = put_number(out, at, guest as u64);
    let b = put_five(out, a, arrivals, completions, reserved, weighed, ahead);
    let c = put_five(
        out,
        b,
        longest,
        upper,
        lower,
        arrivals - sends,
        sends - completions,
    );
    put(out, c, b'\n')
}

// Puts the lines of the first `known` guests at the front.
pub fn put_guests(out: &mut [u8], known: usize, figures: &[u64]) -> usize
    requires known_in_bounds { (known * SHEETLINE ≤ length out.old) × (known * figures_wide ≤ length figures.now) }
    requires owing { Owing known figures.now }
    ensures put { Put 0 (figures_lines 0 (figures_of figures.now known)) out.old result out.new }
    ensures upper_bound { result ≤ known * SHEETLINE }
{
    let mut at = 0;
    for k in 0..known {
        at = put_guest(out, at, k, figures);
    }
    at
}

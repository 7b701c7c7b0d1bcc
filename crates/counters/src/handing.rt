// What the counters of a guest make of the request that it brings, and whether it was taken.
ghost use Rattle.std.specs.Prelude.{◌≡◌, ◌+◌, ◌*◌, ◌≤◌, length};
ghost use Rattle.rules.specs.Answers.{taken};
ghost use Rattle.arrays.specs.Counters.{counter_wide};
ghost use Rattle.arrays.specs.Steps.{arriving_of};

use crate::read;
use arrays::Asking;
use rules::{Answer, Arriving};

// The answer is no refusal.
pub fn is_taken(answer: Answer) -> bool
    ensures { result ≡ taken answer }
{
    !matches!(answer, Answer::Refused(_))
}

// The request that the gate is handed, with what a row of counters says.
pub fn arriving_of(counters: &[u64], row: usize, which: Asking) -> Arriving
    requires { row * counter_wide + counter_wide ≤ length counters.now }
    ensures { result ≡ arriving_of counters.now row which }
{
    let counter = read(counters, row);
    Arriving {
        guest: which.guest,
        id: which.id,
        cost: which.cost,
        delta: counter.delta.max(1), // a delta of 0 goes out as 1
        rho: counter.rho,
    }
}

// Document 02, K9: the moves of a trace from one version to the other: what refuses one. The rest is in specs/ and proofs/; `movable` judges whether a
// trace can be moved, and `movers` moves it.
#![tactic(auto)]

ghost use Rattle.std.specs.Prelude.{◌≡◌};
ghost use Rattle.moved.specs.Moves.{refused_by};

use rules::Refusal;
use std::num::NonZeroU64;

// Why a move is refused, and the number of the event that refused it, counted from 1, where one did.
#[derive(Clone, Copy)]
pub struct Stopped {
    pub why: Refusal,
    pub event: Option<NonZeroU64>,
}

impl From<Refusal> for Stopped {
    ghost from_gives = { λ why stopped. stopped ≡ refused_by why };

    // A refusal for which no event is to blame.
    fn from(why: Refusal) -> Stopped {
        Stopped { why, event: None }
    }
}

// What a call answers, as five numbers: what a host in C gets, and what a batch writes for each event. Functions for this repository's own crates.
#![tactic(auto)]

ghost use Rattle.std.specs.Prelude.{◌≡◌};
ghost use Rattle.gate.specs.Replies.{reply_of};

use gate::Reply;
use rules::Answer;

// The time to wake where there is none: all bits one.
const NEVER: u64 = 18446744073709551615;

// An answer and a time to wake as their five numbers.
pub fn five_of(answer: Answer, wake: Option<u64>) -> Reply
    ensures { result ≡ reply_of answer wake }
{
    let wake = wake.unwrap_or(NEVER);
    match answer {
        Answer::Nothing => Reply {
            kind: 0,
            guest: 0,
            id: 0,
            refusal: 0,
            wake,
        },
        Answer::Sent { phase, guest, id } => Reply {
            kind: phase as u64,
            guest,
            id: id as u64,
            refusal: 0,
            wake,
        },
        Answer::Refused(why) => Reply {
            kind: 3,
            guest: 0,
            id: 0,
            refusal: u64::from(why),
            wake,
        },
    }
}

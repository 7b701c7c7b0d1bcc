// A lent list of answers, a row of numbers each: kind, guest, id, refusal, wake.
ghost use Rattle.std.specs.Prelude.{◌≡◌, ◌+◌, ◌≤◌, length};
ghost use Rattle.std.proofs.lemmas.List.Edits.{sets};
ghost use Rattle.batch.specs.Rows.{answer_wide, line_of};

use replies::five_of;
use rules::Outcome;

// How many numbers a row has.
pub const ANSWER_WIDE: usize = 5;

// Writes the answer of an outcome as a row, from a place on.
pub fn put_answer(answers: &mut [u64], at: usize, outcome: Outcome)
    requires { at + answer_wide ≤ length answers.old }
    ensures { answers.new ≡ sets answers.old at (line_of outcome) }
{
    let answer = outcome.answer;
    let wake = outcome.wake;
    let reply = five_of(answer, wake);
    answers[at] = reply.kind;
    answers[at + 1] = reply.guest;
    answers[at + 2] = reply.id;
    answers[at + 3] = reply.refusal;
    answers[at + 4] = reply.wake;
}

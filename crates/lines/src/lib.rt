// Answers to lines: the printed lines, written into a lent buffer. Each function that puts something writes it from place `at` on and
// answers the place after it. Not Display and `write!`: their clauses say what was written where it is Ok, and none says that a buffer
// with room makes it so, but put_line and put_refusal promise the whole line.
#![tactic(auto)]

ghost use Rattle.std.specs.Prelude.{◌≡◌, [], ◌∷◌, ◌+◌, ◌≤◌, ◌<◌, length};
ghost use Rattle.rules.specs.Answers.{number_of, letter_of};
ghost use Rattle.lines.specs.Put.{Put};
ghost use Rattle.lines.specs.Line.{decimal_of, spaced, answer_of, line_of, refusal_line, title_line, LINE};

use rules::{Answer, Phase, Refusal};

// The most bytes of a line, the length of a text that one is put into.
pub const LINE_LONG: usize = 65;

// The letter that is printed for a phase. No conversion of the type: into a number a phase goes by its order.
fn letter(phase: Phase) -> u8
    ensures { result ≡ letter_of phase }
{
    match phase {
        Phase::Reservation => b'R',
        Phase::Weight => b'W',
    }
}

// Puts the bytes of src.
pub fn put_all(out: &mut [u8], at: usize, src: &[u8]) -> usize
    requires { at + length src.now ≤ length out.old }
    ensures { Put at src.now out.old result out.new }
{
    let end = at + src.len();
    out[at..end].copy_from_slice(src);
    end
}

// Puts one byte.
pub fn put(out: &mut [u8], at: usize, b: u8) -> usize
    requires { at < length out.old }
    ensures { Put at (b ∷ []) out.old result out.new }
{
    out[at] = b;
    at + 1
}

// Puts a number, decimal, without leading zeros.
pub fn put_number(out: &mut [u8], at: usize, n: u64) -> usize
    requires { at + 20 ≤ length out.old }
    ensures put { Put at (decimal_of n) out.old result out.new }
    ensures upper_bound { result ≤ at + 20 }
{
    let mut text = [0u8; 20];
    let k = io::decimal(n, &mut text);
    put_all(out, at, &text[..k])
}

// Puts a space and a number.
pub fn put_value(out: &mut [u8], at: usize, n: u64) -> usize
    requires { at + 21 ≤ length out.old }
    ensures put { Put at (spaced (n ∷ [])) out.old result out.new }
    ensures upper_bound { result ≤ at + 21 }
{
    let a = put(out, at, b' ');
    put_number(out, a, n)
}

// Puts a send: the letter of its phase, the guest and the id.
fn put_sent(out: &mut [u8], at: usize, first: u8, guest: u64, id: u64) -> usize
    requires { at + 43 ≤ length out.old }
    ensures put { Put at (first ∷ spaced (guest ∷ id ∷ [])) out.old result out.new }
    ensures upper_bound { result ≤ at + 43 }
{
    let a = put(out, at, first);
    let b = put_value(out, a, guest);
    put_value(out, b, id)
}

// Puts a refusal: `X` and its number.
fn put_refused(out: &mut [u8], at: usize, refusal: Refusal) -> usize
    requires { at + 22 ≤ length out.old }
    ensures put { Put at (88 ∷ spaced (number_of refusal ∷ [])) out.old result out.new }
    ensures upper_bound { result ≤ at + 22 }
{
    let a = put(out, at, b'X');
    put_value(out, a, u64::from(refusal))
}

// Puts an answer.
fn put_answer(out: &mut [u8], at: usize, answer: Answer) -> usize
    requires { at + 43 ≤ length out.old }
    ensures put { Put at (answer_of answer) out.old result out.new }
    ensures upper_bound { result ≤ at + 43 }
{
    match answer {
        Answer::Nothing => put(out, at, b'-'),
        Answer::Sent { phase, guest, id } => put_sent(out, at, letter(phase), guest, id as u64),
        Answer::Refused(refusal) => put_refused(out, at, refusal),
    }
}

// Puts the line of one event: its number, a space, the answer, byte 10.
pub fn put_line(out: &mut [u8], at: usize, number: u64, answer: Answer) -> usize
    requires { at + LINE ≤ length out.old }
    ensures put { Put at (line_of number answer) out.old result out.new }
    ensures upper_bound { result ≤ at + LINE }
{
    let a = put_number(out, at, number);
    let b = put(out, a, b' ');
    let c = put_answer(out, b, answer);
    put(out, c, b'\n')
}

// Puts the one line of a bad header.
pub fn put_refusal(out: &mut [u8], at: usize, refusal: Refusal) -> usize
    requires { at + LINE ≤ length out.old }
    ensures put { Put at (refusal_line refusal) out.old result out.new }
    ensures upper_bound { result ≤ at + LINE }
{
    let a = put_all(out, at, b"trace refused");
    let b = put_value(out, a, u64::from(refusal));
    put(out, b, b'\n')
}

// Puts the header line.
pub fn put_title(out: &mut [u8], at: usize) -> usize
    requires { at + LINE ≤ length out.old }
    ensures put { Put at title_line out.old result out.new }
    ensures upper_bound { result ≤ at + LINE }
{
    put_all(out, at, b"event answer\n")
}

// A printed line, held against the lines: nothing else is read of them.
ghost use Rattle.std.specs.Prelude.{◌≡◌};
ghost use Rattle.lines.specs.Line.{line_of};
ghost use Rattle.judge.specs.Judging.{begins};
ghost use Rattle.judge.specs.Hearing.{size_if};

use lines::LINE_LONG;
use rules::Answer;

// How many bytes the line of event `number` has with this answer, where the lines begin with it.
pub fn says(text: &mut [u8; LINE_LONG], number: u64, answer: Answer, said: &[u8]) -> Option<usize>
    ensures { result ≡ size_if (begins (line_of number answer) said.now) (line_of number answer) }
{
    let end = lines::put_line(text, 0, number, answer);
    said.starts_with(&text[..end]).then_some(end)
}

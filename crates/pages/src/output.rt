// What is printed is handed on to be written, once all is read.
ghost use Rattle.std.specs.Prelude.{◌≤◌, length, take};
ghost use Rattle.stream.specs.Outcome.{Last};
ghost use Rattle.pages.specs.Sheet.{sheet_of};
ghost use Rattle.pages.specs.Standing.{Listed};

use port::Streams;
use stream::End;

// Writes the first n bytes of out, which are all that is to be written.
pub fn last(out: &[u8], n: usize, streams: &mut Streams, log: &mut u64) -> End
    requires n_in_bounds { n ≤ length out.now }
    requires last { Last sheet_of log.old (take n out.now) }
    ensures { Listed result log.new }
{
    let written = stream::emit(&out[..n], streams, log);
    if written { End::Whole } else { End::Unwritten }
}

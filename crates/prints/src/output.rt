// Lines are handed on to be written: only those that come next, whatever the input brings yet.
ghost use Rattle.std.specs.Prelude.{◌≤◌, length, take};
ghost use Rattle.lines.specs.Line.{title_line};
ghost use Rattle.trace.specs.Printed.{printed};
ghost use Rattle.stream.specs.Runs.{Emits};
ghost use Rattle.stream.specs.Outcome.{Next};

use buffers::LINES_LONG;
use port::Streams;

// Writes the first n bytes of out, and answers whether all were written.
pub fn emit(out: &[u8], n: usize, streams: &mut Streams, log: &mut u64) -> bool
    requires n_in_bounds { n ≤ length out.now }
    requires next { Next printed log.old (take n out.now) }
    ensures { Emits result (take n out.now) log.old log.new }
{
    stream::emit(&out[..n], streams, log)
}

// Writes the header line, and answers whether all of it was written.
pub fn title(out: &mut [u8; LINES_LONG], streams: &mut Streams, log: &mut u64) -> bool
    requires { Next printed log.old title_line }
    ensures { Emits result title_line log.old log.new }
{
    let n = lines::put_title(out, 0);
    emit(out, n, streams, log)
}

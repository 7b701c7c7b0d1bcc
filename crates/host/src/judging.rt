// The judge of another gate's lines, as a C function.
ghost use Rattle.std.specs.Prelude.{◌≡◌};
ghost use Rattle.judge.specs.Judging.{judged_of};

use judge::Judged;

// Judges another gate's lines of a lent trace: five numbers, the first of which is 0 where all lines may stand.
#[unsafe(no_mangle)]
pub extern "C" fn sgq_judge(trace: &[u8], lines: &[u8]) -> Judged
    ensures { result ≡ judged_of trace.now lines.now }
{
    judges::judge(trace, lines)
}

// How much there is to write: the bytes that are kept, and the rows of what is dropped.
ghost use Rattle.salvage.specs.Judging.{Tallied};

use fates::fate_of;
use salvage::Written;

// Looks at all events of the bytes of a trace of this version, a cut last one too: the bytes of the kept ones, and how many are dropped.
pub fn look_over(version: u64, bytes: &[u8]) -> Written
    ensures { Tallied version bytes.now result.bytes result.rows }
{
    let mut last = None;
    let mut kept: usize = 0;
    let mut rows: usize = 0;
    for i in 0..bytes.len().div_ceil(14) {
        match fate_of(version, bytes, i * 14, last) {
            Ok(time) => {
                last = Some(time);
                kept += 14;
            }
            Err(_) => rows += 1,
        }
    }
    Written { bytes: kept, rows }
}

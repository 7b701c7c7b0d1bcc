// Reads and writes that go on until they are done, and how a program ends that reads standard input and writes standard output. It sees the calls
// of `port` by their promises alone.
#![tactic(auto)]

ghost use Rattle.std.specs.Prelude.{◌≡◌, ℕ, ◌-◌, ◌<◌, List, length, take, drop};
ghost use Rattle.port.specs.Moves.{Goes, brought, Within};
ghost use Rattle.stream.specs.Runs.{Fills, Emits};
ghost use Rattle.stream.specs.Outcome.{MOST, Last, Ran};

use port::{Moved, Streams};

// How a program ends: all is written; a read failed; a write failed; or it read as often as it may, and the input had not ended.
#[derive(Drop)]
pub enum End {
    Whole,
    Unread,
    Unwritten,
    Unended,
}

// A read failed.
#[derive(Drop)]
pub struct ReadFailed;

// Reads once behind the first `have` bytes of the buffer, which stay.
pub fn refill(buffer: &mut [u8], have: usize, streams: &mut Streams, log: &mut u64) -> Moved
    requires { have < length buffer.old }
    ensures goes { Goes (brought result (drop have buffer.new)) log.old log.new }
    ensures within { Within result (length buffer.old - have) }
    ensures buffer_unchanged { take have buffer.new ≡ take have buffer.old }
{
    port::get(&mut buffer[have..], streams, log)
}

// Reads until the buffer is full or no more bytes come, and answers how many bytes came.
pub fn fill(buffer: &mut [u8], streams: &mut Streams, log: &mut u64) -> Result<usize, ReadFailed>
    ensures { Fills result buffer.new log.old log.new }
{
    let mut have: usize = 0;
    while have < buffer.len() {
        match refill(buffer, have, streams, log) {
            Moved::Bytes(more) => have += more,
            Moved::Nothing => return Ok(have),
            Moved::Failed => return Err(ReadFailed),
        }
    }
    Ok(have)
}

// Writes the bytes, and answers whether all were written; it stops where a write fails.
pub fn emit(bytes: &[u8], streams: &mut Streams, log: &mut u64) -> bool
    ensures { Emits result bytes.now log.old log.new }
{
    let mut done: usize = 0;
    while done < bytes.len() {
        match port::put(&bytes[done..], streams, log) {
            Moved::Bytes(more) => done += more,
            Moved::Nothing | Moved::Failed => return false,
        }
    }
    true
}

// Writes the bytes, which are all that is still to be written of what a program prints of its input.
pub fn finish(bytes: &[u8], streams: &mut Streams, log: &mut u64) -> End
    ghost prints: { List ℕ → List ℕ }
    requires { Last prints log.old bytes.now }
    ensures { Ran prints MOST result log.new }
{
    if !emit(bytes, streams, log) {
        return End::Unwritten;
    }
    End::Whole
}

// One line on standard error where a read or a write of this program failed, and none else.
pub fn report(program: &[u8], end: End, streams: &Streams) {
    match end {
        End::Unread => port::complain(program, b"cannot read standard input", streams),
        End::Unwritten => port::complain(program, b"cannot write standard output", streams),
        End::Whole | End::Unended => {}
    }
}

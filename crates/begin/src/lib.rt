// The beginning of a trace: the tables are opened as its header says, and the bytes of the events move to the front.
#![tactic(auto)]

ghost use Rattle.std.specs.Prelude.{◌≡◌, ◌≤◌, length, take, Ok};
ghost use Rattle.rules.specs.Run.{fresh};
ghost use Rattle.table.specs.View.{table_of};
ghost use Rattle.trace.specs.Header.{settings_in, header_of};
ghost use Rattle.feed.specs.Promise.{Became};
ghost use Rattle.begin.specs.Begin.{Largest, Begins};

use fields::body;
use gate::Opening;
use headers::read_settings;
use rules::{Gate, Setup};
use trace::Opened;

// Opens the tables with the header's counts, rule and settings: they show a fresh table.
pub fn open_tables(
    bytes: &[u8],
    opened: Opened,
    settings: &mut [u64],
    guests: &mut [u64],
    waiting: &mut [u64],
    flight: &mut [u64],
) -> Gate
    requires bytes_value { header_of bytes.now ≡ Ok opened }
    requires largest { Largest settings.old guests.old waiting.old flight.old }
    ensures became { Became (fresh opened.depth opened.capacity opened.rule (settings_in bytes.now)) guests.old waiting.old flight.old result guests.new waiting.new flight.new }
    ensures shown { table_of result guests.new waiting.new flight.new ≡ fresh opened.depth opened.capacity opened.rule (settings_in bytes.now) }
{
    read_settings(bytes, opened.version, opened.guests as usize, settings);
    let setup = Setup {
        depth: opened.depth,
        capacity: opened.capacity,
        rule: opened.rule,
    };
    let opening = Opening {
        setup: setup,
        guests: opened.guests,
    };
    opens::open(opening, settings, guests, waiting, flight).gate
}

// The gate of the fresh table, and how many bytes of events stand at the front.
#[derive(Drop)]
pub struct Begun {
    pub gate: Gate,
    pub rest: usize,
}

// Begins a trace whose first bytes hold a good header.
pub fn begin(
    buffer: &mut [u8],
    have: usize,
    opened: Opened,
    settings: &mut [u64],
    guests: &mut [u64],
    waiting: &mut [u64],
    flight: &mut [u64],
) -> Begun
    requires have_in_bounds { have ≤ length buffer.old }
    requires buffer_value { header_of (take have buffer.old) ≡ Ok opened }
    requires largest { Largest settings.old guests.old waiting.old flight.old }
    ensures begins { Begins opened (take have buffer.old) (take result.rest buffer.new) result.gate guests.new waiting.new flight.new }
    ensures rest_le_have { result.rest ≤ have }
{
    let gate = open_tables(&buffer[..have], opened, settings, guests, waiting, flight);
    let start = body(opened.version, opened.guests as usize);
    buffer.copy_within(start..have, 0);
    Begun {
        gate,
        rest: have - start,
    }
}

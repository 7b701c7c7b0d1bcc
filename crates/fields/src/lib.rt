// The fields of the header of a trace, read from its bytes. Functions for this repository's own crates.
// Versions and kinds are numbers of a trace, byte for byte, so they stay numbers.
#![tactic(auto)]

ghost use Rattle.std.specs.Prelude.{◌≡◌, ◌&&◌, ◌+◌, ◌≤◌, ◌<◌, length, take};
ghost use Rattle.lists.specs.Words.{all};
ghost use Rattle.lists.specs.Tab.{tab};
ghost use Rattle.rules.specs.Sound.{counted, ruled, settled};
ghost use Rattle.trace.specs.Little.{two_at, four_at};
ghost use Rattle.trace.specs.Header.{mark, same, body as body_of, version_of, depth_of, guests_of, capacity_of, rule_in, credit_at, record_at, settings_at};

use ranges::{is_counted, is_ruled, is_settled};
use rules::Settings;

// Where the limit stands in a guest's record.
const LIMIT_AT: usize = 4;

// Where its shares stand.
const SHARES_AT: usize = 8;

// Where its credit stands, in version 2.
const CREDIT_AT: usize = 12;

// Where the records of so many guests end in a trace of this version: the events begin there, and so does the record of the next guest.
pub fn body(version: u64, guests: usize) -> usize
    requires { guests < 65536 }
    ensures { result ≡ body_of version guests }
{
    if version == 2 {
        10 + 14 * guests
    } else {
        9 + 12 * guests
    }
}

// The three letters.
pub fn is_marked(bytes: &[u8]) -> bool
    requires { 9 ≤ length bytes.now }
    ensures { result ≡ same (take 3 bytes.now) mark }
{
    bytes.starts_with(b"SGQ")
}

// The number of 16 bits from a place on.
fn short_at(bytes: &[u8], at: usize) -> u64
    requires { at + 2 ≤ length bytes.now }
    ensures { result ≡ two_at bytes.now at }
{
    u64::from(u16::from_le_bytes([bytes[at], bytes[at + 1]]))
}

// The number of 32 bits from a place on.
fn number_at(bytes: &[u8], at: usize) -> u64
    requires { at + 4 ≤ length bytes.now }
    ensures { result ≡ four_at bytes.now at }
{
    u64::from(u32::from_le_bytes([bytes[at], bytes[at + 1], bytes[at + 2], bytes[at + 3]]))
}

// The version.
pub fn version_in(bytes: &[u8]) -> u64
    requires { 9 ≤ length bytes.now }
    ensures { result ≡ version_of bytes.now }
{
    short_at(bytes, 3)
}

// The depth.
pub fn depth_in(bytes: &[u8]) -> u64
    requires { 9 ≤ length bytes.now }
    ensures { result ≡ depth_of bytes.now }
{
    u64::from(bytes[5])
}

// How many guests there are.
pub fn guests_in(bytes: &[u8]) -> usize
    requires { 9 ≤ length bytes.now }
    ensures { (result ≡ guests_of bytes.now) × (result < 256) }
{
    usize::from(bytes[6])
}

// The capacity.
pub fn capacity_in(bytes: &[u8]) -> u64
    requires { 9 ≤ length bytes.now }
    ensures { result ≡ capacity_of bytes.now }
{
    short_at(bytes, 7)
}

// The rule for limits, which a trace of version 1 cannot say.
pub fn rule_in(bytes: &[u8], version: u64) -> u64
    requires { body_of version 0 ≤ length bytes.now }
    ensures { result ≡ rule_in version bytes.now }
{
    if version == 2 { u64::from(bytes[9]) } else { 1 }
}

// Depth, guests, capacity and rule lie in their ranges.
pub fn has_counts(bytes: &[u8], version: u64) -> bool
    requires { (9 ≤ length bytes.now) × (body_of version 0 ≤ length bytes.now) }
    ensures { result ≡ counted (depth_of bytes.now) (guests_of bytes.now) (capacity_of bytes.now) && ruled (rule_in version bytes.now) }
{
    is_counted(depth_in(bytes), guests_in(bytes) as u64, capacity_in(bytes))
        && is_ruled(rule_in(bytes, version))
}

// The credit in the record that begins at a place, which a trace of version 1 cannot say.
pub fn credit_at(bytes: &[u8], version: u64, at: usize) -> u64
    requires { (at + 12 ≤ length bytes.now) × (version ≡ 2 → at + 14 ≤ length bytes.now) }
    ensures { result ≡ credit_at version bytes.now at }
{
    if version == 2 {
        short_at(bytes, at + CREDIT_AT)
    } else {
        0
    }
}

// The settings in the record of guest k.
#[tactic(auto, using(trace::proofs::HeaderLaws::record_fits, trace::proofs::HeaderLaws::credit_fits))]
pub fn settings_of(bytes: &[u8], version: u64, k: usize) -> Settings
    requires { (k < 256) × (body_of version (k + 1) ≤ length bytes.now) }
    ensures { result ≡ settings_at version bytes.now k }
{
    let at = body(version, k);
    Settings {
        reservation: number_at(bytes, at),
        limit: number_at(bytes, at + LIMIT_AT),
        shares: number_at(bytes, at + SHARES_AT),
        credit: credit_at(bytes, version, at),
    }
}

// The settings of all guests lie in their ranges.
pub fn has_settings(bytes: &[u8], version: u64, guests: usize) -> bool
    requires { (guests < 256) × (body_of version guests ≤ length bytes.now) }
    ensures { result ≡ all settled (tab guests (settings_at version bytes.now)) }
{
    for k in 0..guests {
        let s = settings_of(bytes, version, k);
        if !is_settled(s.reservation, s.limit, s.shares, s.credit) {
            return false;
        }
    }
    true
}

// The header of a trace: why it is refused or what it opens, and the settings that it has. Functions for this repository's own crates.
#![tactic(auto)]

ghost use Rattle.std.specs.Prelude.{◌≡◌, ◌+◌, ◌*◌, ◌≤◌, ◌<◌, length, get_or};
ghost use Rattle.lists.specs.Tab.{tab};
ghost use Rattle.lists.specs.Stores.{stores};
ghost use Rattle.lists.specs.Rows.{over_rows};
ghost use Rattle.trace.specs.Header.{body as body_of, settings_at, header_shown, header_for, header_of};
ghost use Rattle.table.specs.Columns.{settings_wide};
ghost use Rattle.table.specs.View.{settings_form};

use fields::{
    body, capacity_in, depth_in, guests_in, has_counts, has_settings, is_marked, rule_in,
    settings_of, version_in,
};
use ranges::within;
use rules::Refusal;
use table::columns::{LIMIT, LISTCREDIT, RESERVATION, SETTINGS_WIDE, SHARES};
use trace::Opened;

// The first version that is read.
const FIRST_VERSION: u64 = 1;

// The last version that is read.
const LAST_VERSION: u64 = 2;

// The header that stands at the front of the bytes, of which there may be any number, where the versions from one to another are taken.
pub fn read_header_for(bytes: &[u8], from: u64, to: u64) -> Result<Opened, Refusal>
    ensures { header_shown result ≡ header_shown (header_for from to bytes.now) }
{
    if bytes.len() < 9 {
        return Err(Refusal::HeaderCut);
    }
    if !is_marked(bytes) {
        return Err(Refusal::BadMark);
    }
    let version = version_in(bytes);
    if !within(from, to, version) {
        return Err(Refusal::BadVersion);
    }
    if bytes.len() < body(version, 0) {
        return Err(Refusal::HeaderCut);
    }
    if !has_counts(bytes, version) {
        return Err(Refusal::BadSetting);
    }
    let guests = guests_in(bytes);
    if bytes.len() < body(version, guests) {
        return Err(Refusal::HeaderCut);
    }
    if !has_settings(bytes, version, guests) {
        return Err(Refusal::BadSetting);
    }
    Ok(Opened {
        version,
        depth: depth_in(bytes),
        guests: guests as u64,
        capacity: capacity_in(bytes),
        rule: rule_in(bytes, version),
    })
}

// The header that is read: both versions are.
pub fn read_header(bytes: &[u8]) -> Result<Opened, Refusal>
    ensures { header_shown result ≡ header_shown (header_of bytes.now) }
{
    read_header_for(bytes, FIRST_VERSION, LAST_VERSION)
}

// The settings of guest k into their row.
fn put_settings(bytes: &[u8], version: u64, k: usize, into: &mut [u64])
    requires { (k < 256) × (body_of version (k + 1) ≤ length bytes.now) × (k * settings_wide + settings_wide ≤ length into.old) }
    ensures { into.new ≡ stores (λ j. k * settings_wide + j) (λ j. get_or (settings_form.line (settings_at version bytes.now k)) j 0) settings_wide into.old }
{
    let settings = settings_of(bytes, version, k);
    let at = k * SETTINGS_WIDE;
    into[at + RESERVATION] = settings.reservation;
    into[at + LIMIT] = settings.limit;
    into[at + SHARES] = settings.shares;
    into[at + LISTCREDIT] = settings.credit;
}

// The settings of the guests, a row for each, as the opening call takes them.
pub fn read_settings(bytes: &[u8], version: u64, guests: usize, into: &mut [u64])
    requires { (guests < 256) × (body_of version guests ≤ length bytes.now) × (guests * settings_wide ≤ length into.old) }
    ensures { into.new ≡ over_rows settings_form guests (tab guests (settings_at version bytes.now)) into.old }
{
    for k in 0..guests {
        put_settings(bytes, version, k, into);
    }
}

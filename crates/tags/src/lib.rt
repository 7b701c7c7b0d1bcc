// Spacings and tags as functions on plain numbers. They are for this repository's own crates.
#![tactic(auto)]

ghost use Rattle.std.specs.Prelude.{◌≡◌, ℕ, ◌-◌, ◌*◌, ◌≤◌};
ghost use Rattle.rules.specs.Numbers.{second, most_credit, most_cost, most_delta, down, up, raised_by, idle_bound};
ghost use Rattle.rules.specs.declared.Settings.{Settings};
ghost use Rattle.rules.specs.declared.Guest.{Guest};
ghost use Rattle.rules.specs.Events.{tag_if, back as back_to, share_tag};
ghost use Rattle.rules.proofs.Spacings.{down_le, up_le};
ghost use Rattle.table.specs.Stamp.{lawful_tags};

// The largest time and the largest tag.
pub const CEILING: u64 = 4611686018427387903;

// One past the ceiling: no tag is as large.
pub const PAST: u64 = CEILING + 1;

// A second in nanoseconds.
const SECOND: u64 = 1000000000;

// How a spacing, which is a second over a setting, is rounded. Of a setting that is 0 it is 0.
pub trait Rounding {
    // The spacing of a setting.
    ghost rounded: { ℕ → ℕ };

    // A second over n, rounded; 0 where n is 0.
    fn spacing(n: u64) -> u64
        ensures { result ≡ rounded n };

    // No spacing is above a second.
    ghost bounded: { (n : ℕ) → rounded n ≤ second };
}

// Rounded down, as by a reservation or shares.
pub struct Down;

impl Rounding for Down {
    ghost rounded = { down };

    ghost bounded = { down_le };

    #[tactic(auto, unfolding(rules::specs::Numbers::down))]
    fn spacing(n: u64) -> u64 {
        if n == 0 { 0 } else { SECOND / n }
    }
}

// Rounded up, as by a limit.
pub struct Up;

impl Rounding for Up {
    ghost rounded = { up };

    ghost bounded = { up_le };

    #[tactic(auto, unfolding(rules::specs::Numbers::up))]
    fn spacing(n: u64) -> u64 {
        if n == 0 { 0 } else { SECOND.div_ceil(n) }
    }
}

// From the tag of a request of this cost to the next, by a setting n: the cost times the spacing.
pub fn gap<R: Rounding>(cost: u64, n: u64) -> u64
    requires { cost ≤ most_cost }
    ensures { (result ≡ cost * R.rounded n) × (result ≤ most_cost * second) }
{
    cost * R::spacing(n)
}

// A next number raised by a spacing less than the count, by a setting n; for a count of 0 it falls by one, never below 0. A count of 1 asks for no division.
pub fn raised<R: Rounding>(count: u64, n: u64, next: u64) -> u64
    requires { (count ≤ most_delta) × (next ≤ idle_bound) }
    ensures { result ≡ raised_by count (R.rounded n) next }
{
    if count == 1 {
        return next;
    }
    let d = R::spacing(n);
    (next + count * d).saturating_sub(d)
}

// The tag of a kind that the guest may lack: the larger of its next number and the time, or 0 where it does.
pub fn tag_if(has: bool, time: u64, next: u64) -> u64
    ensures { result ≡ tag_if has time next }
{
    if has { next.max(time) } else { 0 }
}

// As many share spacings before the time as the credit says, or 0 where that would be below 0.
#[tactic(auto, using(rules::proofs::Credit::reach_le), unfolding(rules::specs::Events::back))]
fn back(time: u64, shares: u64, credit: u64) -> u64
    requires { credit ≤ most_credit }
    ensures { (s : Settings) → s.shares ≡ shares → s.credit ≡ credit → result ≡ back_to time s }
{
    time.saturating_sub(credit * Down::spacing(shares))
}

// The share tag of an arriving request: the larger of the next number and what the credit gives, but at an idle guest not later than the time.
#[tactic(auto, unfolding(rules::specs::Events::share_tag))]
pub fn share_tag(idle: bool, time: u64, next: u64, shares: u64, credit: u64) -> u64
    requires { credit ≤ most_credit }
    ensures { (h : Guest) → h.snext ≡ next → h.settings.shares ≡ shares → h.settings.credit ≡ credit → result ≡ share_tag idle time h }
{
    let least = back(time, shares, credit);
    let tag = next.max(least);
    if idle { tag.min(time) } else { tag }
}

// The tags of a request: by its guest's reservation, its limit and its shares.
#[derive(Clone, Copy)]
pub struct Stamp {
    pub rtag: u64,
    pub ltag: u64,
    pub stag: u64,
}

impl Stamp {
    // Whether no tag passes the ceiling.
    #[tactic(auto, unfolding(rules::specs::Sound::lawful))]
    pub fn fits(self) -> bool
        ensures { result ≡ lawful_tags self.rtag self.ltag self.stag }
    {
        self.rtag <= CEILING && self.ltag <= CEILING && self.stag <= CEILING
    }
}

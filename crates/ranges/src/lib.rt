// Whether counts, rule, costs, delta and rho, and settings lie in their ranges, on plain numbers. Functions for this
// repository's own crates.
#![tactic(auto)]

ghost use Rattle.std.specs.Prelude.{◌≡◌};
ghost use Rattle.rules.specs.Numbers.{within as within_of};
ghost use Rattle.rules.specs.Sound.{counted, settled, ruled, fair, spread};

use table::columns::{MOST_CAPACITY, MOST_DEPTH, MOST_GUESTS};

// The most that a setting may be.
const MOST: u64 = 1000000;

// The most that a credit may be.
const MOST_CREDIT: u64 = 256;

// The most that a request may cost.
pub const MOST_COST: u64 = 64;

// The most that a delta may be.
const MOST_DELTA: u64 = 65535;

// n lies from low to high, both included.
pub fn within(low: u64, high: u64, n: u64) -> bool
    ensures { result ≡ within_of low high n }
{
    (low..=high).contains(&n)
}

// Depth, guests and capacity lie in their ranges.
#[tactic(auto, unfolding(rules::specs::Sound::counted))]
pub fn is_counted(depth: u64, guests: u64, capacity: u64) -> bool
    ensures { result ≡ counted depth guests capacity }
{
    within(1, MOST_DEPTH as u64, depth)
        && within(1, MOST_GUESTS as u64, guests)
        && within(1, MOST_CAPACITY as u64, capacity)
}

// There is such a rule for limits.
#[tactic(auto, unfolding(rules::specs::Sound::ruled))]
pub fn is_ruled(rule: u64) -> bool
    ensures { result ≡ ruled rule }
{
    rule == 1 || rule == 2
}

// A request may cost this much.
#[tactic(auto, unfolding(rules::specs::Sound::fair))]
pub fn is_fair(cost: u64) -> bool
    ensures { result ≡ fair cost }
{
    within(1, MOST_COST, cost)
}

// A delta and a rho may be this much.
#[tactic(auto, unfolding(rules::specs::Sound::spread))]
pub fn is_spread(delta: u64, rho: u64) -> bool
    ensures { result ≡ spread delta rho }
{
    within(1, MOST_DELTA, delta) && rho <= delta
}

// One guest's settings lie in their ranges. A reservation above a non-zero limit is bad; equal is good.
#[tactic(auto, unfolding(rules::specs::Sound::settled))]
pub fn is_settled(reservation: u64, limit: u64, shares: u64, credit: u64) -> bool
    ensures { result ≡ settled (record { reservation = reservation; limit = limit; shares = shares; credit = credit }) }
{
    reservation <= MOST
        && limit <= MOST
        && within(1, MOST, shares)
        && credit <= MOST_CREDIT
        && (limit == 0 || reservation <= limit)
}

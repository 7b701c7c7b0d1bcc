// Whether no guest has one id twice, among waiting requests and requests in flight. Functions for this repository's own crates.
#![tactic(auto)]

ghost use Rattle.std.specs.Prelude.{◌≡◌, ◌+◌, ◌<◌};
ghost use Rattle.lists.specs.Words.{below};
ghost use Rattle.rules.specs.Sound.{distinct};
ghost use Rattle.pairs.specs.Names.{Rooms, names_of, part_at, other_at, bucket_of};

use table::columns::{FLIGHT_WIDE, GUEST, ID, MOST_CAPACITY, MOST_DEPTH, WAITING_WIDE};

// So many requests, waiting and in flight, are few.
const FEW: usize = 64;

// So many requests there can be, waiting and in flight.
const PLACES: usize = MOST_CAPACITY + MOST_DEPTH;

// A request's name: its guest and its id.
#[derive(Clone, Copy, PartialEq, Eq)]
struct Name {
    guest: u64,
    id: u64,
}

// The name of request k, counted through the waiting ones and then those in flight.
#[tactic(auto, unfolding(crate::specs::Names::part_at))]
fn name_at(waiting: &[u64], count: usize, flight: &[u64], sent: usize, k: usize) -> Name
    requires { Rooms waiting.now count flight.now sent × (k < count + sent) }
    ensures { (result.guest ≡ part_at waiting.now count flight.now 0 k) × (result.id ≡ part_at waiting.now count flight.now 1 k) }
{
    if k < count {
        let from = k * WAITING_WIDE;
        Name {
            guest: waiting[from + GUEST],
            id: waiting[from + ID],
        }
    } else {
        let from = (k - count) * FLIGHT_WIDE;
        Name {
            guest: flight[from + GUEST],
            id: flight[from + ID],
        }
    }
}

// The bucket of a name: requests of one name fall into one bucket.
#[tactic(auto, unfolding(crate::specs::Names::bucket_of))]
fn bucket(name: Name) -> usize
    ensures { (result ≡ bucket_of name.guest name.id) × (result < 4096) }
{
    ((name.guest % 64 * 64 + name.id % 4096) % 4096) as usize
}

// No earlier request has the name of request k.
fn is_new(waiting: &[u64], count: usize, flight: &[u64], sent: usize, k: usize) -> bool
    requires { Rooms waiting.now count flight.now sent × (k < count + sent) }
    ensures { result ≡ below k (other_at waiting.now count flight.now k) }
{
    let name = name_at(waiting, count, flight, sent, k);
    for j in 0..k {
        if name_at(waiting, count, flight, sent, j) == name {
            return false;
        }
    }
    true
}

// No request has the name of an earlier one, where few are: an array that is cleared soon. seen[b] says that an earlier place is of bucket b, and only
// there are the earlier ones gone through.
fn few_once(waiting: &[u64], count: usize, flight: &[u64], sent: usize) -> bool
    requires { Rooms waiting.now count flight.now sent }
    ensures { result ≡ distinct (names_of waiting.now count flight.now sent) }
{
    let mut seen = [false; 1024];
    for i in 0..count + sent {
        let b = bucket(name_at(waiting, count, flight, sent, i)) % 1024;
        if seen[b] && !is_new(waiting, count, flight, sent, i) {
            return false;
        }
        seen[b] = true;
    }
    true
}

// No request has the name of an earlier one, where many are. Each is held beside the earlier ones of its bucket only: heads[b] is 1 + the latest place
// of bucket b, links[k] 1 + the one before place k in its bucket.
fn many_once(waiting: &[u64], count: usize, flight: &[u64], sent: usize) -> bool
    requires { Rooms waiting.now count flight.now sent }
    ensures { result ≡ distinct (names_of waiting.now count flight.now sent) }
{
    // 0 stands for no place: an Option<u16> would take twice the memory, and this test half as long again.
    let mut heads = [0u16; 4096];
    let mut links = [0u16; PLACES];
    let total = count + sent;
    let mut once = true;
    'pairs: for i in 0..total {
        let name = name_at(waiting, count, flight, sent, i);
        let b = bucket(name);
        let first = heads[b];
        let mut next = usize::from(first);
        while 0 < next {
            let j = next - 1;
            if name_at(waiting, count, flight, sent, j) == name {
                once = false;
                break 'pairs;
            }
            next = usize::from(links[j]);
        }
        links[i] = first;
        heads[b] = (i + 1) as u16;
    }
    once
}

// No request has the name of an earlier one.
pub fn all_once(waiting: &[u64], count: usize, flight: &[u64], sent: usize) -> bool
    requires { Rooms waiting.now count flight.now sent }
    ensures { result ≡ distinct (names_of waiting.now count flight.now sent) }
{
    if count + sent <= FEW {
        few_once(waiting, count, flight, sent)
    } else {
        many_once(waiting, count, flight, sent)
    }
}

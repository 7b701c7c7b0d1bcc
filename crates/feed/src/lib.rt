// A trace as it comes in: all whole events of a buffer, one after the other, over lent tables that are known to be sound. What each is answered
// goes into a lent buffer, line by line. Nothing here tests soundness: it is known at the start, and every step keeps it.
#![tactic(auto)]

pub mod events; // the events of a part of a trace

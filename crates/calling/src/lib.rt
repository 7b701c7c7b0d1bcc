// The public calls for one event: arrive, complete and tick. None has a `requires`: each takes whatever it is handed.
#![tactic(auto)]

pub mod numbers; // over lent numbers
pub mod counts; // what a product above the gate needs to know beside them

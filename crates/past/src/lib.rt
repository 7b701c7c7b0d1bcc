// The gate where nothing has a cost, and for one array alone, and what holds of the rules beside it. The crate has no code: it stands for what is in specs/ and proofs/.
#![tactic(auto)]

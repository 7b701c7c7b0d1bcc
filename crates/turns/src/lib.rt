// When a waiting request goes, document 01's third demand, and when a tick would send one. The crate has no code: it stands for what is in specs/ and proofs/.
#![tactic(auto)]

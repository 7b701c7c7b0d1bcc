// What a limit is worth: document 02, K11. The crate has no code: it stands for what is in specs/ and proofs/.
#![tactic(auto)]

// What the product promises, on one page: proofs/Promises.antt. The crate has no code: it stands for what is in proofs/.

#![tactic(auto)]

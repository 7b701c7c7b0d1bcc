// Laws of loops over a lent slice of records, of any type. The crate has no code: it stands for what is in proofs/.
#![tactic(auto)]

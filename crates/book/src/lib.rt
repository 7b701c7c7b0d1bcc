// Document 02, K1, as definitions that compute: specs/ has the book of what is under way, the figures of each guest and the page that holds both;
// proofs/ what they come to over any run. The crate has no code: `tally` keeps these figures as numbers.
#![tactic(auto)]

// Houses with several arrays as theorems: any run of calls at any of a house's arrays, and what is counted in it. There is no code here: the calls are those of
// crates/house.
#![tactic(auto)]

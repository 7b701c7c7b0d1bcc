// Laws of lists and of lines of numbers in a list. The crate has no code: it stands for what is in specs/.
#![tactic(auto)]

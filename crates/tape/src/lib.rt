// No code: what a program has read and written so far, as definitions in specs/.
#![tactic(auto)]

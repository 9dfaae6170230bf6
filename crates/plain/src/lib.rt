// Facts of numbers and tests that proofs share. No function.

#![tactic(auto)]

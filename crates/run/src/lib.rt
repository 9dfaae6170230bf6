// Runs of block numbers under a test: definitions and laws. No function.

#![tactic(auto)]

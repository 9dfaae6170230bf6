// The demands, as theorems about document 01's definitions: a file for each, with the statement first. No function.

#![tactic(auto)]

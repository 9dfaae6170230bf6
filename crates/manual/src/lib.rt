// PRG-62's User Manual as definitions, and the theorem on walks by keys. No function.

#![tactic(auto)]

// Document 01's fourteen calls, proved as one table under one statement. No function.

#![tactic(auto)]

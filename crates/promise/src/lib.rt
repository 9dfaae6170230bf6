// Document 01 as definitions: what each call answers, charges and leaves in every byte lent to it. No function.

#![tactic(auto)]

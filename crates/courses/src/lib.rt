// What editions 2 and 3 share with edition 1, their courses, and what its readers read in them. No code.
#![tactic(auto)]

// Edition 3, data only: its rules in specs/DataOnly.antt, facts on them, its plans and its test. No code.
#![tactic(auto)]

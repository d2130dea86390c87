// Edition 2, the components: its rules in specs/Components.antt, facts on them, its plans and its test. No code.
#![tactic(auto)]

// What is promised: one page of theorems, specs/Main.antt. No code.
#![tactic(auto)]

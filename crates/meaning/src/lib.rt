// What a text means and what a call answers: definitions in specs/, theorems in proofs/. No code.
#![tactic(auto)]

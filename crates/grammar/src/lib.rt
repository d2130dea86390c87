// The published grammar, derivation, blame and meaning: definitions and theorems in specs/ and proofs/. In code, the rules by name.
#![tactic(auto)]

mod rule;

pub use rule::Rule;

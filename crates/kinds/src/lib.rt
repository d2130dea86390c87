// The kinds of token: named in code here, defined by spelling in specs/Kinds.antt, with facts on them in proofs/Facts.antt.
#![tactic(auto)]

mod kind;

pub use kind::Kind;

// Prediction: the grammar as plans of a one-token reader, the test of an edition, and the theorems that follow from it.
// Definitions and theorems alone, in specs/ and proofs/.
#![tactic(auto)]

// Definitions and laws of lists alone: see specs/ and proofs/.
#![tactic(auto)]

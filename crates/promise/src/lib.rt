// Demand 3 of the structs that the entries hand back: the statement stands in specs/, its proof in proofs/.
#![tactic(auto)]

// The construction of a circuit from nodes, as definitions and laws only: see specs/ and proofs/.
#![tactic(auto)]

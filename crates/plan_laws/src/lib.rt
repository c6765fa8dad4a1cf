// The plan of a tree within the limits, as laws only: see proofs/.
#![tactic(auto)]

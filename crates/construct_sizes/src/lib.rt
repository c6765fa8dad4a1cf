// How large the numbers of a circuit are, as laws only: see proofs/.
#![tactic(auto)]

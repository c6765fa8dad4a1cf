// What a circuit means, as laws only: see proofs/.
#![tactic(auto)]

// Instances of the algebra of forms construct the same circuit, as laws only: see specs/ and proofs/.
#![tactic(auto)]

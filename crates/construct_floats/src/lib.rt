// Forms with f32 coefficients as an instance of the construction's algebra, as definitions and laws only: see specs/ and proofs/.
#![tactic(auto)]

// Forms with f32 coefficients are those with whole ones, as long as these are small: definitions and laws only, see specs/ and proofs/.
#![tactic(auto)]

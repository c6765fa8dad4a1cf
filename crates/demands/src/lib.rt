// The three demands, of whatever the contracts of lower::compile and tick::tick permit. Statements and their proofs only, see specs/ and proofs/.
#![tactic(auto)]

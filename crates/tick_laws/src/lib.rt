// The values that a tick computes on what compile leaves of a tree are the direct walk's: laws only, see specs/ and proofs/.
#![tactic(auto)]

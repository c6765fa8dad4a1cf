// Each exported function's contract permits one outcome: one answer, and one last content of all that was lent. Laws only, no code: specs/One says what
// that means; proofs/ has a file a layer, with a table of its functions and a statement for each. What a crate X_export exports has the clauses of
// X's functions, of which that is stated.
#![tactic(auto)]

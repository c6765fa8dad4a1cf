// Arbitrating on memory gives the construction's statuses, infos and ops, as laws only: see specs/ and proofs/.
#![tactic(auto)]

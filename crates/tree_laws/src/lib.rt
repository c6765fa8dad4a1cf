// Which bytes are a tree's, and what a tree's pre-order says of it, as laws only: see proofs/.
#![tactic(auto)]

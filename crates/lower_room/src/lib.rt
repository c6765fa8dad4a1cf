// Definitions and laws alone: how many ops, terms and how much work room a tree takes at most.
#![tactic(auto)]

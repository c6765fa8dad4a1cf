// Definitions and laws alone: what a caller of the arena goes by, and that its forms are proper.
#![tactic(auto)]

// Definitions and laws alone: lower_ordered leaves the construction's `lower_seq`; what the passes have left, as facts of slots.
#![tactic(auto)]

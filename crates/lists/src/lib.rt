// Definitions and laws alone: lists by index, written entry after entry, tested at every index, stored one after the other.
#![tactic(auto)]

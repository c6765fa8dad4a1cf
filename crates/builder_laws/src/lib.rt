// Definitions and laws alone: what each operation of table and builder leaves, the op that it makes, and the room that it needs.
#![tactic(auto)]

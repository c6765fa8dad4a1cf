// Definitions and laws alone: what is emitted is the encoding of the circuit that the table stands for.
#![tactic(auto)]

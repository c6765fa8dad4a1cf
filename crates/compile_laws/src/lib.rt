// Definitions and laws alone: what compile leaves reads back as the circuit that it encodes, and passes the check for 17.
#![tactic(auto)]

// Definitions and laws alone: accepted bytes are nodes that find their children, and building leaves their circuit.
#![tactic(auto)]

// Document 01's bench cards, of compile and tick together: see specs/Cards. No code.
#![tactic(auto)]

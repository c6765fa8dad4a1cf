// The listing program as a machine over the input as it comes. Definitions and laws: there is no code here.
#![tactic(auto)]

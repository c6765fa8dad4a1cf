// What the listing program prints of a tree and its rows, told by the direct walk. Definitions and laws: there is no code here.
#![tactic(auto)]

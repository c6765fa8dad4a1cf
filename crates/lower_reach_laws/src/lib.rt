// Laws only: reaching and the next running flags on memory are the construction's.
#![tactic(auto)]

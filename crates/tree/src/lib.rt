// Trees: the flattening of a tree's records into nodes in pre-order.
#![tactic(auto)]

mod flat;

pub use flat::{Level, flatten};

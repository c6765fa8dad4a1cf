// Terms in the two pools of an arena: the sum of two forms, merged by wire, and the multiple of one.
#![tactic(auto)]

mod merge;
mod terms;

pub use merge::{merge_terms, scale_terms};

// plan.rs: which node each leaf slot and each cursor cell belongs to, the order of reports, and where each input cell lies.
#![tactic(auto)]

mod cells;
mod lists;

pub use cells::{Plan, Status};
pub use lists::{cursor_list, leaf_list, report_order};

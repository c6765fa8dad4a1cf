// The reader of a record, and the refusals of compiling.
#![tactic(auto)]

mod record;
mod refusal;

pub use record::{Node, read_record};
pub use refusal::{Cause, Refusal};

// The listing program's run over leaf rows in a buffer of bytes.
#![tactic(auto)]

mod row;
mod rows;
mod state;

pub use rows::{Run, list_rows};
pub use state::State;

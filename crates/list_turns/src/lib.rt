// The listing program, over any reader and writer: bytes are read, the tree is compiled, the rows are listed as they come, and lines are written.
#![tactic(auto)]

mod input;
mod output;
mod rows;
mod whole;

pub use input::read_front;
pub use whole::list;

// reach, of one node: whether it is halted or left as it was, its next cursor, and its next running flag.
#![tactic(auto)]

mod cursors;
mod flags;
mod halts;

pub use cursors::next_cursor;
pub use flags::next_running;
pub use halts::{halt_one, put_entry, untouched_one};

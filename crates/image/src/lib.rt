// The image of a code: its bytes, as they are sent and kept.
#![tactic(auto)]

mod cells;
mod marks;
mod reading;
mod writing;

pub use marks::{mark, opcode};
pub use reading::read;
pub use writing::write;

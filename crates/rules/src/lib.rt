// The rules that tables are held against, and the verdict on them.
#![tactic(auto)]

mod feeding;
mod fields;
mod hierarchy;
mod judging;
mod refinement;
mod timed;
mod timing;
mod writers;

pub use judging::check;
pub use windows::Windows;

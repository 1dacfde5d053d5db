// The levels of modules.
#![tactic(auto)]

mod walk;

pub use walk::program_meets;

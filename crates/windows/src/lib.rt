// When a task may be out: its release offset, its opening and its end.
#![tactic(auto)]

mod opens;

pub use opens::release_offset;

// The opening and the end of every task, by its number; 0 where there is no task. Two arrays and not one of pairs, since each is filled by a pass of its own that reads only itself.
#[derive(Clone, Copy, PartialEq, Eq, Debug)]
pub struct Windows {
    pub openings: [u16; 64],
    pub ends: [u16; 64],
}

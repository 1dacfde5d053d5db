// The records of a station's tables, and the store that holds them.
#![tactic(auto)]

use bounded::Bounded;

pub mod records;
mod store;

pub use records::{
    Communicator, Dependency, Form, Kind, Mode, Module, Place, Read, Record, Switch, Task, Use,
    Write,
};

// The most records of each kind.
pub const MOST_COMMUNICATORS: usize = 32;

pub const MOST_MODULES: usize = 32;

pub const MOST_MODES: usize = 64;

pub const MOST_TASKS: usize = 64;

pub const MOST_LINES: usize = 128;

// A station's records, a list for each kind.
#[derive(Drop)]
pub struct Tables {
    communicators: Bounded<Communicator, MOST_COMMUNICATORS>,
    modules: Bounded<Module, MOST_MODULES>,
    modes: Bounded<Mode, MOST_MODES>,
    tasks: Bounded<Task, MOST_TASKS>,
    reads: Bounded<Read, MOST_LINES>,
    writes: Bounded<Write, MOST_LINES>,
    dependencies: Bounded<Dependency, MOST_LINES>,
    switches: Bounded<Switch, MOST_LINES>,
}

// What is asked of a running station, and what it answers.
#![tactic(auto)]

// What happened in a call: the clock, the communicators written, the modes entered and the tasks released, each by the numbers of its own kind.
#[derive(Clone, Copy, PartialEq, Eq, Debug)]
pub struct Events {
    pub clock: u32,
    pub written: [bool; 32],
    pub entered: [bool; 64],
    pub released: [bool; 64],
}

// What a call reports: what happened, and how many instructions were carried out for it.
#[derive(Clone, Copy, PartialEq, Eq, Debug)]
pub struct Report {
    pub events: Events,
    pub instructions: usize,
}

// What can be looked at.
#[derive(Clone, Copy, PartialEq, Eq, Debug)]
pub enum Query {
    Communicator(usize),
    Module(usize),
    Output(usize),
    Refused,
}

// What is seen there: a communicator's value, a module's active mode, none while it rests, what an output shows, and how many dones were refused.
#[derive(Clone, Copy, PartialEq, Eq, Debug)]
pub enum Answer {
    Value(i32),
    Active(Option<u8>),
    Shown(i32),
    Refused(u16),
}

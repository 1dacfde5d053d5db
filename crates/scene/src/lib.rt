// What a station keeps of its communicators, tasks and modules, and what each step changes of it.
#![tactic(auto)]

// Where a task stands: idle, expected to be released in this round, or out at work.
#[derive(Clone, Copy, PartialEq, Eq, Debug)]
pub enum Stage {
    Idle,
    Expected,
    Out,
}

// What is kept of a task: its stage, its end and its ports, four inputs and four outputs.
#[derive(Clone, Copy, PartialEq, Eq, Debug)]
pub struct Job {
    pub stage: Stage,
    pub end: u64,
    pub inputs: [i32; 4],
    pub outputs: [i32; 4],
}

// Values by communicator, a job by task, active mode by module, none while it rests: each by the numbers of its own kind.
#[derive(Clone, Copy, PartialEq, Eq, Debug)]
pub struct Scene {
    pub values: [i32; 32],
    pub jobs: [Job; 64],
    pub active: [Option<u8>; 32],
}

// One struct for each kind of record, as its author wrote it: nothing is said yet of what the numbers name.

// What a communicator is for. `Unlisted` is a number that stands for none of them.
#[derive(Clone, Copy, PartialEq, Eq, Debug, Default)]
pub enum Use {
    #[default]
    Plain,
    Sensor,
    Actuator,
    Unlisted(u8),
}

// Whether a task is carried out or stands for those that refine it. `Unlisted` is a number that stands for neither.
#[derive(Clone, Copy, PartialEq, Eq, Debug, Default)]
pub enum Form {
    #[default]
    Concrete,
    Abstract,
    Unlisted(u8),
}

// A timed variable: it takes a new value at most every `period` ticks.
#[derive(Clone, Copy, PartialEq, Eq, Debug, Default)]
pub struct Communicator {
    pub period: u16,
    pub kind: Use,
    pub initial: i32,
}

// A module, owned by a mode of another or, at the top, by none; it is entered at its start mode.
#[derive(Clone, Copy, PartialEq, Eq, Debug, Default)]
pub struct Module {
    pub owner: Option<u8>,
    pub start: u8,
}

// A mode of the module `home`, in rounds of `period` ticks.
#[derive(Clone, Copy, PartialEq, Eq, Debug, Default)]
pub struct Mode {
    pub home: u8,
    pub period: u16,
}

// A task of a mode; one that refines an abstract task has it as parent.
#[derive(Clone, Copy, PartialEq, Eq, Debug, Default)]
pub struct Task {
    pub mode: u8,
    pub inputs: u8,
    pub outputs: u8,
    pub parent: Option<u8>,
    pub form: Form,
}

// A task's input takes a communicator's value at an offset from the round's start.
#[derive(Clone, Copy, PartialEq, Eq, Debug, Default)]
pub struct Read {
    pub task: u8,
    pub input: u8,
    pub communicator: u8,
    pub offset: u16,
}

// A task's output goes to a communicator at an offset from the round's start.
#[derive(Clone, Copy, PartialEq, Eq, Debug, Default)]
pub struct Write {
    pub task: u8,
    pub output: u8,
    pub communicator: u8,
    pub offset: u16,
}

// The output of `task` feeds an input of the task `to`.
#[derive(Clone, Copy, PartialEq, Eq, Debug, Default)]
pub struct Dependency {
    pub task: u8,
    pub output: u8,
    pub to: u8,
    pub input: u8,
}

// At the end of a round of `mode` its module goes to `target` if the condition holds.
#[derive(Clone, Copy, PartialEq, Eq, Debug, Default)]
pub struct Switch {
    pub mode: u8,
    pub condition: u8,
    pub target: u8,
}

// The kinds of record, in the order in which they stand.
#[derive(Clone, Copy, PartialEq, Eq, PartialOrd, Ord, Debug)]
pub enum Kind {
    Communicators,
    Modules,
    Modes,
    Tasks,
    Reads,
    Writes,
    Dependencies,
    Switches,
}

// A record of any kind.
#[derive(Clone, Copy, PartialEq, Eq, Debug)]
pub enum Record {
    Communicator(Communicator),
    Module(Module),
    Mode(Mode),
    Task(Task),
    Read(Read),
    Write(Write),
    Dependency(Dependency),
    Switch(Switch),
}

// A record by its kind and its number within the kind.
#[derive(Clone, Copy, PartialEq, Eq, Debug)]
pub enum Place {
    Communicator(usize),
    Module(usize),
    Mode(usize),
    Task(usize),
    Read(usize),
    Write(usize),
    Dependency(usize),
    Switch(usize),
}

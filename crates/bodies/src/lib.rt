// Two bodies for the bench: the law body and the tell-tale body.
#![tactic(auto)]

mod lawful;
mod telling;

// Every output is the set value less the first input.
#[derive(Clone, Copy, PartialEq, Eq, Debug)]
pub struct Law {
    pub set: i32,
}

// Every output tells its task and its place, and the sum of the inputs.
#[derive(Clone, Copy, PartialEq, Eq, Debug, Default)]
pub struct TellTale;

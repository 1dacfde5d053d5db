// A refusal as a line: its number, what it is about, and why.
use fault::{Cause, Fault, Rule};
use std::fmt;

// The fault that the line is made of: a type of its own, since the core has no texts.
#[derive(Clone, Copy, PartialEq, Eq, Debug)]
pub struct Refused(pub Fault);

// What tables that break a rule do wrong.
fn broken(rule: Rule) -> &'static str {
    match rule {
        Rule::Fields => "a field names nothing that exists or is out of its range",
        Rule::Hierarchy => "modules, modes and switches do not form a program of at most 8 levels",
        Rule::Timing => "a period or an offset does not fit",
        Rule::Feeding => "an input is not fed exactly once or a dependency is out of place",
        Rule::Window => "the task's opening is not below its end",
        Rule::Refinement => "a refinement does not fit what it refines",
        Rule::Writers => "a communicator is written from two sides",
    }
}

// What an instruction ran into.
fn trapped(cause: Cause) -> &'static str {
    match cause {
        Cause::EmptyRegister => "the register is empty",
        Cause::OwnAncestor => "a trigger would become its own ancestor",
        Cause::NoFreeTrigger => "no trigger is free",
        Cause::FullStack => "the stack is full",
        Cause::EmptyStack => "the stack is empty",
        Cause::NotIdle => "the task is not idle",
        Cause::NotExpected => "the task is not expected",
        Cause::TooLong => "the call has run its 4096 instructions",
    }
}

fn reason(fault: Fault) -> &'static str {
    match fault {
        Fault::UnknownMark { .. } => "unknown mark",
        Fault::CutRecord { .. } => "cut record",
        Fault::OutOfOrder { .. } => "kinds out of order",
        Fault::TooMany { .. } => "too many of a kind",
        Fault::Broken { rule, .. } => broken(rule),
        Fault::NoImage { .. } => "no image",
        Fault::BadCode { .. } => "a rule of the code store is broken",
        Fault::Unloadable { .. } => "the tables have nothing of that number",
        Fault::ShortBuffer { .. } => "the buffer is too short",
        Fault::ClockAtEnd => "the clock is at its end",
        Fault::Overdue { .. } => "not done at its end",
        Fault::Stopped => "the machine is stopped",
        Fault::NotOut => "the task is not out",
        Fault::Trap { cause, .. } => trapped(cause),
        Fault::NothingThere => "there is nothing of that number",
    }
}

// The words around the value that comes with a refusal.
fn site(fault: Fault) -> (&'static str, &'static str) {
    match fault {
        Fault::NoImage { .. } | Fault::BadCode { .. } | Fault::Unloadable { .. } => {
            (" at place ", "")
        }
        Fault::ShortBuffer { .. } => (", ", " bytes are needed"),
        Fault::Overdue { .. } => (" task ", ""),
        Fault::Trap { .. } => (" at address ", ""),
        _ => (" at record ", ""),
    }
}

impl fmt::Display for Refused {
    fn fmt<W: fmt::Write>(&self, f: &mut fmt::Formatter<W>) -> fmt::Result {
        let told = self.0.tell();
        write!(f, "refused {}", told.number)?;
        if let Some(value) = told.value {
            let (before, after) = site(self.0);
            write!(f, "{before}{value}{after}")?;
        }
        write!(f, ": {}", reason(self.0))
    }
}

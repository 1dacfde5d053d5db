// The console's commands, one a line.
#![tactic(auto)]

use tables::{Kind, Record};

mod fields;
mod hex;
mod misuses;
mod parsing;

pub use parsing::parse;

// What a line asks for.
#[derive(Drop)]
pub enum Command<'a> {
    Record(Record),
    Bytes(Vec<u8>),
    File(&'a str),
    Clear,
    Records,
    Read,
    Help,
    Heading(&'a str),
    Nothing,
}

// What a line should have been, or that there was no memory to take it in.
#[derive(Clone, Copy, PartialEq, Eq, Debug)]
pub enum Misuse {
    Unknown,
    Mark,
    Fields(Kind),
    Hex,
    Name,
    Clear,
    Records,
    Read,
    Help,
    NoMemory,
}

// What every command does.
pub const HELP: &str = "\
record CO PERIOD KIND INITIAL              append a communicator, KIND 0 plain, 1 sensor, 2 actuator\n\
record MU OWNER START                      append a module, OWNER - at the top\n\
record MO MODULE PERIOD                    append a mode\n\
record TA MODE INPUTS OUTPUTS PARENT FORM  append a task, PARENT - for none, FORM 0 concrete, 1 abstract\n\
record RD TASK INPUT COMMUNICATOR OFFSET   append a read\n\
record WR TASK OUTPUT COMMUNICATOR OFFSET  append a write\n\
record DP TASK OUTPUT TO INPUT             append a dependency\n\
record SW MODE CONDITION TARGET            append a switch\n\
bytes HEX                                  append bytes, two hexadecimal digits each\n\
file NAME                                  append the bytes of a file\n\
clear                                      drop all that was appended\n\
records                                    walk what was appended, a line for each record\n\
read                                       hold what was appended against every rule of the tables\n\
help                                       this list\n\
# begins a comment, and a line that begins with ## is printed as a heading\n";

#[cfg(test)]
mod tests;

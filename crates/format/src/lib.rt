// The bytes of a table record: two letters that tell its kind, then its fields, each number with its larger part first.
#![tactic(auto)]

mod read;
mod write;

pub use read::{decode, form_of, number, use_of};
pub use write::{append, mark, size};

// Why bytes do not begin with a record.
#[derive(Clone, Copy, PartialEq, Eq, Debug)]
pub enum Flaw {
    UnknownMark,
    Cut,
}

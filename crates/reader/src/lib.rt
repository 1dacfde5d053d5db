// From bytes to tables: a cursor that hands out record after record, the walk that stores them, and the tables that keep every rule.
#![tactic(auto)]

ghost use Rattle.std.specs.Prelude.{◌+◌, ◌^◌, ◌<◌, length};
ghost use Rattle.rules.specs.Verdicts.{Keeps};
ghost use Rattle.tables.specs.Stations.{station};

use tables::{Kind, Record, Tables};

mod accepting;
mod steps;
mod walks;

pub use accepting::read;
pub use walks::walk;

// A record with its number, counted from 0 over all kinds.
#[derive(Clone, Copy, PartialEq, Eq, Debug)]
pub struct Numbered {
    pub number: usize,
    pub record: Record,
}

// A place in the bytes of a station: what is left of them, the number of the next record, the kind of the one before.
#[derive(Drop)]
pub struct Cursor<'a> {
    rest: &'a [u8],
    number: usize,
    last: Kind,
    ghost counted: { number + length rest.now < 2 ^ 64 },
}

// Tables that keep every rule; only `read` makes them.
#[derive(Drop)]
pub struct Accepted {
    tables: Tables,
    ghost kept: { Keeps (station tables) },
}

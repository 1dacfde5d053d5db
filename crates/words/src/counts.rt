// How many records of each kind tables have, as a line.
use crate::rows::names;
use std::fmt;
use tables::{Kind, Tables};

// The tables whose records are counted; they are neither compared nor shown, so it derives no more.
#[derive(Clone, Copy)]
pub struct Holdings<'a>(pub &'a Tables);

// Eight lists of eight types.
fn count(tables: &Tables, kind: Kind) -> usize {
    match kind {
        Kind::Communicators => tables.communicators().len(),
        Kind::Modules => tables.modules().len(),
        Kind::Modes => tables.modes().len(),
        Kind::Tasks => tables.tasks().len(),
        Kind::Reads => tables.reads().len(),
        Kind::Writes => tables.writes().len(),
        Kind::Dependencies => tables.dependencies().len(),
        Kind::Switches => tables.switches().len(),
    }
}

impl fmt::Display for Holdings<'_> {
    fn fmt<W: fmt::Write>(&self, f: &mut fmt::Formatter<W>) -> fmt::Result {
        let mut separator = "";
        for kind in Kind::ALL {
            let count = count(self.0, kind);
            let (one, many) = names(kind);
            let name = if count == 1 { one } else { many };
            write!(f, "{separator}{count} {name}")?;
            separator = ", ";
        }
        Ok(())
    }
}

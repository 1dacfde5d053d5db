// From bytes to tables that keep every rule.
ghost use Rattle.std.specs.Prelude.{◌≡◌};
ghost use Rattle.reader.specs.Accepting.{judged, verdict_on};
ghost use Rattle.rules.specs.Promises.{Laws};
ghost use Rattle.rules.specs.Verdicts.{Keeps};
ghost use Rattle.tables.specs.Stations.{station};

use crate::{Accepted, walk};
use fault::Fault;
use rules::check;
use tables::Tables;

// The tables that the bytes say, if they keep every rule; else the first refusal and nothing else.
pub fn read(bytes: &[u8]) -> Result<Accepted, Fault>
    ensures { verdict_on result ≡ judged bytes.now }
{
    let tables = walk(bytes)?;
    check(&tables)?;
    Ok(Accepted { tables })
}

impl Accepted {
    // The tables, which keep every rule.
    pub fn tables(&self) -> &Tables
        ensures value { result.now ≡ self.now.tables }
        ensures kept { Keeps (station result.now) }
        ensures laws { Laws (station result.now) }
    {
        &self.tables
    }
}

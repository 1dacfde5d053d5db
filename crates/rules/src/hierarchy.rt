// Modules, modes and switches form a program of at most eight levels.
ghost use Rattle.std.specs.Prelude.{◌≡◌};
ghost use Rattle.tables.specs.Stations.{station};
ghost use Rattle.rules.specs.Rules.{owner_before, well_placed};

use levels::program_meets;
use lookups::*;
use tables::*;

fn owner_before(tables: &Tables, i: usize, owner: Option<u8>) -> bool
    ensures { result ≡ owner_before (station tables.now) i owner }
{
    owner.is_none_or(|o| usize::from(mode(tables, usize::from(o)).home) < i)
}

pub(crate) fn well_placed(tables: &Tables, at: Place) -> bool
    ensures { result ≡ well_placed (station tables.now) at }
{
    match at {
        Place::Module(i) => {
            let x = module(tables, i);
            usize::from(mode(tables, usize::from(x.start)).home) == i
                && owner_before(tables, i, x.owner)
                && program_meets(tables, i, 8, None)
        }
        Place::Switch(i) => {
            let x = switch(tables, i);
            mode(tables, usize::from(x.target)).home == mode(tables, usize::from(x.mode)).home
        }
        Place::Communicator(_)
        | Place::Mode(_)
        | Place::Task(_)
        | Place::Read(_)
        | Place::Write(_)
        | Place::Dependency(_) => true,
    }
}

// No communicator is written from two sides.
ghost use Rattle.std.specs.Prelude.{◌≡◌};
ghost use Rattle.tables.specs.Stations.{station};
ghost use Rattle.rules.specs.Rules.{rivals, contested, clashes, written_before, writes_twice, writes_alone};

use lookups::*;
use tables::*;

fn are_rivals(tables: &Tables, t: usize, u: usize) -> bool
    ensures { result ≡ rivals (station tables.now) t u }
{
    owner_of(tables, t).is_none()
        && owner_of(tables, u).is_none()
        && (module_of(tables, t) != module_of(tables, u)
            || task(tables, t).mode == task(tables, u).mode)
}

// An earlier rival of a task writes a communicator.
fn is_contested(tables: &Tables, t: usize, c: u8) -> bool
    ensures { result ≡ contested (station tables.now) t c }
{
    tables.writes().iter().any(|x| {
        let u = usize::from(x.task);
        x.communicator == c && u < t && are_rivals(tables, u, t)
    })
}

fn has_clash(tables: &Tables, t: usize) -> bool
    ensures { result ≡ clashes (station tables.now) t }
{
    tables.writes().iter().any(|x| usize::from(x.task) == t
        && is_contested(tables, t, x.communicator))
}

// Among the first n writes there is one of the same task to the same communicator at the same offset.
fn written_before(tables: &Tables, n: usize, x: &Write) -> bool
    ensures { result ≡ written_before (station tables.now) n x.now }
{
    tables.writes().iter().take(n).any(|y| y.task == x.task
        && y.communicator == x.communicator
        && y.offset == x.offset)
}

fn writes_twice(tables: &Tables, t: usize) -> bool
    ensures { result ≡ writes_twice (station tables.now) t }
{
    tables.writes().iter().enumerate().any(|(n, x)| usize::from(x.task) == t
        && written_before(tables, n, x))
}

pub(crate) fn writes_alone(tables: &Tables, at: Place) -> bool
    ensures { result ≡ writes_alone (station tables.now) at }
{
    match at {
        Place::Task(i) => !has_clash(tables, i) && !writes_twice(tables, i),
        Place::Communicator(_)
        | Place::Module(_)
        | Place::Mode(_)
        | Place::Read(_)
        | Place::Write(_)
        | Place::Dependency(_)
        | Place::Switch(_) => true,
    }
}

// Every input has one source.
ghost use Rattle.std.specs.Prelude.{◌≡◌, nat_eq};
ghost use Rattle.tables.specs.Stations.{station};
ghost use Rattle.rules.specs.Rules.{feeds, depends_on_abstract, well_fed};
ghost use Rattle.lookups.specs.Searches.{every};

use lookups::*;
use tables::*;

// How many reads and dependencies feed an input of a task.
fn feeds_of(tables: &Tables, t: usize, input: u8) -> usize
    ensures { result ≡ feeds (station tables.now) t input }
{
    let reads = tables.reads().iter();
    let dependencies = tables.dependencies().iter();
    reads
        .filter(|x| usize::from(x.task) == t && x.input == input)
        .count()
        + dependencies
            .filter(|x| usize::from(x.to) == t && x.input == input)
            .count()
}

// Each of the first inputs is fed exactly once.
fn each_fed(tables: &Tables, t: usize, inputs: u8) -> bool
    ensures { result ≡ every (λ k. nat_eq (feeds (station tables.now) t k) 1) inputs }
{
    (0..inputs).all(|k| feeds_of(tables, t, k) == 1)
}

fn depends_on_abstract(tables: &Tables, t: usize) -> bool
    ensures { result ≡ depends_on_abstract (station tables.now) t }
{
    tables.dependencies().iter().any(|x| usize::from(x.to) == t
        && is_abstract(task(tables, usize::from(x.task)).form))
}

pub(crate) fn well_fed(tables: &Tables, at: Place) -> bool
    ensures { result ≡ well_fed (station tables.now) at }
{
    match at {
        Place::Task(i) => {
            let x = task(tables, i);
            each_fed(tables, i, x.inputs)
                && (is_abstract(x.form) || !depends_on_abstract(tables, i))
        }
        Place::Dependency(i) => {
            let x = dependency(tables, i);
            task(tables, usize::from(x.task)).mode == task(tables, usize::from(x.to)).mode
                && x.task < x.to
        }
        Place::Communicator(_)
        | Place::Module(_)
        | Place::Mode(_)
        | Place::Read(_)
        | Place::Write(_)
        | Place::Switch(_) => true,
    }
}

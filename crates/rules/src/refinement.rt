// What refines an abstract task stays within it.
ghost use Rattle.std.specs.Prelude.{◌≡◌, Some};
ghost use Rattle.tables.specs.Stations.{station};
ghost use Rattle.lookups.specs.Lookups.{owner_of};
ghost use Rattle.rules.specs.Rules.{apart_one, owns, has_abstract, writes_to, depends, depends_on_parent, writes_within, depends_within, apart_from_siblings, refines, has_its_parent, well_refined};

use crate::timed::Timed;
use lookups::*;
use tables::*;

fn owns_module(tables: &Tables, d: usize) -> bool
    ensures { result ≡ owns (station tables.now) d }
{
    tables.modules().iter().any(|x| is_number(x.owner, d))
}

fn has_abstract(tables: &Tables, d: usize) -> bool
    ensures { result ≡ has_abstract (station tables.now) d }
{
    tables
        .tasks()
        .iter()
        .any(|x| usize::from(x.mode) == d && is_abstract(x.form))
}

fn writes_to(tables: &Tables, t: u8, c: u8) -> bool
    ensures { result ≡ writes_to (station tables.now) t c }
{
    tables
        .writes()
        .iter()
        .any(|x| x.task == t && x.communicator == c)
}

// The question of `writes_to`, of other fields of another list.
fn depends_on(tables: &Tables, t: u8, u: u8) -> bool
    ensures { result ≡ depends (station tables.now) t u }
{
    tables
        .dependencies()
        .iter()
        .any(|x| x.to == t && x.task == u)
}

fn depends_on_parent(tables: &Tables, p: u8, parent: Option<u8>) -> bool
    ensures { result ≡ depends_on_parent (station tables.now) p parent }
{
    parent.is_some_and(|q| depends_on(tables, p, q))
}

// A task that refines another, in the tables of both; these have neither equality nor a printed form, so it derives no more.
#[derive(Clone, Copy)]
struct Refinement<'a> {
    tables: &'a Tables,
    task: usize,
    parent: u8,
}

impl Refinement<'_> {
    fn writes_within(&self) -> bool
        ensures { result ≡ writes_within (station self.now.tables.now) self.now.task self.now.parent }
    {
        let Refinement {
            tables,
            task: t,
            parent: p,
        } = *self;
        tables.writes().iter().all(|x| usize::from(x.task) != t
            || writes_to(tables, p, x.communicator))
    }

    fn depends_within(&self) -> bool
        ensures { result ≡ depends_within (station self.now.tables.now) self.now.task self.now.parent }
    {
        let Refinement {
            tables,
            task: t,
            parent: p,
        } = *self;
        tables.dependencies().iter().all(|x| {
            usize::from(x.to) != t
                || depends_on_parent(tables, p, task(tables, usize::from(x.task)).parent)
        })
    }

    // An earlier task is no sibling, or lies in another mode of the same module.
    fn is_apart_from(&self, u: usize) -> bool
        ensures { result ≡ apart_one (station self.now.tables.now) u self.now.task self.now.parent }
    {
        let Refinement {
            tables,
            task: t,
            parent: p,
        } = *self;
        !is_number(task(tables, u).parent, usize::from(p))
            || (task(tables, u).mode != task(tables, t).mode
                && module_of(tables, u) == module_of(tables, t))
    }

    fn is_apart_from_siblings(&self) -> bool
        ensures { result ≡ apart_from_siblings (station self.now.tables.now) self.now.task self.now.parent }
    {
        (0..self.task).all(|u| self.is_apart_from(u))
    }
}

// A task refines another of a mode.
fn refines(timed: &Timed<'_>, t: usize, o: u8, p: u8) -> bool
    ensures { result ≡ refines (station timed.now.tables.now) t o (Some p) }
{
    let (tables, windows) = (timed.tables, &timed.windows);
    let refinement = Refinement {
        tables,
        task: t,
        parent: p,
    };
    let x = task(tables, usize::from(p));
    is_abstract(x.form)
        && x.mode == o
        && windows.opening(t) <= windows.opening(usize::from(p))
        && windows.end(usize::from(p)) <= windows.end(t)
        && refinement.writes_within()
        && refinement.depends_within()
        && refinement.is_apart_from_siblings()
}

fn has_its_parent(timed: &Timed<'_>, t: usize) -> bool
    ensures { result ≡ has_its_parent (station timed.now.tables.now) t (owner_of (station timed.now.tables.now) t) }
{
    match (owner_of(timed.tables, t), task(timed.tables, t).parent) {
        (None, parent) => parent.is_none(),
        (Some(_), None) => false,
        (Some(o), Some(p)) => refines(timed, t, o, p),
    }
}

pub(crate) fn well_refined(timed: &Timed<'_>, at: Place) -> bool
    ensures { result ≡ well_refined (station timed.now.tables.now) at }
{
    let tables = timed.tables;
    match at {
        Place::Mode(i) => owns_module(tables, i) == has_abstract(tables, i),
        Place::Task(i) => has_its_parent(timed, i),
        Place::Communicator(_)
        | Place::Module(_)
        | Place::Read(_)
        | Place::Write(_)
        | Place::Dependency(_)
        | Place::Switch(_) => true,
    }
}

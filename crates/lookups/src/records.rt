// Records by their number; where there is none, a blank one.
ghost use Rattle.std.specs.Prelude.{◌≡◌, slice_index_or};
ghost use Rattle.tables.specs.Stations.{station};
ghost use Rattle.lookups.specs.Lookups.{communicator_at, module_at, mode_at, task_at, read_at, write_at, dependency_at, switch_at, is_abstract, is_number, module_of, owner_of};

use tables::*;

pub fn item<T: Copy>(all: &[T], i: usize, blank: T) -> T
    ensures { result ≡ slice_index_or all.now i blank }
{
    *all.get(i).unwrap_or(&blank)
}

// A name for each kind of record over the one generic look-up, since `mode(tables, d)` says more plainly what types and defaults would say at each use.
pub fn communicator(tables: &Tables, i: usize) -> Communicator
    ensures { result ≡ communicator_at (station tables.now) i }
{
    item(tables.communicators(), i, Communicator::default())
}

pub fn module(tables: &Tables, i: usize) -> Module
    ensures { result ≡ module_at (station tables.now) i }
{
    item(tables.modules(), i, Module::default())
}

pub fn mode(tables: &Tables, i: usize) -> Mode
    ensures { result ≡ mode_at (station tables.now) i }
{
    item(tables.modes(), i, Mode::default())
}

pub fn task(tables: &Tables, i: usize) -> Task
    ensures { result ≡ task_at (station tables.now) i }
{
    item(tables.tasks(), i, Task::default())
}

pub fn read(tables: &Tables, i: usize) -> Read
    ensures { result ≡ read_at (station tables.now) i }
{
    item(tables.reads(), i, Read::default())
}

pub fn write(tables: &Tables, i: usize) -> Write
    ensures { result ≡ write_at (station tables.now) i }
{
    item(tables.writes(), i, Write::default())
}

pub fn dependency(tables: &Tables, i: usize) -> Dependency
    ensures { result ≡ dependency_at (station tables.now) i }
{
    item(tables.dependencies(), i, Dependency::default())
}

pub fn switch(tables: &Tables, i: usize) -> Switch
    ensures { result ≡ switch_at (station tables.now) i }
{
    item(tables.switches(), i, Switch::default())
}

pub fn is_abstract(form: Form) -> bool
    ensures { result ≡ is_abstract form }
{
    form == Form::Abstract
}

// Whether an owner or parent is this one.
pub fn is_number(number: Option<u8>, i: usize) -> bool
    ensures { result ≡ is_number number i }
{
    number.is_some_and(|j| usize::from(j) == i)
}

// The module that a task lies in.
pub fn module_of(tables: &Tables, t: usize) -> u8
    ensures { result ≡ module_of (station tables.now) t }
{
    mode(tables, usize::from(task(tables, t).mode)).home
}

// The owner of the module that a task lies in.
pub fn owner_of(tables: &Tables, t: usize) -> Option<u8>
    ensures { result ≡ owner_of (station tables.now) t }
{
    module(tables, usize::from(module_of(tables, t))).owner
}

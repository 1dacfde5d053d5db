// When a task may be out.
ghost use Rattle.std.specs.Prelude.{◌≡◌, min, max, map, filter, fold, ◌==◌, length, slice_index};
ghost use Rattle.tables.specs.Stations.{station};
ghost use Rattle.windows.specs.Windows.{release_offset, write_offset, openings as openings_of, ends as ends_of};

use crate::Windows;
use lookups::*;
use tables::Tables;

// The latest offset of the reads of a task, or 0: those of other tasks count as 0, which costs less than a filter.
pub fn release_offset(tables: &Tables, t: usize) -> u16
    ensures { result ≡ release_offset (station tables.now) t }
{
    tables
        .reads()
        .iter()
        .map(|read| if usize::from(read.task) == t {
            read.offset
        } else {
            0
        })
        .fold(0, u16::max)
}

// The earliest of an offset and those of the writes of a task: of other records than `release_offset`, and the other extreme.
// This function and the next two are given the offset to begin with: where it was the result of a call, the proof of the chain stayed open.
fn earliest_write(tables: &Tables, t: usize, from: u16) -> u16
    ensures { result ≡ fold min from (map (λ w. w.offset) (filter (λ w. w.task == t) (station tables.now).writes)) }
{
    tables
        .writes()
        .iter()
        .filter(|write| usize::from(write.task) == t)
        .map(|write| write.offset)
        .fold(from, u16::min)
}

// The earliest offset of the writes of a task, at most its mode's period.
fn write_offset(tables: &Tables, t: usize) -> u16
    ensures { result ≡ write_offset (station tables.now) t }
{
    let home = usize::from(task(tables, t).mode);
    earliest_write(tables, t, mode(tables, home).period)
}

// This chain and the next read opposite ends of a dependency and keep opposite extremes: one chain for both would take three closures.

// The latest of an offset and the openings of those that a task depends on.
fn latest_opening(tables: &Tables, openings: &[u16], t: usize, from: u16) -> u16
    ensures { result ≡ fold max from (map (λ d. slice_index openings.now d.task) (filter (λ d. d.to == t) (station tables.now).dependencies)) }
{
    tables
        .dependencies()
        .iter()
        .filter(|edge| usize::from(edge.to) == t)
        .map(|edge| item(openings, usize::from(edge.task), 0))
        .fold(from, u16::max)
}

// The earliest of an offset and the ends of those that depend on a task.
fn earliest_end(tables: &Tables, ends: &[u16], t: usize, from: u16) -> u16
    ensures { result ≡ fold min from (map (λ d. slice_index ends.now d.to) (filter (λ d. d.task == t) (station tables.now).dependencies)) }
{
    tables
        .dependencies()
        .iter()
        .filter(|edge| usize::from(edge.task) == t)
        .map(|edge| item(ends, usize::from(edge.to), 0))
        .fold(from, u16::min)
}

// The openings of all tasks, ascending: each is found by those before it in the array that is being filled.
fn openings(tables: &Tables) -> [u16; 64]
    ensures { result ≡ openings_of (station tables.now) }
{
    let mut known = [0; 64];
    for t in 0..tables.tasks().len() {
        known[t] = latest_opening(tables, &known, t, release_offset(tables, t));
    }
    known
}

// The ends of all tasks, descending: each is found by those after it in the array that is being filled.
fn ends(tables: &Tables) -> [u16; 64]
    ensures { result ≡ ends_of (station tables.now) }
{
    let mut known = [0; 64];
    for t in (0..tables.tasks().len()).rev() {
        known[t] = earliest_end(tables, &known, t, write_offset(tables, t));
    }
    known
}

impl Windows {
    // The openings and ends of all tasks.
    pub fn of(tables: &Tables) -> Windows
        ensures { (result.openings ≡ openings_of (station tables.now)) × (result.ends ≡ ends_of (station tables.now)) }
    {
        Windows {
            openings: openings(tables),
            ends: ends(tables),
        }
    }

    // A getter for each array.
    pub fn opening(&self, t: usize) -> u16
        ensures { result ≡ slice_index self.now.openings t }
    {
        item(&self.openings, t, 0)
    }

    pub fn end(&self, t: usize) -> u16
        ensures { result ≡ slice_index self.now.ends t }
    {
        item(&self.ends, t, 0)
    }
}

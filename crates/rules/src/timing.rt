// Periods and offsets fit one another.
ghost use Rattle.std.specs.Prelude.{◌≡◌};
ghost use Rattle.tables.specs.Stations.{station};
ghost use Rattle.rules.specs.Rules.{multiple, period_of_owner, task_period, in_step, well_timed};

use lookups::*;
use tables::*;

fn is_multiple(x: u16, period: u16) -> bool
    ensures { result ≡ multiple x period }
{
    period > 0 && x % period == 0
}

fn period_of_owner(tables: &Tables, period: u16, owner: Option<u8>) -> bool
    ensures { result ≡ period_of_owner (station tables.now) period owner }
{
    owner.is_none_or(|o| period == mode(tables, usize::from(o)).period)
}

fn task_period(tables: &Tables, t: u8) -> u16
    ensures { result ≡ task_period (station tables.now) t }
{
    mode(tables, usize::from(task(tables, usize::from(t)).mode)).period
}

fn in_step(tables: &Tables, t: u8, c: u8, offset: u16) -> bool
    ensures { result ≡ in_step (station tables.now) t c offset }
{
    let period = communicator(tables, usize::from(c)).period;
    is_multiple(offset, period) && is_multiple(task_period(tables, t), period)
}

pub(crate) fn well_timed(tables: &Tables, at: Place) -> bool
    ensures { result ≡ well_timed (station tables.now) at }
{
    match at {
        Place::Mode(i) => {
            let x = mode(tables, i);
            period_of_owner(tables, x.period, module(tables, usize::from(x.home)).owner)
        }
        Place::Read(i) => {
            let x = read(tables, i);
            x.offset < task_period(tables, x.task)
                && in_step(tables, x.task, x.communicator, x.offset)
        }
        Place::Write(i) => {
            let x = write(tables, i);
            x.offset >= 1
                && x.offset <= task_period(tables, x.task)
                && in_step(tables, x.task, x.communicator, x.offset)
                && communicator(tables, usize::from(x.communicator)).kind != Use::Sensor
        }
        Place::Communicator(_)
        | Place::Module(_)
        | Place::Task(_)
        | Place::Dependency(_)
        | Place::Switch(_) => true,
    }
}

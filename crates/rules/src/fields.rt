// What a field names exists, and what it says lies in its set.
ghost use Rattle.std.specs.Prelude.{◌≡◌};
ghost use Rattle.tables.specs.Stations.{station};
ghost use Rattle.rules.specs.Rules.{none_or_below, fields_fit};

use lookups::*;
use tables::*;

fn none_or_below(number: Option<u8>, count: usize) -> bool
    ensures { result ≡ none_or_below number count }
{
    number.is_none_or(|x| usize::from(x) < count)
}

pub(crate) fn fields_fit(tables: &Tables, at: Place) -> bool
    ensures { result ≡ fields_fit (station tables.now) at }
{
    match at {
        Place::Communicator(i) => {
            let x = communicator(tables, i);
            x.period >= 1 && !matches!(x.kind, Use::Unlisted(_))
        }
        Place::Module(i) => {
            let x = module(tables, i);
            none_or_below(x.owner, tables.modes().len())
                && usize::from(x.start) < tables.modes().len()
        }
        Place::Mode(i) => {
            let x = mode(tables, i);
            usize::from(x.home) < tables.modules().len() && x.period >= 1
        }
        Place::Task(i) => {
            let x = task(tables, i);
            usize::from(x.mode) < tables.modes().len()
                && x.inputs <= 4
                && x.outputs <= 4
                && none_or_below(x.parent, tables.tasks().len())
                && !matches!(x.form, Form::Unlisted(_))
        }
        Place::Read(i) => {
            let x = read(tables, i);
            usize::from(x.task) < tables.tasks().len()
                && x.input < task(tables, usize::from(x.task)).inputs
                && usize::from(x.communicator) < tables.communicators().len()
        }
        Place::Write(i) => {
            let x = write(tables, i);
            usize::from(x.task) < tables.tasks().len()
                && x.output < task(tables, usize::from(x.task)).outputs
                && usize::from(x.communicator) < tables.communicators().len()
        }
        Place::Dependency(i) => {
            let x = dependency(tables, i);
            usize::from(x.task) < tables.tasks().len()
                && x.output < task(tables, usize::from(x.task)).outputs
                && usize::from(x.to) < tables.tasks().len()
                && x.input < task(tables, usize::from(x.to)).inputs
        }
        Place::Switch(i) => {
            let x = switch(tables, i);
            usize::from(x.mode) < tables.modes().len()
                && usize::from(x.target) < tables.modes().len()
        }
    }
}

// The rules in the order of their numbers, each at every record.
ghost use Rattle.std.specs.Prelude.{◌≡◌};
ghost use Rattle.tables.specs.Stations.{station};
ghost use Rattle.rules.specs.Rules.{opens_in_time, holds};
ghost use Rattle.lookups.specs.Searches.{first_failing};
ghost use Rattle.tables.specs.Places.{place};
ghost use Rattle.rules.specs.Verdicts.{record_count, checked, verdict, Exactly};

use crate::feeding::well_fed;
use crate::fields::fields_fit;
use crate::hierarchy::well_placed;
use crate::refinement::well_refined;
use crate::timed::Timed;
use crate::timing::well_timed;
use crate::writers::writes_alone;
use fault::{Fault, Rule};
use tables::{Place, Tables};

// A task opens before it ends.
fn opens_in_time(timed: &Timed<'_>, at: Place) -> bool
    ensures { result ≡ opens_in_time (station timed.now.tables.now) at }
{
    match at {
        Place::Task(i) => timed.windows.opening(i) < timed.windows.end(i),
        Place::Communicator(_)
        | Place::Module(_)
        | Place::Mode(_)
        | Place::Read(_)
        | Place::Write(_)
        | Place::Dependency(_)
        | Place::Switch(_) => true,
    }
}

// Each rule has its test: a match, so that one without a test does not compile.
fn rule_holds(timed: &Timed<'_>, rule: Rule, at: Place) -> bool
    ensures { result ≡ holds (station timed.now.tables.now) rule at }
{
    match rule {
        Rule::Fields => fields_fit(timed.tables, at),
        Rule::Hierarchy => well_placed(timed.tables, at),
        Rule::Timing => well_timed(timed.tables, at),
        Rule::Feeding => well_fed(timed.tables, at),
        Rule::Window => opens_in_time(timed, at),
        Rule::Refinement => well_refined(timed, at),
        Rule::Writers => writes_alone(timed.tables, at),
    }
}

// The first record that breaks a rule.
fn first_broken(timed: &Timed<'_>, rule: Rule) -> Option<usize>
    ensures { result ≡ first_failing (λ k. holds (station timed.now.tables.now) rule (place (station timed.now.tables.now) k)) (record_count (station timed.now.tables.now)) }
{
    let tables = timed.tables;
    (0..tables.count()).find(|k| !rule_holds(timed, rule, tables.place(*k)))
}

// A rule at every record, the earliest that breaks it named.
fn check_rule(timed: &Timed<'_>, rule: Rule) -> Result<(), Fault>
    ensures { result ≡ checked (station timed.now.tables.now) rule }
{
    match first_broken(timed, rule) {
        None => Ok(()),
        Some(record) => Err(Fault::Broken { rule, record }),
    }
}

fn judge(tables: &Tables) -> Result<(), Fault>
    ensures { result ≡ verdict (station tables.now) }
{
    let timed = Timed::of(tables);
    for rule in Rule::ALL {
        check_rule(&timed, rule)?;
    }
    Ok(())
}

// Accepts exactly the tables that keep every rule at every record, and else names the first rule broken and its first record.
pub fn check(tables: &Tables) -> Result<(), Fault>
    ensures value { result ≡ verdict (station tables.now) }
    ensures exact { Exactly (station tables.now) result }
{
    judge(tables)
}

// Sensing and driving what is due, over any plant.
#![tactic(auto)]

ghost use Rattle.std.specs.Prelude.{◌≡◌, ℕ, List, [], ◌++◌};
ghost use Rattle.plant.specs.Acts.{Act};
ghost use Rattle.wiring.specs.Due.{due, sensed, drives};

use plant::Plant;
use tables::{Communicator, Use};

// Whether the communicator of a number has a use and its period divides the clock; a number with none has a plain one of no period.
fn is_due(communicators: &[Communicator], kind: Use, clock: u32, i: usize) -> bool
    ensures { result ≡ due kind communicators.now clock i }
{
    let c = communicators.get(i).copied().unwrap_or_default();
    c.kind == kind && c.period > 0 && clock % u32::from(c.period) == 0
}

// Sensors and outputs have bytes for numbers, and there are 32 values: the casts are proved to fit.

// Every sensor whose period divides the clock gives its communicator what the plant senses, ascending.
#[tactic(auto, using(crate::proofs::Turns::turns))]
pub fn sense_due<P: Plant>(
    plant: &P,
    communicators: &[Communicator],
    clock: u32,
    values: &mut [i32; 32],
)
    ensures { values.new ≡ sensed (P.Plant.means plant.now []).sense communicators.now clock values.old 32 }
{
    for (i, value) in values.iter_mut().enumerate() {
        if is_due(communicators, Use::Sensor, clock, i) {
            *value = plant.sense(i as u8);
        }
    }
}

// Every actuator whose period divides the clock is driven to its communicator's value, ascending.
#[tactic(auto, using(crate::proofs::Turns::turns))]
pub fn drive_due<P: Plant>(
    plant: &mut P,
    communicators: &[Communicator],
    clock: u32,
    values: &[i32; 32],
)
    ensures { (l : List Act) → P.Plant.means plant.new l ≡ P.Plant.means plant.old (drives communicators.now clock values.now 32 ++ l) }
{
    for (i, value) in values.iter().enumerate() {
        if is_due(communicators, Use::Actuator, clock, i) {
            plant.drive(i as u8, *value);
        }
    }
}

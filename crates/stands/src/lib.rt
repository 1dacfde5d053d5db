// Two plants for the bench: the tank stand and the loop-back rack.
#![tactic(auto)]

ghost use Rattle.std.specs.Prelude.{◌≡◌, length};

mod filling;
mod looping;
mod outputs;

use outputs::Outputs;

// Three levels, each with an output that a pass adds to it.
#[derive(Clone, Copy, PartialEq, Eq, Debug)]
pub struct Tank {
    levels: [i32; 3],
    outputs: Outputs,
    ghost three: { length levels ≡ 3 },
}

// Sensors that answer what the output wired to them shows; a wire of 32 and more goes nowhere.
#[derive(Clone, Copy, PartialEq, Eq, Debug)]
pub struct Rack {
    wires: [u8; 32],
    outputs: Outputs,
    ghost wired: { length wires ≡ 32 },
}

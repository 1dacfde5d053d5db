// The loop-back rack.
ghost use Rattle.std.specs.Prelude.{◌≡◌, replicate, pos};
ghost use Rattle.stands.specs.Stands.{rack_means};
ghost use Rattle.std.proofs.Common.{rules};

use crate::Rack;
use crate::outputs::Outputs;
use plant::Plant;

impl Rack {
    // Each sensor wired to an output, or by 32 and more to none; the outputs at 0.
    pub fn new(wires: [u8; 32]) -> Rack
        ensures { (result.wires ≡ wires) × (result.outputs.values ≡ replicate 32 (pos 0)) }
    {
        Rack {
            wires,
            outputs: Outputs { values: [0; 32] },
        }
    }
}

// Showing and driving are the outputs' own, and each stand hands them on.
impl Plant for Rack {
    ghost means = { λ t. rack_means t.wires t.outputs.values };

    ghost drives = { Prim.search rules };

    ghost passes = { Prim.search rules };

    ghost silent = { Prim.search rules };

    ghost inert = { Prim.search rules };

    fn sense(&self, i: u8) -> i32 {
        self.wires
            .get(usize::from(i))
            .map_or(0, |w| self.outputs.shown(*w))
    }

    fn shown(&self, i: u8) -> i32 {
        self.outputs.shown(i)
    }

    fn drive(&mut self, i: u8, v: i32) {
        self.outputs.set(i, v);
    }

    fn pass(&mut self) {}
}

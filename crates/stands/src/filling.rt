// The tank stand.
ghost use Rattle.std.specs.Prelude.{◌≡◌, replicate, pos, ◌+ℤ◌};
ghost use Rattle.stands.specs.Stands.{held, filled, tank_means};
ghost use Rattle.std.proofs.Common.{rules};

use crate::Tank;
use crate::outputs::{Outputs, within};
use plant::Plant;

// A level after a pass, held to 0 to 10,000.
fn raised(level: i32, by: i32) -> i32
    ensures { result ≡ held (level +ℤ by) }
{
    level.saturating_add(by).clamp(0, 10_000)
}

impl Tank {
    // Levels and outputs at 0.
    pub fn new() -> Tank
        ensures { (result.levels ≡ replicate 3 (pos 0)) × (result.outputs.values ≡ replicate 32 (pos 0)) }
    {
        Tank {
            levels: [0; 3],
            outputs: Outputs { values: [0; 32] },
        }
    }

    // The levels after a pass: each with the output that is added to it.
    fn filled(&self) -> [i32; 3]
        ensures { result ≡ filled self.now.levels self.now.outputs.values }
    {
        [(0, 8), (1, 9), (2, 10)].map(|(i, k)| raised(self.sense(i), self.shown(k)))
    }
}

impl Plant for Tank {
    ghost means = { λ t. tank_means t.levels t.outputs.values };

    ghost drives = { Prim.search rules };

    ghost passes = { Prim.search rules };

    ghost silent = { Prim.search rules };

    ghost inert = { Prim.search rules };

    fn sense(&self, i: u8) -> i32 {
        within(&self.levels, i)
    }

    fn shown(&self, i: u8) -> i32 {
        self.outputs.shown(i)
    }

    fn drive(&mut self, i: u8, v: i32) {
        self.outputs.set(i, v);
    }

    fn pass(&mut self) {
        self.levels = self.filled();
    }
}

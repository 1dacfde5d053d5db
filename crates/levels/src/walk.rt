// The walk through program, module, mode and refinement program, in a cycle of calls whose remaining levels fall.
ghost use Rattle.std.specs.Prelude.{◌≡◌, ◌-◌, ◌<◌, Some, None};
ghost use Rattle.tables.specs.Stations.{station};
ghost use Rattle.levels.specs.Levels.{meets, meets_module};

use tables::*;

// The three calls take what the public one takes: a struct would be made for it alone. They are loops and not `any`, since nothing is known of a closure in a cycle of calls.

// The walk down the program of an owner meets a module.
#[cycle(walk_down)]
pub fn program_meets(tables: &Tables, target: usize, levels: u8, owner: Option<u8>) -> bool
    ensures { result ≡ meets (station tables.now) target levels owner }
{
    if levels == 0 {
        return false;
    }
    for (m, module) in tables.modules().iter().enumerate() {
        if module.owner == owner && module_meets(tables, target, levels, m) {
            return true;
        }
    }
    false
}

// The module is the one, or the walk through its modes meets it.
#[cycle(walk_down)]
fn module_meets(tables: &Tables, target: usize, levels: u8, m: usize) -> bool
    requires { 0 < levels }
    ensures { result ≡ meets_module (station tables.now) target (levels - 1) m }
{
    if m == target {
        return true;
    }
    // A mode is named by a byte, and there are at most 64: the cast is proved to fit.
    for (d, mode) in tables.modes().iter().enumerate() {
        if usize::from(mode.home) == m && mode_meets(tables, target, levels, d as u8) {
            return true;
        }
    }
    false
}

// The walk through the program that refines a mode meets it.
#[cycle(walk_down)]
fn mode_meets(tables: &Tables, target: usize, levels: u8, d: u8) -> bool
    requires { 0 < levels }
    ensures { result ≡ meets (station tables.now) target (levels - 1) (Some d) }
{
    program_meets(tables, target, levels - 1, Some(d))
}

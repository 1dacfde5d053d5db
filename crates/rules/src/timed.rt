// Tables with the opening and the end of each task.
ghost use Rattle.std.specs.Prelude.{◌≡◌};
ghost use Rattle.tables.specs.Stations.{station};
ghost use Rattle.windows.specs.Windows.{openings, ends};

use tables::Tables;
use windows::Windows;

#[derive(Drop)]
pub(crate) struct Timed<'a> {
    pub(crate) tables: &'a Tables,
    pub(crate) windows: Windows,
    ghost opens: { windows.openings ≡ openings (station tables.now) },
    ghost closes: { windows.ends ≡ ends (station tables.now) },
}

impl<'a> Timed<'a> {
    pub(crate) fn of(tables: &'a Tables) -> Timed<'a>
        ensures { result.tables.now ≡ tables.now }
    {
        Timed {
            tables,
            windows: Windows::of(tables),
        }
    }
}

// From tables to bytes.
#![tactic(auto)]

ghost use Rattle.std.specs.Prelude.{◌≡◌};
ghost use Rattle.bounded.specs.Items.{items};
ghost use Rattle.format.specs.Records.{station_bytes};
ghost use Rattle.tables.specs.Stations.{station};
ghost use Rattle.writer.specs.Promises.{ReadAgain};

use bounded::Bounded;
use format::append;
use tables::Tables;

// The bytes of the largest tables.
pub const MOST_BYTES: usize = 4384;

// The bytes that say the tables; there is room for the largest.
pub fn write(tables: &Tables) -> Bounded<u8, MOST_BYTES>
    ensures bytes { items result ≡ station_bytes (station tables.now) }
    ensures again { ReadAgain (station tables.now) (items result) }
{
    let mut out = Bounded::new(0);
    // By their numbers over all kinds, which are the order of the bytes: the records lie in eight lists of eight types.
    for record in (0..tables.count()).filter_map(|number| tables.record(number)) {
        // No record is left out: there is room for the largest tables.
        let _ = append(&mut out, record);
    }
    out
}

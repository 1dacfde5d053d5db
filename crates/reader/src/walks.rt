// The walk over a station's bytes.
ghost use Rattle.std.specs.Prelude.{◌≡◌};
ghost use Rattle.reader.specs.Promises.{WrittenAgain};
ghost use Rattle.reader.specs.Walks.{records, outcome};

use crate::Cursor;
use fault::Fault;
use tables::Tables;

// The tables that the bytes say, or the first refusal and nothing else.
pub fn walk(bytes: &[u8]) -> Result<Tables, Fault>
    ensures value { outcome result ≡ records bytes.now }
    ensures again { WrittenAgain bytes.now (outcome result) }
{
    let mut tables = Tables::new();
    let mut cursor = Cursor::new(bytes);
    while let Some(next) = cursor.next()? {
        tables.add(next.number, next.record)?;
    }
    Ok(tables)
}

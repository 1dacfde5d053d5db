// The cursor's steps.
ghost use Rattle.std.specs.Prelude.{◌≡◌, ◌≤◌, length, IfOk};
ghost use Rattle.format.specs.Records.{size};
ghost use Rattle.tables.specs.Kinds.{kind_of};
ghost use Rattle.reader.specs.Steps.{standing, stepped, flawed, next_record};
ghost use Rattle.reader.specs.Walks.{outset};

use crate::{Cursor, Numbered};
use fault::Fault;
use format::{Flaw, decode, size as size_of};
use tables::{Kind, Record};

// The refusal of a record for what is wrong with its bytes.
fn refusal(record: usize, flaw: Flaw) -> Fault
    ensures { result ≡ flawed «record» flaw }
{
    match flaw {
        Flaw::UnknownMark => Fault::UnknownMark { record },
        Flaw::Cut => Fault::CutRecord { record },
    }
}

impl<'a> Cursor<'a> {
    // A cursor before the first record.
    pub fn new(bytes: &'a [u8]) -> Cursor<'a>
        ensures { standing result ≡ outset bytes.now }
    {
        Cursor {
            rest: bytes,
            number: 0,
            last: Kind::Communicators,
        }
    }

    // The next record, or its refusal; the cursor stays.
    fn peek(&self) -> Result<Record, Fault>
        ensures value { result ≡ next_record (standing self.now) }
        ensures whole { IfOk result (λ x. size (kind_of x) ≤ length self.now.rest.now) }
    {
        let number = self.number;
        let record = decode(self.rest).map_err(|flaw| refusal(number, flaw))?;
        if record.kind() < self.last {
            return Err(Fault::OutOfOrder { record: number });
        }
        Ok(record)
    }

    // Hands the next record out and goes past it; at the end, and where it is refused, the cursor stays.
    pub fn next(&mut self) -> Result<Option<Numbered>, Fault>
        ensures { (result, standing self.new) ≡ stepped (standing self.old) }
    {
        if self.rest.is_empty() {
            return Ok(None);
        }
        let number = self.number;
        let record = self.peek()?;
        let kind = record.kind();
        self.rest = &self.rest[size_of(kind)..];
        self.number = number + 1;
        self.last = kind;
        Ok(Some(Numbered { number, record }))
    }
}

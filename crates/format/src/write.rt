// From a record to bytes.
ghost use Rattle.std.specs.Prelude.{◌≡◌, ◌+◌, ◌++◌, length, is_ok, if◌then◌else◌, nat_le};
ghost use Rattle.bounded.specs.Items.{items};
ghost use Rattle.tables.specs.Kinds.{kind_of};
ghost use Rattle.format.specs.Fields.{byte_or_none, use_byte, form_byte};
ghost use Rattle.format.specs.Records.{mark as mark_of, size as size_of, record_bytes};
ghost use Rattle.format.specs.Sound.{FitsWidths};
ghost use Rattle.format.specs.Promises.{ReadAgain};

use bounded::{Bounded, Full};
use tables::*;

// The two letters before a record of a kind.
pub fn mark(kind: Kind) -> [u8; 2]
    ensures { result ≡ mark_of kind }
{
    match kind {
        Kind::Communicators => *b"CO",
        Kind::Modules => *b"MU",
        Kind::Modes => *b"MO",
        Kind::Tasks => *b"TA",
        Kind::Reads => *b"RD",
        Kind::Writes => *b"WR",
        Kind::Dependencies => *b"DP",
        Kind::Switches => *b"SW",
    }
}

// How many bytes a record of a kind has, its mark included.
pub fn size(kind: Kind) -> usize
    ensures { result ≡ size_of kind }
{
    match kind {
        Kind::Communicators => 9,
        Kind::Modules => 4,
        Kind::Modes => 5,
        Kind::Tasks => 7,
        Kind::Reads => 7,
        Kind::Writes => 7,
        Kind::Dependencies => 6,
        Kind::Switches => 5,
    }
}

// Three conversions by name: a From may stand only in the crate of the type, and the bytes are this crate's alone.
fn number_byte(number: Option<u8>) -> u8
    ensures { result ≡ byte_or_none number }
{
    number.unwrap_or(255)
}

fn use_byte(kind: Use) -> u8
    ensures { result ≡ use_byte kind }
{
    match kind {
        Use::Plain => 0,
        Use::Sensor => 1,
        Use::Actuator => 2,
        Use::Unlisted(byte) => byte,
    }
}

fn form_byte(form: Form) -> u8
    ensures { result ≡ form_byte form }
{
    match form {
        Form::Concrete => 0,
        Form::Abstract => 1,
        Form::Unlisted(byte) => byte,
    }
}

// Writes the bytes of a record at the end; without room for all of them nothing is written.
pub fn append<const N: usize>(out: &mut Bounded<u8, N>, record: Record) -> Result<(), Full>
    ensures value { is_ok result ≡ nat_le (length (items out.old) + length (record_bytes «record»)) N }
    ensures after { items out.new ≡ (if is_ok result then items out.old ++ record_bytes «record» else items out.old) }
    ensures fits { FitsWidths «record» }
    ensures again { ReadAgain «record» }
{
    let [m0, m1] = mark(record.kind());
    match record {
        Record::Communicator(c) => {
            let [p0, p1] = c.period.to_be_bytes();
            let [i0, i1, i2, i3] = c.initial.to_be_bytes();
            out.extend_from_slice(&[m0, m1, p0, p1, use_byte(c.kind), i0, i1, i2, i3])
        }
        Record::Module(m) => out.extend_from_slice(&[m0, m1, number_byte(m.owner), m.start]),
        Record::Mode(m) => {
            let [p0, p1] = m.period.to_be_bytes();
            out.extend_from_slice(&[m0, m1, m.home, p0, p1])
        }
        Record::Task(t) => out.extend_from_slice(&[
            m0,
            m1,
            t.mode,
            t.inputs,
            t.outputs,
            number_byte(t.parent),
            form_byte(t.form),
        ]),
        Record::Read(r) => {
            let [o0, o1] = r.offset.to_be_bytes();
            out.extend_from_slice(&[m0, m1, r.task, r.input, r.communicator, o0, o1])
        }
        Record::Write(w) => {
            let [o0, o1] = w.offset.to_be_bytes();
            out.extend_from_slice(&[m0, m1, w.task, w.output, w.communicator, o0, o1])
        }
        Record::Dependency(d) => out.extend_from_slice(&[m0, m1, d.task, d.output, d.to, d.input]),
        Record::Switch(s) => out.extend_from_slice(&[m0, m1, s.mode, s.condition, s.target]),
    }
}

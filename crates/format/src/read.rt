// From bytes to a record.
ghost use Rattle.std.specs.Prelude.{◌≡◌, Ok};
ghost use Rattle.format.specs.Fields.{number_or_none, use_of, form_of};
ghost use Rattle.format.specs.Promises.{WrittenAgain};
ghost use Rattle.format.specs.Records.{kinds, marked, whole_read, record_read};
ghost use Rattle.std.specs.List.{find};

use crate::Flaw;
use crate::write::mark;
use tables::*;

// The owner or parent that a byte stands for; 255 is none.
pub fn number(byte: u8) -> Option<u8>
    ensures { result ≡ number_or_none byte }
{
    (byte != 255).then_some(byte)
}

// What a communicator is for, by its byte; a From may stand only in the crate of the type, and the bytes are this crate's alone.
pub fn use_of(byte: u8) -> Use
    ensures { result ≡ use_of byte }
{
    match byte {
        0 => Use::Plain,
        1 => Use::Sensor,
        2 => Use::Actuator,
        _ => Use::Unlisted(byte),
    }
}

// A task's form, by its byte; a From may stand only in the crate of the type, and the bytes are this crate's alone.
pub fn form_of(byte: u8) -> Form
    ensures { result ≡ form_of byte }
{
    match byte {
        0 => Form::Concrete,
        1 => Form::Abstract,
        _ => Form::Unlisted(byte),
    }
}

// The kind whose mark the bytes begin with.
fn kind_of(bytes: &[u8]) -> Option<Kind>
    ensures { result ≡ find (marked bytes.now) kinds }
{
    let letters = *bytes.first_chunk::<2>()?;
    Kind::ALL
        .iter()
        .copied()
        .find(|kind| mark(*kind) == letters)
}

// A record of a kind, by the bytes that its mark begins.
fn fields(kind: Kind, bytes: &[u8]) -> Result<Record, Flaw>
    ensures { result ≡ whole_read (Ok kind) bytes.now }
{
    Ok(match (kind, bytes) {
        (Kind::Communicators, &[_, _, p0, p1, kind, i0, i1, i2, i3, ..]) => {
            Record::Communicator(Communicator {
                period: u16::from_be_bytes([p0, p1]),
                kind: use_of(kind),
                initial: i32::from_be_bytes([i0, i1, i2, i3]),
            })
        }
        (Kind::Modules, &[_, _, owner, start, ..]) => Record::Module(Module {
            owner: number(owner),
            start,
        }),
        (Kind::Modes, &[_, _, home, p0, p1, ..]) => Record::Mode(Mode {
            home,
            period: u16::from_be_bytes([p0, p1]),
        }),
        (Kind::Tasks, &[_, _, mode, inputs, outputs, parent, form, ..]) => Record::Task(Task {
            mode,
            inputs,
            outputs,
            parent: number(parent),
            form: form_of(form),
        }),
        (Kind::Reads, &[_, _, task, input, communicator, o0, o1, ..]) => Record::Read(Read {
            task,
            input,
            communicator,
            offset: u16::from_be_bytes([o0, o1]),
        }),
        (Kind::Writes, &[_, _, task, output, communicator, o0, o1, ..]) => Record::Write(Write {
            task,
            output,
            communicator,
            offset: u16::from_be_bytes([o0, o1]),
        }),
        (Kind::Dependencies, &[_, _, task, output, to, input, ..]) => {
            Record::Dependency(Dependency {
                task,
                output,
                to,
                input,
            })
        }
        (Kind::Switches, &[_, _, mode, condition, target, ..]) => Record::Switch(Switch {
            mode,
            condition,
            target,
        }),
        _ => return Err(Flaw::Cut),
    })
}

// The record that the bytes begin with, whatever follows it.
pub fn decode(bytes: &[u8]) -> Result<Record, Flaw>
    ensures value { result ≡ record_read bytes.now }
    ensures again { WrittenAgain bytes.now result }
{
    if bytes.len() < 2 {
        return Err(Flaw::Cut);
    }
    fields(kind_of(bytes).ok_or(Flaw::UnknownMark)?, bytes)
}

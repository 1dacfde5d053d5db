// A record by its fields as words.
ghost use Rattle.std.specs.Prelude.{◌≡◌, IfSome};
ghost use Rattle.format.specs.Sound.{PlainFields};
ghost use Rattle.command.specs.Marks.{kind_named};

use format::{form_of, mark, number, use_of};
use std::str::{FromStr, SplitWhitespace};
use tables::*;

// The kind whose mark a word is.
pub(crate) fn kind_named(word: &str) -> Option<Kind>
    ensures { result ≡ kind_named word.now }
{
    Kind::ALL
        .iter()
        .copied()
        .find(|kind| word.as_bytes() == mark(*kind).as_slice())
}

// A number of any width.
fn field<T: FromStr>(words: &mut SplitWhitespace<'_>) -> Option<T>
where
    T::Err: Drop,
{
    words.next()?.parse().ok()
}

// A byte that may stand for none, which is also written as a dash.
fn byte_or_none(words: &mut SplitWhitespace<'_>) -> Option<u8> {
    match words.next()? {
        "-" => Some(255),
        text => text.parse().ok(),
    }
}

// The record of a kind that the words say from first to last.
pub(crate) fn fields(kind: Kind, words: &mut SplitWhitespace<'_>) -> Option<Record>
    ensures { IfSome result PlainFields }
{
    let record = match kind {
        Kind::Communicators => Record::Communicator(Communicator {
            period: field(words)?,
            kind: use_of(field(words)?),
            initial: field(words)?,
        }),
        Kind::Modules => Record::Module(Module {
            owner: number(byte_or_none(words)?),
            start: field(words)?,
        }),
        Kind::Modes => Record::Mode(Mode {
            home: field(words)?,
            period: field(words)?,
        }),
        Kind::Tasks => Record::Task(Task {
            mode: field(words)?,
            inputs: field(words)?,
            outputs: field(words)?,
            parent: number(byte_or_none(words)?),
            form: form_of(field(words)?),
        }),
        Kind::Reads => Record::Read(Read {
            task: field(words)?,
            input: field(words)?,
            communicator: field(words)?,
            offset: field(words)?,
        }),
        Kind::Writes => Record::Write(Write {
            task: field(words)?,
            output: field(words)?,
            communicator: field(words)?,
            offset: field(words)?,
        }),
        Kind::Dependencies => Record::Dependency(Dependency {
            task: field(words)?,
            output: field(words)?,
            to: field(words)?,
            input: field(words)?,
        }),
        Kind::Switches => Record::Switch(Switch {
            mode: field(words)?,
            condition: field(words)?,
            target: field(words)?,
        }),
    };
    Some(record)
}

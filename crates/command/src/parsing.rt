// From a line to a command.
ghost use Rattle.command.specs.Promises.{SaysPlain};
ghost use Rattle.format.specs.Sound.{PlainFields};
ghost use Rattle.std.specs.Prelude.{◌≡◌, IfOk, IfErr};

use crate::fields::{fields, kind_named};
use crate::hex::bytes_of;
use crate::{Command, Misuse};
use std::alloc::Global;
use std::str::SplitWhitespace;
use tables::Record;

// A value where no word is left.
fn last<T: Drop>(value: T, words: &mut SplitWhitespace<'_>, misuse: Misuse) -> Result<T, Misuse>
    ensures ok { IfOk result (λ x. x ≡ value) }
    ensures err { IfErr result (λ why. why ≡ misuse) }
{
    match words.next() {
        Some(_) => Err(misuse),
        None => Ok(value),
    }
}

// The one word that is left.
fn only<'a>(words: &mut SplitWhitespace<'a>, misuse: Misuse) -> Result<&'a str, Misuse> {
    let word = words.next().ok_or(misuse)?;
    last(word, words, misuse)
}

fn record(words: &mut SplitWhitespace<'_>) -> Result<Record, Misuse>
    ensures { IfOk result PlainFields }
{
    let kind = words.next().and_then(kind_named).ok_or(Misuse::Mark)?;
    let record = fields(kind, words).ok_or(Misuse::Fields(kind))?;
    last(record, words, Misuse::Fields(kind))
}

// The command of a line without comments.
fn command<'a>(heap: Global, line: &'a str) -> Result<Command<'a>, Misuse>
    ensures { SaysPlain result }
{
    let mut words = line.split_whitespace();
    let Some(first) = words.next() else {
        return Ok(Command::Nothing);
    };
    match first {
        "record" => Ok(Command::Record(record(&mut words)?)),
        "bytes" => Ok(Command::Bytes(bytes_of(heap, only(&mut words, Misuse::Hex)?)?)),
        "file" => Ok(Command::File(only(&mut words, Misuse::Name)?)),
        "clear" => last(Command::Clear, &mut words, Misuse::Clear),
        "records" => last(Command::Records, &mut words, Misuse::Records),
        "read" => last(Command::Read, &mut words, Misuse::Read),
        "help" => last(Command::Help, &mut words, Misuse::Help),
        _ => Err(Misuse::Unknown),
    }
}

// The command of a line; a record that it gives is the one that is read again from its bytes.
pub fn parse<'a>(heap: Global, line: &'a str) -> Result<Command<'a>, Misuse>
    ensures { SaysPlain result }
{
    if let Some(heading) = line.strip_prefix("##") {
        return Ok(Command::Heading(heading.trim()));
    }
    let said = line.split_once('#').map_or(line, |(before, _)| before);
    command(heap, said)
}

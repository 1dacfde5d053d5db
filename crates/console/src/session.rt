// What a user has gathered, and what each command does with it.
use bounded::Bounded;
use command::{Command, HELP, parse};
use format::append;
use reader::{Cursor, Numbered, read, walk};
use std::alloc::Global;
use std::{fs, io, iter};
use tables::Record;
use words::{Holdings, Refused, Row};

// The bytes of the longest record.
const LONGEST: usize = 9;

// The bytes gathered so far.
#[derive(Drop)]
pub(crate) struct Session {
    bytes: Vec<u8>,
}

// A line for each of the first records.
fn list(rt: &HostRuntime, bytes: &[u8], count: usize) -> io::Result<()> {
    let mut cursor = Cursor::new(bytes);
    let mut kind = None;
    let mut first = 0;
    for Numbered { number, record } in iter::from_fn(|| cursor.next().ok().flatten()).take(count) {
        if kind != Some(record.kind()) {
            kind = Some(record.kind());
            first = number;
        }
        let row = Row {
            number,
            place: number.saturating_sub(first),
            record,
        };
        println!(rt; "{row}")?;
    }
    Ok(())
}

impl Session {
    pub(crate) fn new(heap: Global) -> Session {
        Session {
            bytes: Vec::new(heap),
        }
    }

    // Puts bytes after those that are there.
    fn gather(&mut self, rt: &HostRuntime, more: &[u8]) -> io::Result<()> {
        match self.bytes.extend_from_slice(more) {
            Ok(()) => Ok(()),
            Err(_) => println!(rt; "no memory is left for these bytes"),
        }
    }

    fn gather_record(&mut self, rt: &HostRuntime, record: Record) -> io::Result<()> {
        let mut out = Bounded::<u8, LONGEST>::new(0);
        append(&mut out, record).unwrap();
        self.gather(rt, out.as_slice())
    }

    fn gather_file(&mut self, rt: &HostRuntime, name: &str) -> io::Result<()> {
        match fs::read(rt, name) {
            Ok(more) => self.gather(rt, more.as_slice()),
            Err(_) => println!(rt; "cannot read {name}"),
        }
    }

    // A line for each record up to the end or to the one refused, and what came of the walk.
    fn report(&self, rt: &HostRuntime) -> io::Result<()> {
        let bytes = self.bytes.as_slice();
        match walk(bytes) {
            Ok(tables) => {
                let count = tables.count();
                list(rt, bytes, count)?;
                println!(rt; "walked {count} records")
            }
            Err(fault) => {
                list(rt, bytes, fault.tell().value.unwrap_or(0))?;
                println!(rt; "{}", Refused(fault))
            }
        }
    }

    // Whether the tables keep every rule, or the first that is broken and where.
    fn judge(&self, rt: &HostRuntime) -> io::Result<()> {
        match read(self.bytes.as_slice()) {
            Ok(accepted) => println!(rt; "accepted: {}", Holdings(accepted.tables())),
            Err(fault) => println!(rt; "{}", Refused(fault)),
        }
    }

    fn carry_out(&mut self, rt: &HostRuntime, command: Command<'_>) -> io::Result<()> {
        match command {
            Command::Record(record) => self.gather_record(rt, record),
            Command::Bytes(more) => self.gather(rt, more.as_slice()),
            Command::File(name) => self.gather_file(rt, name),
            Command::Clear => {
                self.bytes.clear();
                Ok(())
            }
            Command::Records => self.report(rt),
            Command::Read => self.judge(rt),
            Command::Help => rt.print(HELP),
            Command::Heading(text) => println!(rt; "{text}"),
            Command::Nothing => Ok(()),
        }
    }

    // Does what a line asks for, or says what was expected.
    pub(crate) fn obey(&mut self, rt: &HostRuntime, line: &str) -> io::Result<()> {
        match parse(rt.alloc(), line) {
            Ok(command) => self.carry_out(rt, command),
            Err(misuse) => println!(rt; "{misuse}"),
        }
    }
}

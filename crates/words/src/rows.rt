// A record as a line: its number, its kind with its number within the kind, and its fields.
use std::fmt;
use tables::*;

// A record with its number over all kinds and its place among those of its kind.
#[derive(Clone, Copy, PartialEq, Eq, Debug)]
pub struct Row {
    pub number: usize,
    pub place: usize,
    pub record: Record,
}

// Fields in words, each with words of its own: the types of the tables have no Display, since the core runs on a controller and has no texts.
#[derive(Clone, Copy, PartialEq, Eq, Debug)]
struct Purpose(Use);

#[derive(Clone, Copy, PartialEq, Eq, Debug)]
struct Shape(Form);

// An owner or parent by the words before its number, or the words for none.
#[derive(Clone, Copy, PartialEq, Eq, Debug)]
struct OrNone {
    number: Option<u8>,
    before: &'static str,
    none: &'static str,
}

impl fmt::Display for Purpose {
    fn fmt<W: fmt::Write>(&self, f: &mut fmt::Formatter<W>) -> fmt::Result {
        match self.0 {
            Use::Plain => f.write_str("plain"),
            Use::Sensor => f.write_str("sensor"),
            Use::Actuator => f.write_str("actuator"),
            Use::Unlisted(byte) => write!(f, "use {byte}"),
        }
    }
}

impl fmt::Display for Shape {
    fn fmt<W: fmt::Write>(&self, f: &mut fmt::Formatter<W>) -> fmt::Result {
        match self.0 {
            Form::Concrete => f.write_str("concrete"),
            Form::Abstract => f.write_str("abstract"),
            Form::Unlisted(byte) => write!(f, "form {byte}"),
        }
    }
}

impl fmt::Display for OrNone {
    fn fmt<W: fmt::Write>(&self, f: &mut fmt::Formatter<W>) -> fmt::Result {
        match self.number {
            None => f.write_str(self.none),
            Some(number) => write!(f, "{} {number}", self.before),
        }
    }
}

fn owner(number: Option<u8>) -> OrNone {
    OrNone {
        number,
        before: "owned by mode",
        none: "top",
    }
}

fn parent(number: Option<u8>) -> OrNone {
    OrNone {
        number,
        before: "parent task",
        none: "no parent",
    }
}

// The names of a kind, for one record and for any other number of them.
pub(crate) fn names(kind: Kind) -> (&'static str, &'static str) {
    match kind {
        Kind::Communicators => ("communicator", "communicators"),
        Kind::Modules => ("module", "modules"),
        Kind::Modes => ("mode", "modes"),
        Kind::Tasks => ("task", "tasks"),
        Kind::Reads => ("read", "reads"),
        Kind::Writes => ("write", "writes"),
        Kind::Dependencies => ("dependency", "dependencies"),
        Kind::Switches => ("switch", "switches"),
    }
}

impl fmt::Display for Row {
    fn fmt<W: fmt::Write>(&self, f: &mut fmt::Formatter<W>) -> fmt::Result {
        let (name, _) = names(self.record.kind());
        write!(f, "record {}: {name} {}: ", self.number, self.place)?;
        match self.record {
            Record::Communicator(c) => write!(
                f,
                "{}, period {}, initial {}",
                Purpose(c.kind),
                c.period,
                c.initial
            ),
            Record::Module(m) => write!(f, "{}, starts in mode {}", owner(m.owner), m.start),
            Record::Mode(m) => write!(f, "in module {}, period {}", m.home, m.period),
            Record::Task(t) => write!(
                f,
                "in mode {}, {} inputs, {} outputs, {}, {}",
                t.mode,
                t.inputs,
                t.outputs,
                parent(t.parent),
                Shape(t.form)
            ),
            Record::Read(r) => write!(
                f,
                "task {} input {} from communicator {} at offset {}",
                r.task, r.input, r.communicator, r.offset
            ),
            Record::Write(w) => write!(
                f,
                "task {} output {} to communicator {} at offset {}",
                w.task, w.output, w.communicator, w.offset
            ),
            Record::Dependency(d) => write!(
                f,
                "task {} output {} to task {} input {}",
                d.task, d.output, d.to, d.input
            ),
            Record::Switch(s) => write!(
                f,
                "mode {} to mode {} on condition {}",
                s.mode, s.target, s.condition
            ),
        }
    }
}

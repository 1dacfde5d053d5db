// What can be done with a table store, told by the station that it holds.
ghost use Rattle.std.specs.Prelude.{◌≡◌, ◌≤◌, length, if◌then◌else◌};
ghost use Rattle.std.specs.List.{slice_get};
ghost use Rattle.tables.specs.Places.{place, record_at};
ghost use Rattle.tables.specs.Kinds.{kind_of, rank, most};
ghost use Rattle.tables.specs.Stations.{Station, station, empty, count, has_room, with_record, taken_in, Few, rows};

use super::Tables;
use super::records::*;
use bounded::Bounded;
use fault::Fault;

impl Kind {
    // All kinds in their order.
    pub const ALL: [Kind; 8] = [
        Kind::Communicators,
        Kind::Modules,
        Kind::Modes,
        Kind::Tasks,
        Kind::Reads,
        Kind::Writes,
        Kind::Dependencies,
        Kind::Switches,
    ];

    // The place in the order of the kinds, which is that of their declaration.
    pub fn rank(self) -> u8
        ensures { result ≡ rank self }
    {
        self as u8
    }
}

impl Record {
    pub fn kind(self) -> Kind
        ensures { result ≡ kind_of self }
    {
        match self {
            Record::Communicator(_) => Kind::Communicators,
            Record::Module(_) => Kind::Modules,
            Record::Mode(_) => Kind::Modes,
            Record::Task(_) => Kind::Tasks,
            Record::Read(_) => Kind::Reads,
            Record::Write(_) => Kind::Writes,
            Record::Dependency(_) => Kind::Dependencies,
            Record::Switch(_) => Kind::Switches,
        }
    }
}

impl Tables {
    // A store without any record.
    pub fn new() -> Tables
        ensures { station result ≡ empty }
    {
        Tables {
            communicators: Bounded::new(Communicator::default()),
            modules: Bounded::new(Module::default()),
            modes: Bounded::new(Mode::default()),
            tasks: Bounded::new(Task::default()),
            reads: Bounded::new(Read::default()),
            writes: Bounded::new(Write::default()),
            dependencies: Bounded::new(Dependency::default()),
            switches: Bounded::new(Switch::default()),
        }
    }

    // Takes the record of a number in; one too many of its kind is refused and the store stays as it is.
    pub fn add(&mut self, number: usize, record: Record) -> Result<(), Fault>
        ensures value { result ≡ taken_in (station self.old) number «record» }
        ensures after { station self.new ≡ (if has_room (station self.old) «record» then with_record (station self.old) «record» else station self.old) }
    {
        let taken = match record {
            Record::Communicator(x) => self.communicators.push(x),
            Record::Module(x) => self.modules.push(x),
            Record::Mode(x) => self.modes.push(x),
            Record::Task(x) => self.tasks.push(x),
            Record::Read(x) => self.reads.push(x),
            Record::Write(x) => self.writes.push(x),
            Record::Dependency(x) => self.dependencies.push(x),
            Record::Switch(x) => self.switches.push(x),
        };
        taken.map_err(|_| Fault::TooMany { record: number })
    }

    // How many records there are of all kinds.
    pub fn count(&self) -> usize
        ensures value { result ≡ length (rows (station self.now)) }
        ensures few { Few (station self.now) }
    {
        self.communicators.len()
            + self.modules.len()
            + self.modes.len()
            + self.tasks.len()
            + self.reads.len()
            + self.writes.len()
            + self.dependencies.len()
            + self.switches.len()
    }

    // Kind and number within the kind of the record that has a number over all kinds: a step for each list, where a loop would need a table of constructors.
    pub fn place(&self, number: usize) -> Place
        ensures { result ≡ place (station self.now) number }
    {
        let n = number;
        let Some(n) = n.checked_sub(self.communicators.len()) else {
            return Place::Communicator(n);
        };
        let Some(n) = n.checked_sub(self.modules.len()) else {
            return Place::Module(n);
        };
        let Some(n) = n.checked_sub(self.modes.len()) else {
            return Place::Mode(n);
        };
        let Some(n) = n.checked_sub(self.tasks.len()) else {
            return Place::Task(n);
        };
        let Some(n) = n.checked_sub(self.reads.len()) else {
            return Place::Read(n);
        };
        let Some(n) = n.checked_sub(self.writes.len()) else {
            return Place::Write(n);
        };
        let Some(n) = n.checked_sub(self.dependencies.len()) else {
            return Place::Dependency(n);
        };
        Place::Switch(n)
    }

    // The record at a place, if there is one.
    pub fn at(&self, place: Place) -> Option<Record>
        ensures { result ≡ record_at (station self.now) place }
    {
        match place {
            Place::Communicator(i) => self.communicators.get(i).map(Record::Communicator),
            Place::Module(i) => self.modules.get(i).map(Record::Module),
            Place::Mode(i) => self.modes.get(i).map(Record::Mode),
            Place::Task(i) => self.tasks.get(i).map(Record::Task),
            Place::Read(i) => self.reads.get(i).map(Record::Read),
            Place::Write(i) => self.writes.get(i).map(Record::Write),
            Place::Dependency(i) => self.dependencies.get(i).map(Record::Dependency),
            Place::Switch(i) => self.switches.get(i).map(Record::Switch),
        }
    }

    // The record of a number, counted from 0 over all kinds.
    pub fn record(&self, number: usize) -> Option<Record>
        ensures { result ≡ slice_get (rows (station self.now)) number }
    {
        self.at(self.place(number))
    }

    // A getter for each list, with the bound of that list: `tables.writes()` says more plainly what a generic getter would say by a type.
    pub fn communicators(&self) -> &[Communicator]
        ensures value { result.now ≡ (station self.now).communicators }
        ensures few { length result.now ≤ 32 }
    {
        self.communicators.as_slice()
    }

    pub fn modules(&self) -> &[Module]
        ensures value { result.now ≡ (station self.now).modules }
        ensures few { length result.now ≤ 32 }
    {
        self.modules.as_slice()
    }

    pub fn modes(&self) -> &[Mode]
        ensures value { result.now ≡ (station self.now).modes }
        ensures few { length result.now ≤ 64 }
    {
        self.modes.as_slice()
    }

    pub fn tasks(&self) -> &[Task]
        ensures value { result.now ≡ (station self.now).tasks }
        ensures few { length result.now ≤ 64 }
    {
        self.tasks.as_slice()
    }

    pub fn reads(&self) -> &[Read]
        ensures value { result.now ≡ (station self.now).reads }
        ensures few { length result.now ≤ 128 }
    {
        self.reads.as_slice()
    }

    pub fn writes(&self) -> &[Write]
        ensures value { result.now ≡ (station self.now).writes }
        ensures few { length result.now ≤ 128 }
    {
        self.writes.as_slice()
    }

    pub fn dependencies(&self) -> &[Dependency]
        ensures value { result.now ≡ (station self.now).dependencies }
        ensures few { length result.now ≤ 128 }
    {
        self.dependencies.as_slice()
    }

    pub fn switches(&self) -> &[Switch]
        ensures value { result.now ≡ (station self.now).switches }
        ensures few { length result.now ≤ 128 }
    {
        self.switches.as_slice()
    }
}

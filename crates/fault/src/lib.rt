// Every refusal of the product, as the one type that all parts hand up.
#![tactic(auto)]

ghost use Rattle.std.specs.Prelude.{◌≡◌};
ghost use Rattle.fault.specs.Refusals.{number, told};

// The part that refuses.
#[derive(Clone, Copy, PartialEq, Eq, Debug)]
pub enum Part {
    Reader,
    Generator,
    Loader,
    Machine,
}

// The rules that tables are held against, by number from 3 to 9.
#[derive(Clone, Copy, PartialEq, Eq, Debug)]
pub enum Rule {
    Fields,
    Hierarchy,
    Timing,
    Feeding,
    Window,
    Refinement,
    Writers,
}

// Why an instruction could not be carried out.
#[derive(Clone, Copy, PartialEq, Eq, Debug)]
pub enum Cause {
    EmptyRegister,
    OwnAncestor,
    NoFreeTrigger,
    FullStack,
    EmptyStack,
    NotIdle,
    NotExpected,
    TooLong,
}

// A refusal, with what it is about.
#[derive(Clone, Copy, PartialEq, Eq, Debug)]
pub enum Fault {
    UnknownMark { record: usize },
    CutRecord { record: usize },
    OutOfOrder { record: usize },
    TooMany { record: usize },
    Broken { rule: Rule, record: usize },
    NoImage { place: usize },
    BadCode { place: usize },
    Unloadable { place: usize },
    ShortBuffer { needed: usize },
    ClockAtEnd,
    Overdue { task: usize },
    Stopped,
    NotOut,
    Trap { cause: Cause, address: usize },
    NothingThere,
}

// What is told of a refusal to whoever called: the part, the number, and the value with it. Within the product a refusal is its `Fault`.
#[derive(Clone, Copy, PartialEq, Eq, Debug)]
pub struct Refusal {
    pub part: Part,
    pub number: u8,
    pub value: Option<usize>,
}

impl Rule {
    // All rules in the order of their numbers.
    pub const ALL: [Rule; 7] = [
        Rule::Fields,
        Rule::Hierarchy,
        Rule::Timing,
        Rule::Feeding,
        Rule::Window,
        Rule::Refinement,
        Rule::Writers,
    ];

    // The rule's number: a match, so that what is promised stands beside each rule.
    pub fn number(self) -> u8
        ensures { result ≡ number self }
    {
        match self {
            Rule::Fields => 3,
            Rule::Hierarchy => 4,
            Rule::Timing => 5,
            Rule::Feeding => 6,
            Rule::Window => 7,
            Rule::Refinement => 8,
            Rule::Writers => 9,
        }
    }
}

impl Fault {
    // Part, number and value of the refusal.
    pub fn tell(self) -> Refusal
        ensures { result ≡ told self }
    {
        let (part, number, value) = match self {
            Fault::UnknownMark { record }
            | Fault::CutRecord { record }
            | Fault::OutOfOrder { record } => (Part::Reader, 1, Some(record)),
            Fault::TooMany { record } => (Part::Reader, 2, Some(record)),
            Fault::Broken { rule, record } => (Part::Reader, rule.number(), Some(record)),
            Fault::NoImage { place } => (Part::Loader, 10, Some(place)),
            Fault::BadCode { place } | Fault::Unloadable { place } => (
                Part::Loader,
                11,
                Some(place),
            ),
            Fault::ShortBuffer { needed } => (Part::Generator, 12, Some(needed)),
            Fault::ClockAtEnd => (Part::Machine, 13, None),
            Fault::Overdue { task } => (Part::Machine, 14, Some(task)),
            Fault::Stopped => (Part::Machine, 15, None),
            Fault::NotOut => (Part::Machine, 16, None),
            Fault::Trap { cause: _, address } => (Part::Machine, 17, Some(address)),
            Fault::NothingThere => (Part::Machine, 18, None),
        };
        Refusal {
            part,
            number,
            value,
        }
    }
}

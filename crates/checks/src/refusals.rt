// Every refusal has its number.
use fault::{Cause, Fault, Part, Rule};

#[test]
fn numbers_run_from_1_to_18(rt: HostRuntime) {
    let faults = [
        Fault::UnknownMark { record: 0 },
        Fault::TooMany { record: 0 },
        Fault::Broken {
            rule: Rule::Fields,
            record: 0,
        },
        Fault::Broken {
            rule: Rule::Hierarchy,
            record: 0,
        },
        Fault::Broken {
            rule: Rule::Timing,
            record: 0,
        },
        Fault::Broken {
            rule: Rule::Feeding,
            record: 0,
        },
        Fault::Broken {
            rule: Rule::Window,
            record: 0,
        },
        Fault::Broken {
            rule: Rule::Refinement,
            record: 0,
        },
        Fault::Broken {
            rule: Rule::Writers,
            record: 0,
        },
        Fault::NoImage { place: 0 },
        Fault::BadCode { place: 0 },
        Fault::ShortBuffer { needed: 0 },
        Fault::ClockAtEnd,
        Fault::Overdue { task: 0 },
        Fault::Stopped,
        Fault::NotOut,
        Fault::Trap {
            cause: Cause::EmptyStack,
            address: 0,
        },
        Fault::NothingThere,
    ];
    assert_eq!(rt; faults.len(), 18);
    for (number, fault) in (1..=18).zip(faults) {
        assert_eq!(rt; fault.tell().number, number);
    }
}

#[test]
fn the_value_is_handed_on(rt: HostRuntime) {
    assert_eq!(rt; Fault::CutRecord { record: 5 }.tell().value, Some(5));
    assert_eq!(rt; Fault::OutOfOrder { record: 6 }.tell().number, 1);
    assert_eq!(rt; Fault::Unloadable { place: 7 }.tell().part, Part::Loader);
    assert_eq!(rt; Fault::Stopped.tell().value, None);
}

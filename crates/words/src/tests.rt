// The lines, word by word.
use crate::*;
use fault::*;
use std::test::Fail;
use tables::*;

fn broken(rule: Rule) -> Fault {
    Fault::Broken { rule, record: 7 }
}

fn trap(cause: Cause) -> Fault {
    Fault::Trap {
        cause,
        address: 4095,
    }
}

#[test]
fn of_refusals(rt: HostRuntime) -> Result<(), Fail> {
    let cases = [
        (
            Fault::UnknownMark { record: 3 },
            "refused 1 at record 3: unknown mark",
        ),
        (
            Fault::CutRecord { record: 0 },
            "refused 1 at record 0: cut record",
        ),
        (
            Fault::OutOfOrder { record: 10 },
            "refused 1 at record 10: kinds out of order",
        ),
        (
            Fault::TooMany { record: 32 },
            "refused 2 at record 32: too many of a kind",
        ),
        (
            Fault::NoImage { place: 0 },
            "refused 10 at place 0: no image",
        ),
        (
            Fault::BadCode { place: 1 },
            "refused 11 at place 1: a rule of the code store is broken",
        ),
        (
            Fault::Unloadable { place: 2 },
            "refused 11 at place 2: the tables have nothing of that number",
        ),
        (
            Fault::ShortBuffer { needed: 40 },
            "refused 12, 40 bytes are needed: the buffer is too short",
        ),
        (Fault::ClockAtEnd, "refused 13: the clock is at its end"),
        (
            Fault::Overdue { task: 5 },
            "refused 14 task 5: not done at its end",
        ),
        (Fault::Stopped, "refused 15: the machine is stopped"),
        (Fault::NotOut, "refused 16: the task is not out"),
        (
            Fault::NothingThere,
            "refused 18: there is nothing of that number",
        ),
        (
            broken(Rule::Fields),
            "refused 3 at record 7: a field names nothing that exists or is out of its range",
        ),
        (
            broken(Rule::Hierarchy),
            "refused 4 at record 7: modules, modes and switches do not form a program of at most 8 levels",
        ),
        (
            broken(Rule::Timing),
            "refused 5 at record 7: a period or an offset does not fit",
        ),
        (
            broken(Rule::Feeding),
            "refused 6 at record 7: an input is not fed exactly once or a dependency is out of place",
        ),
        (
            broken(Rule::Window),
            "refused 7 at record 7: the task's opening is not below its end",
        ),
        (
            broken(Rule::Refinement),
            "refused 8 at record 7: a refinement does not fit what it refines",
        ),
        (
            broken(Rule::Writers),
            "refused 9 at record 7: a communicator is written from two sides",
        ),
        (
            trap(Cause::EmptyRegister),
            "refused 17 at address 4095: the register is empty",
        ),
        (
            trap(Cause::OwnAncestor),
            "refused 17 at address 4095: a trigger would become its own ancestor",
        ),
        (
            trap(Cause::NoFreeTrigger),
            "refused 17 at address 4095: no trigger is free",
        ),
        (
            trap(Cause::FullStack),
            "refused 17 at address 4095: the stack is full",
        ),
        (
            trap(Cause::EmptyStack),
            "refused 17 at address 4095: the stack is empty",
        ),
        (
            trap(Cause::NotIdle),
            "refused 17 at address 4095: the task is not idle",
        ),
        (
            trap(Cause::NotExpected),
            "refused 17 at address 4095: the task is not expected",
        ),
        (
            trap(Cause::TooLong),
            "refused 17 at address 4095: the call has run its 4096 instructions",
        ),
    ];
    for (fault, line) in cases {
        let shown = Refused(fault).to_string(rt.alloc())?;
        assert_eq!(rt; shown.as_str(), line);
    }
    Ok(())
}

fn row(number: usize, place: usize, record: Record) -> Row {
    Row {
        number,
        place,
        record,
    }
}

fn communicator(kind: Use) -> Record {
    Record::Communicator(Communicator {
        period: 65535,
        kind,
        initial: -2147483648,
    })
}

fn task(parent: Option<u8>, form: Form) -> Record {
    Record::Task(Task {
        mode: 5,
        inputs: 1,
        outputs: 2,
        parent,
        form,
    })
}

#[test]
fn of_records(rt: HostRuntime) -> Result<(), Fail> {
    let cases = [
        (
            row(0, 0, communicator(Use::Plain)),
            "record 0: communicator 0: plain, period 65535, initial -2147483648",
        ),
        (
            row(0, 0, communicator(Use::Sensor)),
            "record 0: communicator 0: sensor, period 65535, initial -2147483648",
        ),
        (
            row(0, 0, communicator(Use::Actuator)),
            "record 0: communicator 0: actuator, period 65535, initial -2147483648",
        ),
        (
            row(0, 0, communicator(Use::Unlisted(7))),
            "record 0: communicator 0: use 7, period 65535, initial -2147483648",
        ),
        (
            row(
                1,
                0,
                Record::Module(Module {
                    owner: None,
                    start: 6,
                }),
            ),
            "record 1: module 0: top, starts in mode 6",
        ),
        (
            row(
                2,
                1,
                Record::Module(Module {
                    owner: Some(3),
                    start: 2,
                }),
            ),
            "record 2: module 1: owned by mode 3, starts in mode 2",
        ),
        (
            row(9, 4, Record::Mode(Mode { home: 1, period: 4 })),
            "record 9: mode 4: in module 1, period 4",
        ),
        (
            row(3, 0, task(None, Form::Concrete)),
            "record 3: task 0: in mode 5, 1 inputs, 2 outputs, no parent, concrete",
        ),
        (
            row(4, 1, task(Some(9), Form::Abstract)),
            "record 4: task 1: in mode 5, 1 inputs, 2 outputs, parent task 9, abstract",
        ),
        (
            row(5, 2, task(Some(0), Form::Unlisted(9))),
            "record 5: task 2: in mode 5, 1 inputs, 2 outputs, parent task 0, form 9",
        ),
        (
            row(
                5,
                6,
                Record::Read(Read {
                    task: 1,
                    input: 2,
                    communicator: 3,
                    offset: 4,
                }),
            ),
            "record 5: read 6: task 1 input 2 from communicator 3 at offset 4",
        ),
        (
            row(
                5,
                6,
                Record::Write(Write {
                    task: 1,
                    output: 2,
                    communicator: 3,
                    offset: 4,
                }),
            ),
            "record 5: write 6: task 1 output 2 to communicator 3 at offset 4",
        ),
        (
            row(
                5,
                6,
                Record::Dependency(Dependency {
                    task: 1,
                    output: 2,
                    to: 3,
                    input: 4,
                }),
            ),
            "record 5: dependency 6: task 1 output 2 to task 3 input 4",
        ),
        (
            row(
                5,
                6,
                Record::Switch(Switch {
                    mode: 1,
                    condition: 2,
                    target: 3,
                }),
            ),
            "record 5: switch 6: mode 1 to mode 3 on condition 2",
        ),
    ];
    for (row, line) in cases {
        let shown = row.to_string(rt.alloc())?;
        assert_eq!(rt; shown.as_str(), line);
    }
    Ok(())
}

// Every operand at the edge of its range: the last that is allowed and the first that is refused.
use super::cells::cell;
use code::{CodeStore, Instruction, Register};
use fault::Fault;
use image::read;
use std::process::Abort;

// How the row between two returns is answered.
const TAKEN: Option<Fault> = None;

const NO_IMAGE: Option<Fault> = Some(Fault::NoImage { place: 1 });

const BAD_CODE: Option<Fault> = Some(Fault::BadCode { place: 1 });

// The image of a cell between two returns.
fn image(cell: [u8; 6]) -> [u8; 22] {
    let [m, n, a, b, c, d] = cell;
    [
        b'H', b'E', 0, 3, b'R', b'T', 0, 0, 0, 0, m, n, a, b, c, d, b'R', b'T', 0, 0, 0, 0,
    ]
}

// Each of some marks, with each of some pairs of operands.
fn answered(rt: &impl Abort, marks: &[[u8; 2]], rows: &[(u16, u16, Option<Fault>)]) {
    for letters in marks {
        for (first, second, answer) in rows {
            assert_eq!(rt;
                read(&image(cell(*letters, *first, *second))).err(),
                *answer
            );
        }
    }
}

#[test]
fn lines(rt: HostRuntime) {
    answered(
        &rt,
        &[*b"CW", *b"CR", *b"CD"],
        &[
            (127, 0, TAKEN),
            (128, 0, BAD_CODE),
            (300, 0, BAD_CODE),
            (0, 1, NO_IMAGE),
        ],
    );
}

#[test]
fn tasks_and_modes(rt: HostRuntime) {
    answered(
        &rt,
        &[*b"EX"],
        &[
            (63, 1, TAKEN),
            (0, 65535, TAKEN),
            (64, 1, BAD_CODE),
            (300, 1, BAD_CODE),
            (63, 0, BAD_CODE),
        ],
    );
    answered(
        &rt,
        &[*b"RL", *b"EN"],
        &[(63, 0, TAKEN), (64, 0, BAD_CODE), (0, 1, NO_IMAGE)],
    );
}

#[test]
fn addresses(rt: HostRuntime) {
    answered(
        &rt,
        &[*b"WF", *b"SF", *b"RF"],
        &[(0, 2, TAKEN), (65535, 0, TAKEN), (0, 3, BAD_CODE)],
    );
    answered(
        &rt,
        &[*b"PF"],
        &[(63, 2, TAKEN), (64, 2, BAD_CODE), (63, 3, BAD_CODE)],
    );
    answered(
        &rt,
        &[*b"JI"],
        &[
            (0, 2, TAKEN),
            (255, 2, TAKEN),
            (256, 2, BAD_CODE),
            (255, 3, BAD_CODE),
        ],
    );
    answered(
        &rt,
        &[*b"JP", *b"JS"],
        &[
            (2, 0, TAKEN),
            (3, 0, BAD_CODE),
            (65535, 0, BAD_CODE),
            (0, 1, NO_IMAGE),
        ],
    );
    answered(
        &rt,
        &[*b"RT"],
        &[(0, 0, TAKEN), (1, 0, NO_IMAGE), (0, 1, NO_IMAGE)],
    );
}

#[test]
fn registers(rt: HostRuntime) {
    answered(
        &rt,
        &[*b"CP", *b"GP", *b"SP", *b"AC"],
        &[
            (3, 0, TAKEN),
            (0, 3, TAKEN),
            (3, 3, BAD_CODE),
            (0, 0, BAD_CODE),
            (4, 0, BAD_CODE),
            (0, 4, BAD_CODE),
        ],
    );
}

#[test]
fn single_registers_and_marks(rt: HostRuntime) {
    answered(
        &rt,
        &[*b"PU", *b"PO", *b"DC"],
        &[
            (3, 0, TAKEN),
            (4, 0, BAD_CODE),
            (65535, 0, BAD_CODE),
            (0, 1, NO_IMAGE),
        ],
    );
    answered(
        &rt,
        &[*b"XX", *b"CX", *b"XW", *b"cw", *b"WC", *b"HE"],
        &[(0, 0, NO_IMAGE)],
    );
}

// How a code of an instruction between two returns is answered.
fn made(instruction: Instruction) -> Option<Fault> {
    CodeStore::new(&[Instruction::Return, instruction, Instruction::Return]).err()
}

#[test]
fn instructions(rt: HostRuntime) {
    let allowed = [
        Instruction::Write { line: 127 },
        Instruction::Read { line: 127 },
        Instruction::Depend { line: 127 },
        Instruction::Expect { task: 63, end: 1 },
        Instruction::Release { task: 63 },
        Instruction::Enter { mode: 63 },
        Instruction::FutureWrite {
            ticks: 65535,
            address: 2,
        },
        Instruction::FutureSwitch {
            ticks: 65535,
            address: 2,
        },
        Instruction::FutureRead {
            ticks: 65535,
            address: 2,
        },
        Instruction::FutureRelease {
            task: 63,
            address: 2,
        },
        Instruction::JumpIf {
            condition: 255,
            address: 2,
        },
        Instruction::Jump { address: 2 },
        Instruction::Call { address: 2 },
        Instruction::Copy {
            to: Register::R3,
            from: Register::R0,
        },
    ];
    for instruction in allowed {
        assert_eq!(rt; made(instruction), TAKEN);
    }
    let refused = [
        Instruction::Write { line: 128 },
        Instruction::Read { line: 128 },
        Instruction::Depend { line: 128 },
        Instruction::Expect { task: 64, end: 1 },
        Instruction::Expect { task: 63, end: 0 },
        Instruction::Release { task: 64 },
        Instruction::Enter { mode: 64 },
        Instruction::FutureWrite {
            ticks: 0,
            address: 3,
        },
        Instruction::FutureSwitch {
            ticks: 0,
            address: 3,
        },
        Instruction::FutureRead {
            ticks: 0,
            address: 3,
        },
        Instruction::FutureRelease {
            task: 64,
            address: 2,
        },
        Instruction::FutureRelease {
            task: 63,
            address: 3,
        },
        Instruction::JumpIf {
            condition: 255,
            address: 3,
        },
        Instruction::Jump { address: 3 },
        Instruction::Call { address: 3 },
        Instruction::Copy {
            to: Register::R3,
            from: Register::R3,
        },
        Instruction::GetParent {
            to: Register::R2,
            of: Register::R2,
        },
        Instruction::SetParent {
            of: Register::R1,
            to: Register::R1,
        },
        Instruction::Adopt {
            from: Register::R0,
            to: Register::R0,
        },
    ];
    for instruction in refused {
        assert_eq!(rt; made(instruction), BAD_CODE);
    }
}

#[test]
fn registers_by_number(rt: HostRuntime) {
    assert_eq!(rt; Register::try_from(0).ok(), Some(Register::R0));
    assert_eq!(rt; Register::try_from(3).ok(), Some(Register::R3));
    assert_eq!(rt; Register::try_from(4).ok(), None);
    assert_eq!(rt; Register::try_from(65535).ok(), None);
}

// Every instruction with its six bytes.
use super::cells::cell;
use code::{CodeStore, Instruction, Register};
use image::{read, write};
use std::test::Fail;

// Each instruction with its cell.
fn rows() -> [(Instruction, [u8; 6]); 21] {
    [
        (Instruction::Return, cell(*b"RT", 0, 0)),
        (Instruction::Write { line: 127 }, cell(*b"CW", 127, 0)),
        (Instruction::Read { line: 126 }, cell(*b"CR", 126, 0)),
        (Instruction::Depend { line: 125 }, cell(*b"CD", 125, 0)),
        (
            Instruction::Expect { task: 63, end: 258 },
            cell(*b"EX", 63, 258),
        ),
        (Instruction::Release { task: 62 }, cell(*b"RL", 62, 0)),
        (Instruction::Enter { mode: 61 }, cell(*b"EN", 61, 0)),
        (
            Instruction::FutureWrite {
                ticks: 65535,
                address: 1,
            },
            cell(*b"WF", 65535, 1),
        ),
        (
            Instruction::FutureSwitch {
                ticks: 772,
                address: 1,
            },
            cell(*b"SF", 772, 1),
        ),
        (
            Instruction::FutureRead {
                ticks: 1,
                address: 0,
            },
            cell(*b"RF", 1, 0),
        ),
        (
            Instruction::FutureRelease {
                task: 60,
                address: 1,
            },
            cell(*b"PF", 60, 1),
        ),
        (
            Instruction::JumpIf {
                condition: 255,
                address: 1,
            },
            cell(*b"JI", 255, 1),
        ),
        (Instruction::Jump { address: 1 }, cell(*b"JP", 1, 0)),
        (Instruction::Call { address: 1 }, cell(*b"JS", 1, 0)),
        (
            Instruction::Copy {
                to: Register::R0,
                from: Register::R1,
            },
            cell(*b"CP", 0, 1),
        ),
        (Instruction::Push { from: Register::R2 }, cell(*b"PU", 2, 0)),
        (Instruction::Pop { to: Register::R3 }, cell(*b"PO", 3, 0)),
        (
            Instruction::GetParent {
                to: Register::R1,
                of: Register::R2,
            },
            cell(*b"GP", 1, 2),
        ),
        (
            Instruction::SetParent {
                of: Register::R2,
                to: Register::R3,
            },
            cell(*b"SP", 2, 3),
        ),
        (
            Instruction::Adopt {
                from: Register::R3,
                to: Register::R0,
            },
            cell(*b"AC", 3, 0),
        ),
        (
            Instruction::Delete {
                beneath: Register::R1,
            },
            cell(*b"DC", 1, 0),
        ),
    ]
}

// The image of a cell and a return after it.
fn image(cell: [u8; 6]) -> [u8; 16] {
    let [m, n, a, b, c, d] = cell;
    [b'H', b'E', 0, 2, m, n, a, b, c, d, b'R', b'T', 0, 0, 0, 0]
}

#[test]
fn is_written_and_read_back(rt: HostRuntime) -> Result<(), Fail> {
    for (instruction, cell) in rows() {
        let store = CodeStore::new(&[instruction, Instruction::Return])?;
        let mut buffer = [0; 16];
        assert_eq!(rt; write(&store, &mut buffer)?, 16);
        assert_eq!(rt; buffer, image(cell));
        let again = read(&buffer)?;
        let mut copy = [0; 16];
        assert_eq!(rt; write(&again, &mut copy)?, 16);
        assert_eq!(rt; copy, buffer);
    }
    Ok(())
}

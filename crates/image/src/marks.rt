// The two letters that stand for each opcode.
ghost use Rattle.std.specs.Prelude.{◌≡◌};
ghost use Rattle.image.specs.Marks.{mark_of, opcodes, marked, found};

use code::Opcode;

// The letters that every image begins with.
pub const HEAD: &[u8; 2] = b"HE";

// Every opcode.
const OPCODES: [Opcode; 21] = [
    Opcode::Return,
    Opcode::Write,
    Opcode::Read,
    Opcode::Depend,
    Opcode::Expect,
    Opcode::Release,
    Opcode::Enter,
    Opcode::FutureWrite,
    Opcode::FutureSwitch,
    Opcode::FutureRead,
    Opcode::FutureRelease,
    Opcode::JumpIf,
    Opcode::Jump,
    Opcode::Call,
    Opcode::Copy,
    Opcode::Push,
    Opcode::Pop,
    Opcode::GetParent,
    Opcode::SetParent,
    Opcode::Adopt,
    Opcode::Delete,
];

// The mark of an opcode: the one table, which writing and reading share.
pub fn mark(opcode: Opcode) -> &'static [u8; 2]
    ensures { result.now ≡ mark_of opcode }
{
    match opcode {
        Opcode::Return => b"RT",
        Opcode::Write => b"CW",
        Opcode::Read => b"CR",
        Opcode::Depend => b"CD",
        Opcode::Expect => b"EX",
        Opcode::Release => b"RL",
        Opcode::Enter => b"EN",
        Opcode::FutureWrite => b"WF",
        Opcode::FutureSwitch => b"SF",
        Opcode::FutureRead => b"RF",
        Opcode::FutureRelease => b"PF",
        Opcode::JumpIf => b"JI",
        Opcode::Jump => b"JP",
        Opcode::Call => b"JS",
        Opcode::Copy => b"CP",
        Opcode::Push => b"PU",
        Opcode::Pop => b"PO",
        Opcode::GetParent => b"GP",
        Opcode::SetParent => b"SP",
        Opcode::Adopt => b"AC",
        Opcode::Delete => b"DC",
    }
}

// The opcode of a mark, if there is one.
pub fn opcode(first: u8, second: u8) -> Option<Opcode>
    ensures { result ≡ found opcodes first second }
{
    OPCODES
        .iter()
        .copied()
        .find(|candidate| is_marked(*candidate, first, second))
}

// Whether two letters are the mark of an opcode.
fn is_marked(opcode: Opcode, first: u8, second: u8) -> bool
    ensures { result ≡ marked opcode first second }
{
    *mark(opcode) == [first, second]
}

// The instructions of the machine, and the word that stands for each: its opcode and two operands.
ghost use Rattle.std.specs.Prelude.{◌≡◌, true, IfSome, if◌then◌else◌, Some, None};
ghost use Rattle.code.specs.Opcodes.{operands_of, is_end, register_number};
ghost use Rattle.code.specs.Registers.{IsRegister};
ghost use Rattle.code.specs.Words.{word_of, instruction_of};
ghost use Rattle.code.specs.Rules.{allowed, legal};

// The registers, each of which names a trigger or is empty.
#[derive(Clone, Copy, PartialEq, Eq, Debug)]
pub enum Register {
    R0,
    R1,
    R2,
    R3,
}

// A number that no register has.
#[derive(Clone, Copy, PartialEq, Eq, Debug)]
pub struct NoRegister(pub u16);

// What an instruction does, without its operands.
#[derive(Clone, Copy, PartialEq, Eq, Debug)]
pub enum Opcode {
    Return,
    Write,
    Read,
    Depend,
    Expect,
    Release,
    Enter,
    FutureWrite,
    FutureSwitch,
    FutureRead,
    FutureRelease,
    JumpIf,
    Jump,
    Call,
    Copy,
    Push,
    Pop,
    GetParent,
    SetParent,
    Adopt,
    Delete,
}

// What an operand is about. An operand that is not there is a kind of its own, since it has a rule too: it is 0.
#[derive(Clone, Copy, PartialEq, Eq, Debug)]
pub enum Operand {
    Unused,
    Line,
    Task,
    Mode,
    Condition,
    Ticks,
    End,
    Address,
    Register,
    OtherRegister,
}

// An opcode with its two operands as numbers, which may be out of range.
#[derive(Clone, Copy, PartialEq, Eq, Debug)]
pub struct Word {
    pub opcode: Opcode,
    pub first: u16,
    pub second: u16,
}

// An instruction with its operands.
#[derive(Clone, Copy, PartialEq, Eq, Debug)]
pub enum Instruction {
    Return,
    Write { line: u8 },
    Read { line: u8 },
    Depend { line: u8 },
    Expect { task: u8, end: u16 },
    Release { task: u8 },
    Enter { mode: u8 },
    FutureWrite { ticks: u16, address: u16 },
    FutureSwitch { ticks: u16, address: u16 },
    FutureRead { ticks: u16, address: u16 },
    FutureRelease { task: u8, address: u16 },
    JumpIf { condition: u8, address: u16 },
    Jump { address: u16 },
    Call { address: u16 },
    Copy { to: Register, from: Register },
    Push { from: Register },
    Pop { to: Register },
    GetParent { to: Register, of: Register },
    SetParent { of: Register, to: Register },
    Adopt { from: Register, to: Register },
    Delete { beneath: Register },
}

impl Register {
    // The cast gives the place in the order of declaration.
    pub fn number(self) -> u16
        ensures { result ≡ register_number self }
    {
        self as u16
    }
}

impl TryFrom<u16> for Register {
    type Error = NoRegister;

    ghost try_from_gives = { IsRegister };

    fn try_from(number: u16) -> Result<Self, NoRegister> {
        match number {
            0 => Ok(Register::R0),
            1 => Ok(Register::R1),
            2 => Ok(Register::R2),
            3 => Ok(Register::R3),
            _ => Err(NoRegister(number)),
        }
    }
}

impl Opcode {
    // What the two operands are about.
    pub fn operands(self) -> (Operand, Operand)
        ensures { result ≡ operands_of self }
    {
        match self {
            Opcode::Return => (Operand::Unused, Operand::Unused),
            Opcode::Write | Opcode::Read | Opcode::Depend => (Operand::Line, Operand::Unused),
            Opcode::Expect => (Operand::Task, Operand::End),
            Opcode::Release => (Operand::Task, Operand::Unused),
            Opcode::Enter => (Operand::Mode, Operand::Unused),
            Opcode::FutureWrite | Opcode::FutureSwitch | Opcode::FutureRead => {
                (Operand::Ticks, Operand::Address)
            }
            Opcode::FutureRelease => (Operand::Task, Operand::Address),
            Opcode::JumpIf => (Operand::Condition, Operand::Address),
            Opcode::Jump | Opcode::Call => (Operand::Address, Operand::Unused),
            Opcode::Copy | Opcode::GetParent | Opcode::SetParent | Opcode::Adopt => {
                (Operand::Register, Operand::OtherRegister)
            }
            Opcode::Push | Opcode::Pop | Opcode::Delete => (Operand::Register, Operand::Unused),
        }
    }

    // Whether a code may end here: nothing goes on to what follows.
    pub fn is_end(self) -> bool
        ensures { result ≡ is_end self }
    {
        matches!(self, Opcode::Return | Opcode::Jump)
    }
}

impl Operand {
    // Whether a value may stand here in a code of `len` instructions, beside the first operand.
    fn allows(self, value: u16, first: u16, len: usize) -> bool
        ensures { result ≡ allowed len first self value }
    {
        match self {
            Operand::Unused => value == 0,
            Operand::Line => value < 128,
            Operand::Task | Operand::Mode => value < 64,
            Operand::Condition => value < 256,
            Operand::Ticks => true,
            Operand::End => value > 0,
            Operand::Address => usize::from(value) < len,
            Operand::Register => value < 4,
            Operand::OtherRegister => value < 4 && value != first,
        }
    }
}

impl Word {
    // Whether both operands may stand in a code of `len` instructions.
    pub fn is_legal(self, len: usize) -> bool
        ensures { result ≡ legal len self }
    {
        let (first, second) = self.opcode.operands();
        first.allows(self.first, self.first, len) && second.allows(self.second, self.first, len)
    }

    // The instruction that the word stands for, or none if an operand may not stand there.
    pub fn decode(self, len: usize) -> Option<Instruction>
        ensures value { result ≡ (if legal len self then Some (instruction_of self) else None) }
        ensures back { IfSome result (λ i. word_of i ≡ self) }
    {
        if !self.is_legal(len) {
            return None;
        }
        let Word {
            opcode,
            first,
            second,
        } = self;
        // A first operand of a byte is cast: that it fits is proved from the test above.
        let (ticks, address) = (first, second);
        let (x, y) = (
            Register::try_from(first).ok(),
            Register::try_from(second).ok(),
        );
        Some(match opcode {
            Opcode::Return => Instruction::Return,
            Opcode::Write => Instruction::Write { line: first as u8 },
            Opcode::Read => Instruction::Read { line: first as u8 },
            Opcode::Depend => Instruction::Depend { line: first as u8 },
            Opcode::Expect => Instruction::Expect {
                task: first as u8,
                end: second,
            },
            Opcode::Release => Instruction::Release { task: first as u8 },
            Opcode::Enter => Instruction::Enter { mode: first as u8 },
            Opcode::FutureWrite => Instruction::FutureWrite { ticks, address },
            Opcode::FutureSwitch => Instruction::FutureSwitch { ticks, address },
            Opcode::FutureRead => Instruction::FutureRead { ticks, address },
            Opcode::FutureRelease => Instruction::FutureRelease {
                task: first as u8,
                address,
            },
            Opcode::JumpIf => Instruction::JumpIf {
                condition: first as u8,
                address,
            },
            Opcode::Jump => Instruction::Jump { address: first },
            Opcode::Call => Instruction::Call { address: first },
            Opcode::Copy => Instruction::Copy { to: x?, from: y? },
            Opcode::Push => Instruction::Push { from: x? },
            Opcode::Pop => Instruction::Pop { to: x? },
            Opcode::GetParent => Instruction::GetParent { to: x?, of: y? },
            Opcode::SetParent => Instruction::SetParent { of: x?, to: y? },
            Opcode::Adopt => Instruction::Adopt { from: x?, to: y? },
            Opcode::Delete => Instruction::Delete { beneath: x? },
        })
    }
}

impl Instruction {
    // The word that stands for the instruction; operands that it does not have are 0.
    pub fn word(self) -> Word
        ensures value { result ≡ word_of self }
        ensures back { instruction_of result ≡ self }
    {
        let (opcode, first, second) = match self {
            Self::Return => (Opcode::Return, 0, 0),
            Self::Write { line } => (Opcode::Write, u16::from(line), 0),
            Self::Read { line } => (Opcode::Read, u16::from(line), 0),
            Self::Depend { line } => (Opcode::Depend, u16::from(line), 0),
            Self::Expect { task, end } => (Opcode::Expect, u16::from(task), end),
            Self::Release { task } => (Opcode::Release, u16::from(task), 0),
            Self::Enter { mode } => (Opcode::Enter, u16::from(mode), 0),
            Self::FutureWrite { ticks, address } => (Opcode::FutureWrite, ticks, address),
            Self::FutureSwitch { ticks, address } => (Opcode::FutureSwitch, ticks, address),
            Self::FutureRead { ticks, address } => (Opcode::FutureRead, ticks, address),
            Self::FutureRelease { task, address } => (
                Opcode::FutureRelease,
                u16::from(task),
                address,
            ),
            Self::JumpIf { condition, address } => (Opcode::JumpIf, u16::from(condition), address),
            Self::Jump { address } => (Opcode::Jump, address, 0),
            Self::Call { address } => (Opcode::Call, address, 0),
            Self::Copy { to, from } => (Opcode::Copy, to.number(), from.number()),
            Self::Push { from } => (Opcode::Push, from.number(), 0),
            Self::Pop { to } => (Opcode::Pop, to.number(), 0),
            Self::GetParent { to, of } => (Opcode::GetParent, to.number(), of.number()),
            Self::SetParent { of, to } => (Opcode::SetParent, of.number(), to.number()),
            Self::Adopt { from, to } => (Opcode::Adopt, from.number(), to.number()),
            Self::Delete { beneath } => (Opcode::Delete, beneath.number(), 0),
        };
        Word {
            opcode,
            first,
            second,
        }
    }
}

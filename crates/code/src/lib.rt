// The instructions of the machine, and the store that holds a code of them.
#![tactic(auto)]

ghost use Rattle.std.specs.Prelude.{◌≡◌, None, length, map};
ghost use Rattle.bounded.specs.Items.{items};
ghost use Rattle.code.specs.Rules.{broken};
ghost use Rattle.code.specs.Words.{word_of};

use bounded::Bounded;

pub mod instructions;
mod store;

pub use instructions::{Instruction, Opcode, Operand, Register, Word};

// The most instructions of a code.
pub const MOST_INSTRUCTIONS: usize = 4096;

// A code: 1 to 4,096 instructions, each legal, the last a return or a jump.
#[derive(Drop)]
pub struct CodeStore {
    code: Bounded<Instruction, MOST_INSTRUCTIONS>,
    ghost unbroken: { broken (length (items code)) (map word_of (items code)) ≡ None },
}

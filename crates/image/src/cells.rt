// An instruction's six bytes: its mark and two half-words, high byte first.
ghost use Rattle.std.specs.Prelude.{◌≡◌};
ghost use Rattle.image.specs.Cells.{cell, blank, padded, word_of_cell};

use super::marks::{mark, opcode};
use code::{Operand, Word};

// The six bytes of a word.
pub(super) fn six_bytes(word: Word) -> [u8; 6]
    ensures { result ≡ cell word }
{
    let [m, n] = *mark(word.opcode);
    let [a, b] = word.first.to_be_bytes();
    let [c, d] = word.second.to_be_bytes();
    [m, n, a, b, c, d]
}

// The word of six bytes, or none if the mark is unknown or an unused operand is not 0.
// Inlined, since the walk over an image calls it for each cell.
#[inline(always)]
pub(super) fn word(cell: &[u8; 6]) -> Option<Word>
    ensures { result ≡ word_of_cell cell.now }
{
    let [m, n, a, b, c, d] = *cell;
    let word = Word {
        opcode: opcode(m, n)?,
        first: u16::from_be_bytes([a, b]),
        second: u16::from_be_bytes([c, d]),
    };
    is_padded(word).then_some(word)
}

// Whether the operands that a word's opcode does not have are 0.
fn is_padded(word: Word) -> bool
    ensures { result ≡ padded word.opcode word.first word.second }
{
    let (first, second) = word.opcode.operands();
    is_blank(first, word.first) && is_blank(second, word.second)
}

fn is_blank(operand: Operand, value: u16) -> bool
    ensures { result ≡ blank operand value }
{
    operand != Operand::Unused || value == 0
}

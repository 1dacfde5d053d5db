// Making a code store and reading it.
ghost use Rattle.std.specs.Prelude.{◌≡◌, ◌+◌, ◌<◌, ◌≤◌, false, not, length, map, take, is_ok, Decides, slice_index_or, MatchResult, ◌-◌, ◌&&◌, nat_lt};
ghost use Rattle.std.specs.List.{position_from};
ghost use Rattle.code.specs.declared.instructions.Instruction.TheVariants.{Return};
ghost use Rattle.code.specs.Opcodes.{is_end};
ghost use Rattle.code.specs.Words.{word_of};
ghost use Rattle.code.specs.Rules.{legal};
ghost use Rattle.code.specs.Stores.{instructions, stored, held, Unbroken, BrokenAt};
ghost use Rattle.code.specs.Bounds.{Within};
ghost use Rattle.code.specs.Promises.{Sound};

use super::instructions::Instruction;
use super::{CodeStore, MOST_INSTRUCTIONS};
use bounded::Bounded;
use fault::Fault;

impl CodeStore {
    // The store of some instructions; what breaks a rule is refused with its place.
    pub fn new(code: &[Instruction]) -> Result<CodeStore, Fault>
        ensures value { held result ≡ stored (length code.now) code.now }
        ensures sound { Decides (is_ok result) (Sound (length code.now) code.now) }
    {
        unbroken(code)?;
        let mut kept = Bounded::new(Instruction::Return);
        // There is room: the length was looked at.
        let _ = kept.extend_from_slice(code);
        Ok(CodeStore { code: kept })
    }

    // The store of the first `len` instructions of an array, which is kept as it is; more than it has are refused at place 0.
    pub fn from_array_len(
        code: [Instruction; MOST_INSTRUCTIONS],
        len: usize,
    ) -> Result<CodeStore, Fault>
        ensures value { held result ≡ stored len (take len code) }
        ensures sound { Decides (is_ok result) (Sound len (take len code)) }
    {
        if len > code.len() {
            return Err(Fault::BadCode { place: 0 });
        }
        unbroken(&code[..len])?;
        Ok(CodeStore {
            code: Bounded::from_array_len(code, len),
        })
    }

    pub fn len(&self) -> usize
        ensures count { result ≡ length (instructions self.now) }
        ensures some { 0 < result }
        ensures few { result ≤ 4096 }
    {
        self.code.len()
    }

    // The instructions in order.
    pub fn as_slice(&self) -> &[Instruction]
        ensures value { result.now ≡ instructions self.now }
        ensures sound { Sound (length result.now) result.now }
    {
        self.code.as_slice()
    }

    // The instruction at an address, a return past the end; one that goes on has a next.
    pub fn fetch(&self, at: u16) -> Instruction
        ensures value { result ≡ slice_index_or (instructions self.now) at Return }
        ensures within { Within (length (instructions self.now)) result }
        ensures next { is_end (word_of result).opcode ≡ false → at + 1 < length (instructions self.now) }
    {
        self.code
            .get(usize::from(at))
            .unwrap_or(Instruction::Return)
    }
}

// Refuses what breaks a rule, with its place.
fn unbroken(code: &[Instruction]) -> Result<(), Fault>
    ensures { MatchResult result (λ _. Unbroken code.now) (λ f. BrokenAt code.now f) }
{
    if code.len() > MOST_INSTRUCTIONS || !ends(code) {
        return Err(Fault::BadCode { place: 0 });
    }
    match first_bad(code) {
        Some(place) => Err(Fault::BadCode { place }),
        None => Ok(()),
    }
}

// Whether the last instruction may end a code.
fn ends(code: &[Instruction]) -> bool
    ensures { result ≡ (nat_lt 0 (length code.now) && is_end (slice_index_or (map word_of code.now) (length code.now - 1) (word_of Return)).opcode) }
{
    code.last().is_some_and(|last| last.word().opcode.is_end())
}

// The place of the first instruction that has an operand out of its range.
fn first_bad(code: &[Instruction]) -> Option<usize>
    ensures { result ≡ position_from (λ w. not (legal (length code.now) w)) 0 (map word_of code.now) }
{
    let len = code.len();
    code.iter()
        .map(|instruction| instruction.word())
        .position(|word| !word.is_legal(len))
}

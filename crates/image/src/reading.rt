// Reading an image.
ghost use Rattle.std.specs.Prelude.{◌≡◌, [], map, drop, is_ok, IfOk, IfErr, MatchResult};
ghost use Rattle.bounded.specs.Items.{items};
ghost use Rattle.fault.specs.declared.Fault.TheVariants.{NoImage};
ghost use Rattle.code.specs.Stores.{instructions, held};
ghost use Rattle.image.specs.Cells.{word_of_cell, words_in};
ghost use Rattle.image.specs.Images.{image_of, headed, ended, decoded, read_image};
ghost use Rattle.image.specs.Parsing.{Parsed, Stopped};
ghost use Rattle.image.specs.Promises.{WrittenBack, OneImage};

use super::cells::word;
use super::marks::HEAD;
use bounded::Bounded;
use code::{CodeStore, Instruction, MOST_INSTRUCTIONS, Word};
use fault::Fault;

// The code of an image; what is no image is refused first, and then what breaks a rule of the code store.
pub fn read(bytes: &[u8]) -> Result<CodeStore, Fault>
    ensures value { held result ≡ read_image bytes.now }
    ensures back { IfOk result (λ store. image_of (instructions store) ≡ bytes.now) }
    ensures laws { WrittenBack × OneImage }
{
    load(bytes)
}

// Head and length, then every cell, then the rules of the code store.
fn load(bytes: &[u8]) -> Result<CodeStore, Fault>
    ensures { held result ≡ read_image bytes.now }
{
    let cells = cells(bytes)?;
    // Filled in place, since it costs to hand on so large a list.
    let mut words = Bounded::new(Instruction::Return.word());
    gather(cells, &mut words)?;
    if cells.len() > MOST_INSTRUCTIONS {
        return Err(Fault::BadCode { place: 0 });
    }
    decode(words.as_slice())
}

// The cells of an image whose head and length are right.
fn cells(bytes: &[u8]) -> Result<&[[u8; 6]], Fault>
    ensures head { is_ok result ≡ headed bytes.now }
    ensures cut { IfOk result (λ cells. map word_of_cell cells.now ≡ words_in (drop 4 bytes.now)) }
    ensures refused { IfErr result (λ f. f ≡ NoImage 0) }
{
    let refused = Fault::NoImage { place: 0 };
    let ([m, n, a, b], body) = bytes.split_first_chunk::<4>().ok_or(refused)?;
    let count = usize::from(u16::from_be_bytes([*a, *b]));
    if [*m, *n] != *HEAD || body.len() != 6 * count {
        return Err(refused);
    }
    let (cells, _) = body.as_chunks::<6>();
    Ok(cells)
}

// Gathers the words of cells in an empty list, or refuses the first that is none; words too many for a code store are looked at and left out.
fn gather(cells: &[[u8; 6]], words: &mut Bounded<Word, MOST_INSTRUCTIONS>) -> Result<(), Fault>
    requires { items words.old ≡ [] }
    ensures { MatchResult result (λ _. Parsed (map word_of_cell cells.now) (items words.new)) (λ f. Stopped (map word_of_cell cells.now) f) }
{
    for (place, cell) in cells.iter().enumerate() {
        let _ = words.push(word(cell).ok_or(Fault::NoImage { place })?);
    }
    Ok(())
}

// Whether the last word may end a code.
fn ends(words: &[Word]) -> bool
    ensures { result ≡ ended words.now }
{
    words.last().is_some_and(|last| last.opcode.is_end())
}

// The code store of words. The rules are held against the words, since an operand may be too large for its type.
fn decode(words: &[Word]) -> Result<CodeStore, Fault>
    ensures { held result ≡ decoded words.now }
{
    let len = words.len();
    if len > MOST_INSTRUCTIONS || !ends(words) {
        return Err(Fault::BadCode { place: 0 });
    }
    // A code is filled as a plain array and then written whole into its store.
    let mut code = [Instruction::Return; MOST_INSTRUCTIONS];
    for (place, word) in words.iter().enumerate() {
        code[place] = word.decode(len).ok_or(Fault::BadCode { place })?;
    }
    CodeStore::from_array_len(code, len)
}

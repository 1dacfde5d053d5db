// Writing the image of a code into a buffer.
ghost use Rattle.std.specs.Prelude.{◌≡◌, ◌+◌, ◌*◌, ◌<◌, ◌≤◌, ◌++◌, map, length, take, drop, IfOk, Ok};
ghost use Rattle.std.proofs.Math.Seq.{paste};
ghost use Rattle.std.specs.List.{flat_map};
ghost use Rattle.code.specs.Stores.{instructions};
ghost use Rattle.code.specs.Words.{word_of};
ghost use Rattle.image.specs.Cells.{cell};
ghost use Rattle.image.specs.Images.{head_of, image_length, written, read_image};
ghost use Rattle.image.specs.Promises.{ReadBack, OneCode};

use super::cells::six_bytes;
use super::marks::HEAD;
use code::{CodeStore, Instruction};
use fault::Fault;

// Writes the image of a code to the front of a buffer and returns its length; a buffer too short stays as it is.
pub fn write(store: &CodeStore, buffer: &mut [u8]) -> Result<usize, Fault>
    ensures value { (result, buffer.new) ≡ written (instructions store.now) buffer.old }
    ensures back { IfOk result (λ n. read_image (take n buffer.new) ≡ Ok (instructions store.now)) }
    ensures laws { ReadBack × OneCode }
{
    let count = store.len();
    let needed = 4 + 6 * count;
    if buffer.len() < needed {
        return Err(Fault::ShortBuffer { needed });
    }
    put(buffer, 0, &head(count));
    put_cells(buffer, store.as_slice());
    Ok(needed)
}

// The four bytes before the instructions; that the count fits two bytes is proved.
fn head(count: usize) -> [u8; 4]
    requires { count < 65536 }
    ensures { result ≡ head_of count }
{
    let [high, low] = (count as u16).to_be_bytes();
    [HEAD[0], HEAD[1], high, low]
}

// Puts the cells of a code into a buffer, after the first four bytes.
// By place, since a proof does not see what is written through chunks of a slice.
fn put_cells(buffer: &mut [u8], code: &[Instruction])
    requires { image_length (length code.now) ≤ length buffer.old }
    ensures { buffer.new ≡ (take 4 buffer.old ++ flat_map cell (map word_of code.now)) ++ drop (image_length (length code.now)) buffer.old }
{
    for (k, instruction) in code.iter().enumerate() {
        put(buffer, 4 + 6 * k, &six_bytes(instruction.word()));
    }
}

// Puts bytes into a buffer from a place on.
fn put(buffer: &mut [u8], at: usize, bytes: &[u8])
    requires { at + length bytes.now ≤ length buffer.old }
    ensures { buffer.new ≡ paste buffer.old at bytes.now (length bytes.now) }
{
    buffer[at..at + bytes.len()].copy_from_slice(bytes);
}

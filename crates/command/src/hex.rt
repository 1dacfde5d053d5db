// Bytes by their hexadecimal digits.
ghost use Rattle.std.specs.Prelude.{◌≡◌, ◌<◌, IfSome, Some, MatchResult};
ghost use Rattle.command.specs.Hex.{digit_value, pair_value, bytes_spelt, SpellsNone};

use crate::Misuse;
use std::alloc::Global;

fn digit(letter: u8) -> Option<u32>
    ensures value { result ≡ digit_value letter }
    ensures small { IfSome result (λ v. v < 16) }
{
    char::from(letter).to_digit(16)
}

// The byte of two digits, the larger part first; that it fits is proved.
fn pair(high: u8, low: u8) -> Option<u8>
    ensures { result ≡ pair_value high low }
{
    Some((digit(high)? * 16 + digit(low)?) as u8)
}

// The bytes that a text spells, two digits a byte.
pub(crate) fn bytes_of(heap: Global, text: &str) -> Result<Vec<u8>, Misuse>
    ensures { MatchResult result (λ v. bytes_spelt text.now ≡ Some v.items) (λ why. SpellsNone text.now why) }
{
    let (pairs, odd) = text.as_bytes().as_chunks::<2>();
    let mut out = Vec::new(heap);
    for [high, low] in pairs {
        out.push(pair(*high, *low).ok_or(Misuse::Hex)?)?;
    }
    // A digit too many is refused last, so that memory that runs out before it is told first.
    if odd.is_empty() {
        Ok(out)
    } else {
        Err(Misuse::Hex)
    }
}

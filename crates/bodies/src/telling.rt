// The tell-tale body.
ghost use Rattle.std.specs.Prelude.{◌≡◌, ◌^◌, pos, negsuc, ◌+ℤ◌, ◌≤ℤ◌};
ghost use Rattle.std.specs.Int.{saturate_to_bits};
ghost use Rattle.bodies.specs.Bodies.{sum_of, tell, tell_works, is_odd, tell_tests};

use crate::TellTale;
use plant::Body;

// Two inputs together.
fn pair(a: i32, b: i32) -> i64
    ensures value { result ≡ a +ℤ b }
    ensures bound { (negsuc (2 ^ 32) ≤ℤ result) × (result ≤ℤ pos (2 ^ 32)) }
{
    i64::from(a) + i64::from(b)
}

// The inputs' sum, in pairs whose bounds are promised: for `iter().map(..).sum()` the proof that it fits stayed open.
fn total(inputs: [i32; 4]) -> i64
    ensures value { result ≡ sum_of inputs }
    ensures bound { (negsuc (2 ^ 34) ≤ℤ result) × (result ≤ℤ pos (2 ^ 34)) }
{
    let [a, b, c, d] = inputs;
    pair(a, b) + pair(c, d)
}

// A number held to 32 bits; that the cast fits is proved.
fn held(n: i64) -> i32
    ensures { result ≡ saturate_to_bits 31 n }
{
    n.clamp(i64::from(i32::MIN), i64::from(i32::MAX)) as i32
}

// The value of an output: 100 for each task, 10 for each output, 1, and the inputs, held to 32 bits.
fn told(task: u8, output: u8, inputs: [i32; 4]) -> i32
    ensures { result ≡ tell task output inputs }
{
    let own = 100 * u32::from(task) + 10 * u32::from(output) + 1;
    held(i64::from(own) + total(inputs))
}

fn odd(v: i32) -> bool
    ensures { result ≡ is_odd v }
{
    v % 2 != 0
}

impl Body for TellTale {
    ghost works = { λ _ t ins. tell_works t ins };

    ghost tests = { λ _ c vs. tell_tests c vs };

    fn work(&self, task: u8, inputs: [i32; 4]) -> [i32; 4] {
        [0, 1, 2, 3].map(|output| told(task, output, inputs))
    }

    fn test(&self, condition: u8, values: &[i32; 32]) -> bool {
        odd(values[usize::from(condition) % 32])
    }
}

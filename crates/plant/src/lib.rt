// What a plant and a body are to the machine.
#![tactic(auto)]

ghost use Rattle.std.specs.Prelude.{ℕ, ◌<◌, ◌≤◌, ◌==◌, ℤ, pos, Bool, cond, List, [], ◌∷◌, ◌≡◌};
ghost use Rattle.plant.specs.Acts.{Act, Drive, Pass, Answers};

// A plant is known by its meaning: what its sensors would answer and its outputs show after each list of drives and passes.
pub trait Plant {
    ghost means: { Self → List Act → Answers };

    // What a sensor answers.
    fn sense(&self, i: u8) -> i32
        ensures { result ≡ (means self.now []).sense i };

    // What an output shows.
    fn shown(&self, i: u8) -> i32
        ensures { result ≡ (means self.now []).shown i };

    // Gives an output a value; the plant then means what was foretold for after it.
    fn drive(&mut self, i: u8, v: i32)
        ensures { (l : List Act) → means self.new l ≡ means self.old (Drive i v ∷ l) };

    // Lets a tick go by; the plant then means what was foretold for after it.
    fn pass(&mut self)
        ensures { (l : List Act) → means self.new l ≡ means self.old (Pass ∷ l) };

    // A drive makes that output alone show the value given.
    ghost drives: { (s : Self) (i j : ℕ) (v : ℤ) → i < 32 → (means s (Drive i v ∷ [])).shown j ≡ cond (j == i) v ((means s []).shown j) };

    // A pass changes no output.
    ghost passes: { (s : Self) (j : ℕ) → (means s (Pass ∷ [])).shown j ≡ (means s []).shown j };

    // A number above 31 reads 0.
    ghost silent: { (s : Self) (i : ℕ) → 32 ≤ i → ((means s []).sense i ≡ pos 0) × ((means s []).shown i ≡ pos 0) };

    // A drive of a number above 31 has no effect.
    ghost inert: { (s : Self) (i : ℕ) (v : ℤ) (l : List Act) → 32 ≤ i → means s (Drive i v ∷ l) ≡ means s l };
}

// A body is known by what its work answers from a task and its inputs, and its test from a condition and the communicators' values.
pub trait Body {
    ghost works: { Self → ℕ → List ℤ → List ℤ };

    ghost tests: { Self → ℕ → List ℤ → Bool };

    // The outputs of a task for its inputs, absent ones 0.
    fn work(&self, task: u8, inputs: [i32; 4]) -> [i32; 4]
        ensures { result ≡ works self.now task inputs };

    // Whether a condition holds at the values of all communicators, absent ones 0.
    fn test(&self, condition: u8, values: &[i32; 32]) -> bool
        ensures { result ≡ tests self.now condition values.now };
}

// The 32 outputs that every stand has.
ghost use Rattle.std.specs.Prelude.{◌≡◌, length};
ghost use Rattle.stands.specs.Stands.{within, driven};

// What stands at a number, and 0 beyond the last.
pub(crate) fn within<const N: usize>(values: &[i32; N], i: u8) -> i32
    ensures { result ≡ within N values.now i }
{
    values.get(usize::from(i)).copied().unwrap_or(0)
}

// What each output shows, by number.
#[derive(Clone, Copy, PartialEq, Eq, Debug)]
pub(crate) struct Outputs {
    pub(crate) values: [i32; 32],
    ghost whole: { length values ≡ 32 },
}

impl Outputs {
    pub(crate) fn shown(&self, i: u8) -> i32
        ensures { result ≡ within 32 self.now.values i }
    {
        within(&self.values, i)
    }

    pub(crate) fn set(&mut self, i: u8, v: i32)
        ensures { self.new.values ≡ driven self.old.values i v }
    {
        // By index: what an array holds after a write through `get_mut` is not promised, and the proof with it stayed open.
        let i = usize::from(i);
        if i < self.values.len() {
            self.values[i] = v;
        }
    }
}

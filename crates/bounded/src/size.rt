// How long a bounded list is.
ghost use Rattle.std.specs.Prelude.{◌≡◌, ◌≤◌, length, ◌==◌};
ghost use Rattle.bounded.specs.Items.{items};

use super::Bounded;

impl<T: Copy, const N: usize> Bounded<T, N> {
    pub fn len(&self) -> usize
        ensures count { result ≡ length (items self.now) }
        ensures few { result ≤ N }
    {
        self.len
    }

    pub fn is_empty(&self) -> bool
        ensures { result ≡ (length (items self.now) == 0) }
    {
        self.as_slice().is_empty()
    }
}

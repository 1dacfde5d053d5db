// What can be done with a bounded list, told by the list that it stands for.
ghost use Rattle.std.specs.Prelude.{◌≡◌, ◌+◌, ◌-◌, ◌≤◌, [], ◌∷◌, ◌++◌, length, take, is_ok, if◌then◌else◌, nat_le, nat_lt};
ghost use Rattle.std.specs.List.{slice_get};
ghost use Rattle.bounded.specs.Items.{items, last};

use super::{Bounded, Full};

impl<T: Copy, const N: usize> Bounded<T, N> {
    // An empty list; `blank` fills the slots that are not used.
    pub fn new(blank: T) -> Bounded<T, N>
        ensures { items result ≡ [] }
    {
        Bounded {
            slots: [blank; N],
            len: 0,
        }
    }

    // The first `len` items of an array, or all where there are no more; the array is kept as it is.
    #[inline(always)]
    pub fn from_array_len(slots: [T; N], len: usize) -> Bounded<T, N>
        ensures { items result ≡ take len slots }
    {
        Bounded {
            slots,
            len: len.min(N),
        }
    }

    // The items in order.
    pub fn as_slice(&self) -> &[T]
        ensures value { result.now ≡ items self.now }
        ensures few { length result.now ≤ N }
    {
        let all: &[T] = &self.slots;
        &all[0..self.len]
    }

    // The item of a number, counted from 0.
    pub fn get(&self, i: usize) -> Option<T>
        ensures { result ≡ slice_get (items self.now) i }
    {
        self.as_slice().get(i).copied()
    }

    // One item more at the end; a full list stays as it is.
    pub fn push(&mut self, item: T) -> Result<(), Full>
        ensures value { is_ok result ≡ nat_lt (length (items self.old)) N }
        ensures after { items self.new ≡ (if is_ok result then items self.old ++ (item ∷ []) else items self.old) }
    {
        if self.len < N {
            self.slots[self.len] = item;
            self.len += 1;
            Ok(())
        } else {
            Err(Full)
        }
    }

    // All of `more` at the end; a list without room for them stays as it is.
    pub fn extend_from_slice(&mut self, more: &[T]) -> Result<(), Full>
        ensures value { is_ok result ≡ nat_le (length (items self.old) + length more.now) N }
        ensures after { items self.new ≡ (if is_ok result then items self.old ++ more.now else items self.old) }
    {
        if N - self.len < more.len() {
            return Err(Full);
        }
        let end = self.len + more.len();
        let all: &mut [T] = &mut self.slots;
        all[self.len..end].copy_from_slice(more);
        self.len = end;
        Ok(())
    }

    // Takes the last item off; an empty list stays as it is.
    pub fn pop(&mut self) -> Option<T>
        ensures value { result ≡ last (items self.old) }
        ensures after { items self.new ≡ take (length (items self.old) - 1) (items self.old) }
    {
        self.len = self.len.checked_sub(1)?;
        Some(self.slots[self.len])
    }
}

// A list of at most N items, kept in memory of its own.
#![tactic(auto)]

ghost use Rattle.std.specs.Prelude.{◌≡◌, ◌≤◌, length};

mod list;
mod size;

// There is no room for more.
#[derive(Clone, Copy, PartialEq, Eq, Debug)]
pub struct Full;

// The first `len` slots hold the list; what the others hold is never seen. An array with its length beside it, since a controller has no heap.
#[derive(Drop)]
pub struct Bounded<T, const N: usize> {
    slots: [T; N],
    len: usize,
    ghost whole: { length slots ≡ N },
    ghost few: { len ≤ N },
}

//! Searches by number in a slice, and lists that rise by number in memory of their own.
#![tactic(auto)]

ghost use Rattle.std.specs.Prelude.{◌≡◌, ℕ, ◌<◌, length, IfSome, ◌==◌};
ghost use Rattle.packed.specs.First.{first};
ghost use Rattle.packed.specs.Rising.{has};

mod sorted_list;

pub use sorted_list::SortedList;

/// An element with a number of its own.
pub trait Keyed {
    ghost key: { Self → ℕ };

    fn key_of(&self) -> u32
        ensures { result ≡ key self.now };
}

/// A number is its own.
impl Keyed for u32 {
    ghost key = { λ n. n };

    fn key_of(&self) -> u32 {
        *self
    }
}

/// The place of the first element that has this number.
pub fn place_of<T: Keyed>(xs: &[T], number: u32) -> Option<usize>
    ensures place { result ≡ first (λ x. T.Keyed.key x == number) xs.now }
    ensures within { IfSome result (λ i. i < length xs.now) }
{
    xs.iter().position(|x| x.key_of() == number)
}

/// Whether some element has this number.
pub fn contains<T: Keyed>(xs: &[T], number: u32) -> bool
    ensures { result ≡ has T.Keyed.key number xs.now }
{
    xs.iter().any(|x| x.key_of() == number)
}

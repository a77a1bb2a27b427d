ghost use Rattle.std.specs.Prelude.{◌≡◌, ◌<◌, ◌≤◌, not, if◌then◌else◌, List, [], length, is_some, Some, IfOk, IfErr, IfSome, ◌==◌};
ghost use Rattle.packed.specs.First.{first};
ghost use Rattle.packed.specs.Rising.{has, lookup, insert, remove, change, rises};
ghost use Rattle.packed.specs.Place.{IsGapFor};

use crate::Keyed;
use arrayvec::ArrayVec;
use std::marker::Model;

/// At most `CAP` elements, packed in rising order of their numbers. No two have the same.
#[derive(Drop)]
pub struct SortedList<T: Keyed, const CAP: usize> {
    items: ArrayVec<T, CAP>,
}

impl<T: Keyed, const CAP: usize> Model for SortedList<T, CAP> {
    ghost use Rattle.std.specs.Prelude.{◌≡◌, ◌≤◌, List, true, length};
    ghost use Rattle.packed.specs.Rising.{rises};

    ghost Value = { List T };

    ghost view = { λ l. l.items.items };

    ghost invariant = { λ l. (rises T.Keyed.key 0 l.items.items ≡ true) × (length l.items.items ≤ CAP) };
}

impl<T: Keyed + Copy + Default, const CAP: usize> SortedList<T, CAP> {
    /// No elements.
    pub fn new() -> Self
        ensures { result ≡ [] }
    {
        SortedList {
            items: ArrayVec::new(),
        }
    }

    /// These elements, where they rise.
    pub fn from_rising(items: ArrayVec<T, CAP>) -> Option<Self>
        ensures rising { is_some result ≡ rises T.Keyed.key 0 items.items }
        ensures list { IfSome result (λ l. l ≡ items.items) }
    {
        if is_rising(items.as_slice()) {
            Some(SortedList { items })
        } else {
            None
        }
    }

    /// The elements in rising order.
    pub fn as_slice(&self) -> &[T]
        ensures value { result.now ≡ self.now }
        ensures fits { length self.now ≤ CAP }
    {
        self.items.as_slice()
    }

    /// How many elements there are.
    pub fn len(&self) -> usize
        ensures value { result ≡ length self.now }
        ensures fits { result ≤ CAP }
    {
        self.items.len()
    }

    // Where the number is, or where it would go.
    fn search(&self, number: u32) -> Result<usize, usize>
        ensures found { IfOk result (λ i. first (λ x. T.Keyed.key x == number) self.now ≡ Some i) }
        ensures within { IfOk result (λ i. i < length self.now) }
        ensures absent { IfErr result (IsGapFor T.Keyed.key self.now number) }
    {
        self.items.binary_search_by_key(&number, |x| x.key_of())
    }

    /// Whether some element has this number.
    pub fn contains(&self, number: u32) -> bool
        ensures { result ≡ has T.Keyed.key number self.now }
    {
        self.search(number).is_ok()
    }

    /// The element that has this number.
    pub fn get(&self, number: u32) -> Option<T>
        ensures found { result ≡ lookup T.Keyed.key number self.now }
        ensures there { is_some result ≡ has T.Keyed.key number self.now }
    {
        // A match, since the place is within the list only where it was found, and a closure would have to be told so by a clause.
        match self.search(number) {
            Ok(at) => Some(self.items[at]),
            Err(_) => None,
        }
    }

    /// Puts a new element into its place, where no other has its number. Says whether it did.
    pub fn insert(&mut self, new: T) -> bool
        requires { length self.old < CAP }
        ensures fresh { result ≡ not (has T.Keyed.key (T.Keyed.key new) self.old) }
        ensures list { self.new ≡ (if has T.Keyed.key (T.Keyed.key new) self.old then self.old else insert T.Keyed.key new self.old) }
    {
        match self.search(new.key_of()) {
            Ok(_) => false,
            Err(at) => {
                self.items.insert(at, new);
                true
            }
        }
    }

    /// Puts an element into the place of the one that has its number. Says whether there was one.
    pub fn replace(&mut self, new: T) -> bool
        ensures there { result ≡ has T.Keyed.key (T.Keyed.key new) self.old }
        ensures list { self.new ≡ change T.Keyed.key (T.Keyed.key new) (λ _. new) self.old }
    {
        match self.search(new.key_of()) {
            Ok(at) => {
                self.items[at] = new;
                true
            }
            Err(_) => false,
        }
    }

    /// Takes the element that has this number out.
    pub fn remove(&mut self, number: u32) -> Option<T>
        ensures taken { result ≡ lookup T.Keyed.key number self.old }
        ensures there { is_some result ≡ has T.Keyed.key number self.old }
        ensures left { self.new ≡ remove T.Keyed.key number self.old }
    {
        // A match, as in `get`.
        match self.search(number) {
            Ok(at) => Some(self.items.remove(at)),
            Err(_) => None,
        }
    }
}

/// Whether each number is above the one before it.
#[tactic(auto, unfolding(crate::specs::Rising::rises))]
fn is_rising<T: Keyed>(items: &[T]) -> bool
    ensures { result ≡ rises T.Keyed.key 0 items.now }
{
    match items {
        [one, others @ ..] => match others {
            [other, ..] => one.key_of() < other.key_of() && is_rising(others),
            [] => true,
        },
        [] => true,
    }
}

//! The words of a line, one after the other.
ghost use Rattle.std.specs.Prelude.{◌≡◌, [], ◌∷◌, IfOk, string_bytes, MatchResult, IsErr, ◌≢◌, Bool, List, ℕ, vec_items};
ghost use Rattle.std.specs.Iterator.{YieldsFirstRef, item_count};
ghost use Rattle.lines.specs.Line.{uncommented, words_of, spaced, where_true, Given, Counted};
ghost use Rattle.numerals.specs.Number.{WriteAll32};

use crate::fault::Fault;
use numerals::{Number, NumberFault};
use std::alloc::{AllocError, Global};
use std::marker::Model;

/// What is left to read of a line. A contract sees the words that are left.
#[derive(Drop)]
pub struct Words<'a> {
    rest: &'a str,
}

impl<'a> Model for Words<'a> {
    ghost Value = { List (List ℕ) };

    ghost view = { λ words. words_of words.rest.now };
}

impl<'a> Iterator for Words<'a> {
    type Item = &'a str;

    ghost next_gives = { YieldsFirstRef (λ words. words) };

    ghost remaining = { item_count (λ words. words) };

    fn next(&mut self) -> Option<&'a str> {
        let text = self.rest.trim_start_matches(' ');
        let (word, rest) = text.split_once(' ').unwrap_or((text, ""));
        self.rest = rest;
        (!word.is_empty()).then_some(word)
    }
}

impl<'a> Words<'a> {
    /// The words of a line, without its comment.
    pub fn new(line: &'a str) -> Words<'a>
        ensures { result ≡ words_of (uncommented line.now) }
    {
        let (rest, _) = line.split_once('#').unwrap_or((line, ""));
        Words { rest }
    }

    /// A word that has to be there.
    pub fn word(&mut self, what: &'static str) -> Result<&'a str, Fault<'a>>
        ensures { Given self.old result self.new }
    {
        self.next().ok_or(Fault::Missing(what))
    }

    /// A number that has to be there.
    pub fn number<N: Number>(&mut self, what: &'static str) -> Result<N, Fault<'a>>
        ensures { Counted N.written self.old result self.new }
    {
        let word = self.word(what)?;
        number_of(word)
    }

    /// Refuses a word after the last one that the call takes.
    pub fn end(mut self) -> Result<(), Fault<'a>>
        ensures { MatchResult result (λ _. self.entry ≡ []) (λ _. self.entry ≢ []) }
    {
        match self.next() {
            Some(word) => Err(Fault::WordTooMany(word)),
            None => Ok(()),
        }
    }

    /// A number that has to be there, and ends the line.
    pub fn last_number<N: Number + Drop>(mut self, what: &'static str) -> Result<N, Fault<'a>>
        ensures { MatchResult result (λ n. (w : List ℕ) × (self.entry ≡ w ∷ []) × (N.written w ≡ Ok n)) (λ _. (w : List ℕ) → self.entry ≡ w ∷ [] → IsErr (N.written w)) }
    {
        let number = self.number(what)?;
        self.end()?;
        Ok(number)
    }

    /// Whether the word stands there. Nothing else may, to the end of the line.
    pub fn ends_with(mut self, mark: &str) -> Result<bool, Fault<'a>>
        ensures { MatchResult result (λ stands. self.entry ≡ where_true stands mark.now) (λ _. (stands : Bool) → self.entry ≢ where_true stands mark.now) }
    {
        match self.next() {
            None => Ok(false),
            Some(word) if word == mark => {
                self.end()?;
                Ok(true)
            }
            Some(word) => Err(Fault::WordTooMany(word)),
        }
    }

    /// The words that are left, with one space between.
    // No list of them is kept beside the text: of short words it would be several times the line. Most texts fit the room that this one
    // begins with, so it seldom grows.
    pub fn joined(mut self, heap: Global) -> Result<String, AllocError>
        ensures { IfOk result (λ s. string_bytes s ≡ spaced self.entry) }
    {
        let mut all = String::with_capacity(heap, 24)?;
        if let Some(first) = self.next() {
            all.push_str(first)?;
        }
        for word in self {
            all.push(' ')?;
            all.push_str(word)?;
        }
        Ok(all)
    }

    /// The words that are left, each of which has to be a number.
    pub fn numbers(self, heap: Global) -> Result<Vec<u32>, Fault<'a>>
        ensures { IfOk result (λ ns. WriteAll32 self.entry (vec_items ns)) }
    {
        let mut numbers = Vec::new(heap);
        for word in self {
            numbers.push(number_of(word)?)?;
        }
        Ok(numbers)
    }
}

/// The number that the word writes.
pub fn number_of<'a, N: Number>(word: &'a str) -> Result<N, Fault<'a>>
    ensures { MatchResult result (λ n. N.written word.now ≡ Ok n) (λ _. IsErr (N.written word.now)) }
{
    match N::parse(word) {
        Ok(number) => Ok(number),
        Err(NumberFault::NotANumber) => Err(Fault::NotANumber(word)),
        Err(NumberFault::TooLarge) => Err(Fault::TooLarge(word)),
    }
}

//! Numbers that a word writes: decimal, or hexadecimal after `0x`.
#![tactic(auto)]

ghost use Rattle.std.specs.Prelude.{◌≡◌, ℕ, ◌^◌, ◌≤◌, List, Result};
ghost use Rattle.numerals.specs.Number.{numeral, read_in, read, fitted};
ghost use Rattle.numerals.specs.declared.NumberFault.{NumberFault};

#[cfg(test)]
mod tests;

/// Why a word is not a number that can be used.
#[derive(Clone, Copy, Debug, PartialEq, Eq)]
pub enum NumberFault {
    NotANumber,
    TooLarge,
}

/// A type of numbers that a word can write.
pub trait Number: Sized {
    // what a word writes
    ghost written: { List ℕ → Result Self NumberFault };

    /// The number that the word writes, where it fits the type.
    fn parse(word: &str) -> Result<Self, NumberFault>
        ensures { result ≡ written word.now };
}

impl Number for u64 {
    ghost written = { read };

    fn parse(word: &str) -> Result<u64, NumberFault> {
        match word.strip_prefix("0x") {
            Some(digits) => number_in(digits, 16),
            None => number_in(word, 10),
        }
    }
}

impl Number for u32 {
    ghost written = { λ word. fitted (2 ^ 32) (read word) };

    fn parse(word: &str) -> Result<u32, NumberFault> {
        let value = u64::parse(word)?;
        u32::try_from(value).or(Err(NumberFault::TooLarge))
    }
}

/// The number that the digits write in the radix.
fn number_in(digits: &str, radix: u32) -> Result<u64, NumberFault>
    requires low { 2 ≤ radix }
    requires high { radix ≤ 36 }
    ensures { result ≡ read_in radix digits.now }
{
    // `from_str_radix` would take a sign, and would call a long text with a bad digit too large.
    if !is_numeral(digits.as_bytes(), radix) {
        return Err(NumberFault::NotANumber);
    }
    u64::from_str_radix(digits, radix).or(Err(NumberFault::TooLarge))
}

/// Whether the text is one digit of the radix or more, and nothing else.
fn is_numeral(text: &[u8], radix: u32) -> bool
    requires low { 2 ≤ radix }
    requires high { radix ≤ 36 }
    ensures { result ≡ numeral radix text.now }
{
    !text.is_empty() && text.iter().all(|byte| char::from(*byte).is_digit(radix))
}

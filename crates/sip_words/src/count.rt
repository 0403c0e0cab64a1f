//! Counts, which an option gives within limits.

ghost use Rattle.std.specs.Prelude.{◌≡◌, option_map};
ghost use Rattle.sip_words.specs.Numbers as spec;

use crate::number::number_in;

/// The least and the most that a count may be, and what it is where no option gives it.
#[derive(Clone, Copy)]
pub struct Count {
    pub least: u32,
    pub most: u32,
    pub fallback: u32,
}

impl Count {
    /// The number that a word is, if the count may be it.
    pub fn number(self, word: &str) -> Option<u32>
        ensures { result ≡ spec.count_in self word.now }
    {
        let number = number_in(word.as_bytes())?;
        if u64::from(self.least) <= number && number <= u64::from(self.most) {
            return Some(number as u32);
        }
        None
    }

    /// The number of the count, where an option may give a word for it.
    pub fn or_fallback(self, word: Option<&str>) -> u32
        ensures { result ≡ spec.count_or self (option_map (λ w. w.now) word.entry) }
    {
        match word {
            Some(word) => self.number(word).unwrap_or(self.fallback),
            None => self.fallback,
        }
    }
}

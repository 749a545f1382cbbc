// The words of a case.
use std::alloc::{AllocError, Global};

// More calls than a case makes.
const CALLS: u64 = 50_000;

/// The first word, and what stands behind it.
pub fn cut(text: &str) -> (&str, &str) {
    text.split_once(' ').unwrap_or((text, ""))
}

/// Words with spaces between them: numbers, and lists of numbers.
#[derive(Drop)]
pub struct Words<'a> {
    words: Vec<&'a str>,
}

impl<'a> Words<'a> {
    /// The words of a text.
    pub fn of(alloc: Global, text: &'a str) -> Result<Words<'a>, AllocError> {
        let mut words = Vec::new(alloc);
        for word in text.split(' ') {
            words.push(word)?;
        }
        Ok(Words { words })
    }

    fn word(&self, place: usize) -> &'a str {
        self.words.get(place).copied().unwrap_or("-")
    }

    /// The number at this place from 0 on, `None` where none stands.
    pub fn number(&self, place: usize) -> Option<u64> {
        self.word(place).parse().ok()
    }

    /// How many bytes the word at this place says, at least one; all, where it says no number.
    pub fn size(&self, place: usize) -> usize {
        let size: usize = self.word(place).parse().unwrap_or(usize::MAX);
        size.max(1)
    }

    /// Whether the number at this place is 1.
    pub fn is_one(&self, place: usize) -> bool {
        self.number(place) == Some(1)
    }

    /// The list at this place.
    pub fn list(&self, alloc: Global, place: usize) -> Result<Vec<u64>, AllocError> {
        let mut list = Vec::new(alloc);
        let word = self.word(place);
        if word == "odd" {
            for half in 0..CALLS / 2 {
                list.push(half * 2 + 1)?;
            }
            return Ok(list);
        }
        for number in word.split(',') {
            if let Ok(number) = number.parse() {
                list.push(number)?;
            }
        }
        Ok(list)
    }
}

// A case: its words, and what is told of it.
use partition_names::Granularity;
use pb_wire::PayloadType;
use pv_name::PvName;
use std::alloc::Global;
use std::fmt::{Display, Write as _};
use std::str;

/// What is left of a case, whose words stand with one blank between, and what was told of it.
#[derive(Drop)]
pub struct Case<'a> {
    pub alloc: Global,
    rest: &'a str,
    told: String,
    // A word was of another form, or memory was wanting.
    is_bad: bool,
}

impl<'a> Case<'a> {
    pub fn new(alloc: Global, line: &'a str) -> Case<'a> {
        Case {
            alloc,
            rest: line,
            told: String::new(alloc),
            is_bad: false,
        }
    }

    /// What was told, unless a word was of another form or memory was wanting.
    pub fn into_told(self) -> Option<String> {
        if self.is_bad { None } else { Some(self.told) }
    }

    pub fn tell<D: Display + Drop>(&mut self, shown: D) {
        self.is_bad |= write!(self.told, "{shown}").is_err();
    }

    /// Tells what stands between two items.
    pub fn separate(&mut self, separator: &str) {
        if !self.told.is_empty() {
            self.tell(separator);
        }
    }

    /// Tells bytes in hexadecimal, `-` for none.
    pub fn tell_hex(&mut self, bytes: &[u8]) {
        match hex::encode(self.alloc, bytes) {
            Ok(text) if text.is_empty() => self.tell('-'),
            Ok(text) => self.tell(text),
            Err(_) => self.is_bad = true,
        }
    }

    /// Tells that the case is none.
    pub fn refuse(&mut self) {
        self.is_bad = true;
    }

    /// All that is left.
    pub fn rest(&self) -> &'a str {
        self.rest
    }

    /// The next word, which is empty where none is left.
    pub fn word(&mut self) -> &'a str {
        let (word, rest) = self.rest.split_once(' ').unwrap_or((self.rest, ""));
        self.rest = rest;
        word
    }

    pub fn number(&mut self) -> u64 {
        let number = self.word().parse::<u64>();
        self.is_bad |= number.is_err();
        number.unwrap_or(0)
    }

    pub fn number32(&mut self) -> u32 {
        let number = self.word().parse::<u32>();
        self.is_bad |= number.is_err();
        number.unwrap_or(0)
    }

    pub fn signed(&mut self) -> i32 {
        let number = self.word().parse::<i32>();
        self.is_bad |= number.is_err();
        number.unwrap_or(0)
    }

    /// Numbers with commas between, or `-` for none.
    pub fn numbers(&mut self) -> Vec<u64> {
        let mut numbers = Vec::new(self.alloc);
        let word = self.word();
        if word != "-" {
            for part in word.split(',') {
                let number = part.parse::<u64>();
                self.is_bad |= number.is_err();
                self.is_bad |= numbers.push(number.unwrap_or(0)).is_err();
            }
        }
        numbers
    }

    /// Bytes in hexadecimal, or `-` for none.
    pub fn bytes(&mut self) -> Vec<u8> {
        let word = self.word();
        if word == "-" {
            return Vec::new(self.alloc);
        }
        let bytes = hex::decode(self.alloc, word);
        self.is_bad |= bytes.is_err();
        bytes.unwrap_or(Vec::new(self.alloc))
    }

    pub fn granularity(&mut self) -> Granularity {
        let found = Granularity::of_name(self.word().as_bytes());
        self.is_bad |= found.is_none();
        found.unwrap_or(Granularity::Year)
    }

    pub fn payload_type(&mut self) -> PayloadType {
        let found = PayloadType::from_name(self.word().as_bytes());
        self.is_bad |= found.is_none();
        found.unwrap_or(PayloadType::ScalarInt)
    }

    pub fn name(&mut self) -> Option<PvName> {
        let bytes = self.bytes();
        let name = PvName::new(self.alloc, &bytes).ok();
        self.is_bad |= name.is_none();
        name
    }
}

/// Bytes that are text, as names and paths are.
pub fn text_of(bytes: &[u8]) -> &str {
    str::from_utf8(bytes).unwrap_or("no text")
}

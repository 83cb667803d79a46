//! Tables, their cases, and the words of these.

use muni_days::Day;
use muni_dec::{Coupon, Price, Yield};

/// The words that a table gives to its next lines.
#[derive(Clone, Copy)]
pub struct Table<'a> {
    base: &'a [u8],
}

/// A case of a table: the words of its base, and those of its line.
#[derive(Clone, Copy)]
pub struct Sample<'a> {
    base: &'a [u8],
    line: &'a [u8],
}

impl<'a> Table<'a> {
    /// A table from its first line on.
    pub fn new() -> Table<'a> {
        Table { base: b"" }
    }

    /// The case of the next line, if it is one.
    pub fn sample(&mut self, line: &'a str) -> Option<Sample<'a>> {
        let line = line.as_bytes();
        if let Some(base) = line.strip_prefix(b"base ".as_slice()) {
            self.base = base;
            return None;
        }
        if line == b"base".as_slice() {
            self.base = b"";
            return None;
        }
        if line.starts_with(b"# ".as_slice()) {
            return None;
        }
        Some(Sample {
            base: self.base,
            line,
        })
    }
}

impl<'a> Sample<'a> {
    /// The case of one line that extends no other.
    pub fn of(line: &'a str) -> Sample<'a> {
        Sample {
            base: b"",
            line: line.as_bytes(),
        }
    }

    /// Whether a word is among those of the case.
    pub fn has(&self, word: &str) -> bool {
        has(self.base, word.as_bytes()) || has(self.line, word.as_bytes())
    }

    /// What follows `name`, as `dated=`, in the first word that begins so, of the line or else of its
    /// base.
    pub fn text(&self, name: &str) -> Option<&'a [u8]> {
        match value_in(self.line, name.as_bytes()) {
            Some(value) => Some(value),
            None => value_in(self.base, name.as_bytes()),
        }
    }

    /// The words of the base, and those of the line, each with blanks between them.
    pub fn words(&self) -> [&'a [u8]; 2] {
        [self.base, self.line]
    }

    /// A whole number, with a minus sign if it is below zero.
    pub fn number(&self, name: &str) -> Option<i64> {
        str::from_utf8(self.text(name)?).ok()?.parse::<i64>().ok()
    }

    /// A number of things, or the place of one, counted from 0.
    pub fn count(&self, name: &str) -> Option<usize> {
        str::from_utf8(self.text(name)?).ok()?.parse::<usize>().ok()
    }

    pub fn day(&self, name: &str) -> Option<Day> {
        Day::read(self.text(name)?).ok()
    }

    pub fn coupon(&self, name: &str) -> Option<Coupon> {
        Coupon::read(self.text(name)?).ok()
    }

    pub fn price(&self, name: &str) -> Option<Price> {
        Price::read(self.text(name)?).ok()
    }

    pub fn yld(&self, name: &str) -> Option<Yield> {
        Yield::read(self.text(name)?).ok()
    }
}

fn has(words: &[u8], word: &[u8]) -> bool {
    for own in words.split(|b| *b == b' ') {
        if own == word {
            return true;
        }
    }
    false
}

fn value_in<'a>(words: &'a [u8], name: &[u8]) -> Option<&'a [u8]> {
    for word in words.split(|b| *b == b' ') {
        if let Some(value) = word.strip_prefix(name) {
            return Some(value);
        }
    }
    None
}

// The words of a command line, taken one by one: names, numbers, and bytes as digits.
use crate::hex;
use std::str;

// The words of a line that are still to come. After the last one nothing is left, not even an empty word.
#[derive(Drop)]
pub struct Words<'a> {
    rest: Option<&'a mut [u8]>,
}

// A decimal number below 2^32: digits alone, with no sign before them.
fn decimal(word: &[u8]) -> Option<u32> {
    if !word.iter().all(|digit| digit.is_ascii_digit()) {
        return None;
    }
    str::from_utf8(word).ok()?.parse().ok()
}

impl<'a> Words<'a> {
    // The words of a line are what stands between its spaces. Its bytes are used up, since bytes are decoded where their digits stand.
    pub fn of(line: &'a mut [u8]) -> Self {
        Words { rest: Some(line) }
    }

    // The next word, as it stands.
    pub fn word(&mut self) -> Option<&'a mut [u8]> {
        let rest = self.rest.take()?;
        let Some(end) = rest.iter().position(|b| *b == b' ') else {
            return Some(rest);
        };
        let (word, behind) = rest.split_at_mut(end);
        self.rest = Some(&mut behind[1..]);
        Some(word)
    }

    // The number that the next word says.
    pub fn number(&mut self) -> Option<u32> {
        decimal(self.word()?)
    }

    // The bytes that the next word says.
    pub fn bytes(&mut self) -> Option<&'a [u8]> {
        hex::decode(self.word()?)
    }

    // Nothing where words are left that no command takes.
    pub fn end(&self) -> Option<()> {
        match self.rest {
            None => Some(()),
            Some(_) => None,
        }
    }
}

//! Words that something has to tell.

use crate::bytes::bytes_of;
use crate::numbers::{integer, lower, number};
use crate::words::cut;

/// What is left of the words of a row, and whether those before it were told as they stand there.
#[derive(Clone, Copy)]
pub struct Words<'a> {
    rest: &'a [u8],
    /// Whether all was told so.
    pub agree: bool,
}

impl<'a> Words<'a> {
    pub fn new(row: &'a [u8]) -> Self {
        Words {
            rest: row,
            agree: true,
        }
    }

    pub fn is_end(&self) -> bool {
        self.rest.is_empty()
    }

    /// The next word. At the end it is empty.
    pub fn next(&mut self) -> &'a [u8] {
        let (word, rest) = cut(self.rest, b' ');
        self.rest = rest;
        word
    }

    /// A number that isn't told, of 32 bits.
    pub fn size(&mut self) -> u32 {
        lower(number(self.next()))
    }

    /// Asks for what is no word.
    pub fn ask(&mut self, is_so: bool) {
        self.agree &= is_so;
    }

    /// Tells the next word.
    pub fn tell(&mut self, word: &[u8]) {
        let wanted = self.next();
        self.agree &= wanted == word;
    }

    /// Tells `yes` or `no`.
    pub fn tell_flag(&mut self, told: bool) {
        if told {
            self.tell(b"yes");
        } else {
            self.tell(b"no");
        }
    }

    /// Tells a number.
    pub fn tell_number(&mut self, told: i128) {
        let wanted = self.next();
        self.agree &= !wanted.is_empty() && integer(wanted) == told;
    }

    /// Tells bytes, by two digits each.
    pub fn tell_bytes(&mut self, told: &[u8]) {
        let wanted = bytes_of(self.next());
        self.agree &= wanted.as_slice() == told;
    }
}

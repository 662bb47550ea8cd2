//! A text that reports what was parsed. Its methods return no error, so that a reporting function has no early exit.
use bier_bits::AnyBits;
use replay_text::{push_payload, push_positions};
use std::alloc::Global;
use wire_base::{M, Octets};

/// The text, and whether there was memory for all of it.
#[derive(Drop)]
pub struct Told {
    text: Octets,
    is_whole: bool,
}

impl Told {
    pub fn new(alloc: Global) -> Self {
        Told {
            text: Octets::new(alloc),
            is_whole: true,
        }
    }

    /// Returns the text, if there was memory for it.
    pub fn text(&self) -> &[u8] {
        if self.is_whole {
            self.text.as_slice()
        } else {
            b"out of memory"
        }
    }

    fn keep(&mut self, pushed: M<()>) {
        self.is_whole = self.is_whole && pushed.is_ok();
    }

    pub fn octets(&mut self, octets: &[u8]) {
        let pushed = self.text.append(octets);
        self.keep(pushed);
    }

    pub fn word(&mut self, word: &str) {
        self.octets(word.as_bytes());
    }

    pub fn number(&mut self, word: &str, number: u64) {
        self.word(word);
        let pushed = self.text.append_number(number);
        self.keep(pushed);
    }

    /// Appends octets in hexadecimal digits, or a dash for none.
    pub fn digits(&mut self, word: &str, octets: &[u8]) {
        self.word(word);
        let pushed = push_payload(&mut self.text, octets);
        self.keep(pushed);
    }

    pub fn positions(&mut self, word: &str, bits: &AnyBits) {
        self.word(word);
        let pushed = push_positions(&mut self.text, bits);
        self.keep(pushed);
    }

    /// Appends the first rule that is broken.
    pub fn fault(&mut self, number: u8, name: &[u8]) {
        self.number("fault ", u64::from(number));
        self.word(" ");
        self.octets(name);
    }
}

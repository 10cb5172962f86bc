//! A digest of numbers, texts and bytes: it doesn't depend on how bytes are cut into pieces, and tells what stands
//! beside what.
ghost use Rattle.std.specs.Prelude.{◌<◌};

use std::io;
use std::io::Write;

/// Stands for an answer that isn't there.
const NONE: u64 = 0x6e6f_6e65;

#[derive(Drop)]
pub(crate) struct Digest {
    state: u64,
    /// The bytes that make no whole word yet, the last one at the top, and how many they are.
    part: u64,
    held: u8,
}

impl Digest {
    pub(crate) fn new() -> Digest {
        Digest {
            state: 0,
            part: 0,
            held: 0,
        }
    }

    /// The digest of all that was added.
    pub(crate) fn value(&self) -> u64 {
        let all = self.state ^ self.part.wrapping_mul(0x9e37_79b9_7f4a_7c15);
        all ^ (all >> 29) ^ u64::from(self.held)
    }

    pub(crate) fn add_number(&mut self, number: u64) {
        self.settle();
        self.mix(number);
    }

    /// Adds that there is no answer.
    pub(crate) fn add_none(&mut self) {
        self.add_number(NONE);
    }

    /// Adds a text: its length, so that no byte of it passes for one of another text, and its bytes.
    pub(crate) fn add_text(&mut self, text: &[u8]) {
        self.add_number(text.len() as u64);
        self.add_bytes(text);
    }

    /// Adds bytes that come in pieces, as to a writer.
    fn add_bytes(&mut self, bytes: &[u8]) {
        let mut left = self.fill(bytes);
        while let Some((word, behind)) = left.split_first_chunk::<8>() {
            self.mix(u64::from_le_bytes(*word));
            left = behind;
        }
        for byte in left {
            self.add_byte(*byte);
        }
    }

    /// Bytes until the word is whole of which some are there; those that are left.
    fn fill<'a>(&mut self, bytes: &'a [u8]) -> &'a [u8] {
        let mut left = bytes;
        while let Some((byte, behind)) = left.split_first() {
            if self.held == 0 {
                break;
            }
            self.add_byte(*byte);
            left = behind;
        }
        left
    }

    fn add_byte(&mut self, byte: u8) {
        self.part = (self.part >> 8) | (u64::from(byte) << 56);
        self.held = (self.held % 8 + 1) % 8;
        if self.held == 0 {
            self.mix(self.part);
            self.part = 0;
        }
    }

    /// Bytes that make no whole word are one, with their count: what comes behind them can't join them.
    fn settle(&mut self) {
        if self.held != 0 {
            self.mix(self.part ^ u64::from(self.held));
            self.part = 0;
            self.held = 0;
        }
    }

    fn mix(&mut self, word: u64) {
        let mixed = (self.state ^ word).wrapping_mul(0x9e37_79b9_7f4a_7c15);
        self.state = mixed ^ (mixed >> 32);
    }
}

impl Write for Digest {
    fn write(&mut self, buf: &[u8]) -> io::Result<usize> {
        self.add_bytes(buf);
        Ok(buf.len())
    }

    fn flush(&mut self) -> io::Result<()> {
        Ok(())
    }
}

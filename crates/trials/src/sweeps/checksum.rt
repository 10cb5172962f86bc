//! A checksum of texts.

/// The greatest prime number below 2^16, by which the sums are taken.
const BASE: u32 = 65_521;

/// The checksum Adler-32 (RFC 1950, section 8.2) of the bytes so far.
#[derive(Clone, Copy)]
pub(crate) struct Checksum {
    sum: u32,
    sum_of_sums: u32,
}

impl Checksum {
    /// That of no bytes.
    pub(crate) fn new() -> Checksum {
        Checksum {
            sum: 1,
            sum_of_sums: 0,
        }
    }

    /// Goes on over these bytes.
    pub(crate) fn add(&mut self, bytes: &[u8]) {
        for byte in bytes {
            self.sum = self.sum.wrapping_add(*byte as u32) % BASE;
            self.sum_of_sums = self.sum_of_sums.wrapping_add(self.sum) % BASE;
        }
    }

    pub(crate) fn value(&self) -> u32 {
        self.sum_of_sums.wrapping_shl(16) | self.sum
    }
}

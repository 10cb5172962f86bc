//! Bytes that are still to be written.
ghost use Rattle.std.specs.Prelude.{◌≡◌, ◌<◌, ◌≤◌, ◌+◌, [], ◌++◌, length, take, IsTrue, IsFalse};

use std::marker::Model;

/// How many bytes are gathered before they are written: more than a writer behind them gathers, which then passes
/// them on as they are.
const SIZE: usize = 16_384;

/// At most 16,384 bytes, which lie in the value itself. Nothing is done to bytes that leave it, where an `ArrayVec`
/// blanks them.
#[derive(Drop)]
pub(crate) struct Buffer {
    /// Those in it are at the front.
    bytes: [u8; SIZE],
    /// How many there are.
    used: usize,
}

impl Model for Buffer {
    ghost use Rattle.std.specs.Prelude.{◌≡◌, ◌≤◌, ℕ, List, length, take};
    ghost use Rattle.std.specs.Coded.{coded_list, coded_ℕ};

    ghost Value = { List ℕ };

    ghost coded = { coded_list coded_ℕ };

    ghost view = { λ b. take b.used b.bytes };

    ghost invariant = { λ b. (b.used ≤ 16384) × (length b.bytes ≡ 16384) };
}

impl Buffer {
    /// No bytes.
    pub(crate) fn new() -> Buffer
        ensures { result ≡ [] }
    {
        Buffer {
            bytes: [0; SIZE],
            used: 0,
        }
    }

    /// The bytes.
    pub(crate) fn as_slice(&self) -> &[u8]
        ensures { result.now ≡ self.now }
    {
        &self.bytes[..self.used]
    }

    /// Takes all bytes out.
    pub(crate) fn clear(&mut self)
        ensures { self.new ≡ [] }
    {
        self.used = 0;
    }

    /// Puts the first `count` of the bytes behind those in it, where there is room for all the bytes. Else, and only
    /// then, the answer is false, and nothing is changed. All are moved, and those behind the first `count` stand for
    /// nothing.
    #[inline(always)]
    pub(crate) fn put_front(&mut self, bytes: &[u8], count: usize) -> bool
        requires { count ≤ length bytes.now }
        ensures put { IsTrue result → self.new ≡ self.old ++ take count bytes.now }
        ensures same { IsFalse result → self.new ≡ self.old }
        ensures full { IsFalse result → 16384 < length self.old + length bytes.now }
    {
        if SIZE - self.used < bytes.len() {
            return false;
        }
        let end = self.used + bytes.len();
        self.bytes[self.used..end].copy_from_slice(bytes);
        self.used += count;
        true
    }
}

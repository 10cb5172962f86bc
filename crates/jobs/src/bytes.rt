//! Numbers of four bytes, and parts, of lists of bytes. What lies behind the end is 0, or isn't there.
ghost use Rattle.std.specs.Prelude.{◌≡◌, length};

/// The bytes from one place to another.
pub(crate) fn between(bytes: &[u8], from: usize, to: usize) -> &[u8] {
    if from <= to && to <= bytes.len() {
        &bytes[from..to]
    } else {
        &[]
    }
}

/// The number at a place.
pub(crate) fn word_at(bytes: &[u8], at: usize) -> u32 {
    match between(bytes, at, at.saturating_add(4)).first_chunk::<4>() {
        Some(four) => u32::from_le_bytes(*four),
        None => 0,
    }
}

/// Puts a number at a place.
pub(crate) fn put_word(bytes: &mut [u8], at: usize, word: u32) {
    put(bytes, at, &word.to_le_bytes());
}

/// Puts bytes at a place.
pub(crate) fn put(bytes: &mut [u8], at: usize, new: &[u8]) {
    let len = bytes.len();
    if at <= len && new.len() <= len - at {
        bytes[at..at + new.len()].copy_from_slice(new);
    }
}

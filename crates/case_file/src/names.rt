//! Bytes that a file of cases gives a name: lines `let NAME = BYTES`.
use crate::append_bytes;
use std::alloc::AllocError;

/// Appends the bytes that the words spell, and answers whether each word spells some. A word is one of
/// `append_bytes`, or a name to which a line of the file gives bytes; `NAME*16` stands for sixteen times these.
/// A second line of the same name goes on where the first one ended.
pub fn append_named(file: &str, words: &str, bytes: &mut Vec<u8>) -> Result<bool, AllocError> {
    for word in words.split_whitespace() {
        if !append_bytes(word, bytes)? && !append_name(file, word, bytes)? {
            return Ok(false);
        }
    }
    Ok(true)
}

/// Appends the bytes of a name, as often as the word says.
fn append_name(file: &str, word: &str, bytes: &mut Vec<u8>) -> Result<bool, AllocError> {
    let (name, count) = word.split_once('*').unwrap_or((word, "1"));
    let count: usize = count.parse().unwrap_or(0);
    for _ in 0..count {
        if !append_definition(file, name, bytes)? {
            return Ok(false);
        }
    }
    Ok(count > 0)
}

/// Appends the bytes that the lines of the file give to a name, and answers whether one does.
fn append_definition(file: &str, name: &str, bytes: &mut Vec<u8>) -> Result<bool, AllocError> {
    let mut is_known = false;
    for line in file.lines() {
        match definition_of(line) {
            Some((defined, words)) if defined == name => {
                if !append_bytes(words, bytes)? {
                    return Ok(false);
                }
                is_known = true;
            }
            _ => {}
        }
    }
    Ok(is_known)
}

/// The name and the words of its bytes, where the line is a definition.
fn definition_of(line: &str) -> Option<(&str, &str)> {
    line.trim().strip_prefix("let ")?.split_once(" = ")
}

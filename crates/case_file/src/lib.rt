//! Cases that are kept as data, for programs that test a library: a file of lines `INPUT -> ANSWER`.
//!
//! Lines that are empty or begin with `#` say nothing to a program. Bytes are written in hexadecimal, with
//! spaces between them, and `80*16` stands for sixteen bytes 0x80. A line `let NAME = BYTES` gives bytes a name.
#![tactic(auto)]

mod names;

pub use names::append_named;
use std::alloc::AllocError;
use std::io;

/// One case: what is asked, and what has to be answered.
#[derive(Clone, Copy)]
pub struct Case<'a> {
    /// What is asked, in the words of the program that judges it.
    pub input: &'a str,
    /// What it has to answer.
    pub answer: &'a str,
}

/// The case that the line states, `None` where it is empty, a comment or a definition. Any other line without
/// an arrow is a case whose answer is empty, so that no line is passed over.
pub fn case_of(line: &str) -> Option<Case<'_>> {
    let line = line.trim();
    if line.is_empty() || line.starts_with('#') || line.starts_with("let ") {
        return None;
    }
    let (input, answer) = line.split_once(" -> ").unwrap_or((line, ""));
    Some(Case {
        input: input.trim(),
        answer: answer.trim(),
    })
}

/// Appends the bytes that the words spell, and answers whether each word spells some.
pub fn append_bytes(words: &str, bytes: &mut Vec<u8>) -> Result<bool, AllocError> {
    for word in words.split_whitespace() {
        let Some((byte, count)) = repeated(word) else {
            return Ok(false);
        };
        for _ in 0..count {
            bytes.push(byte)?;
        }
    }
    Ok(true)
}

/// The byte that a word spells, and how often.
fn repeated(word: &str) -> Option<(u8, usize)> {
    match word.split_once('*') {
        Some((byte, count)) => Some((byte_of(byte)?, count.parse().ok()?)),
        None => Some((byte_of(word)?, 1)),
    }
}

/// The byte of two hexadecimal digits.
fn byte_of(digits: &str) -> Option<u8> {
    if digits.len() != 2 {
        return None;
    }
    u8::from_str_radix(digits, 16).ok()
}

/// Appends the bytes as words of two hexadecimal digits, apart by spaces.
pub fn append_hexadecimal(bytes: &[u8], text: &mut String) -> Result<(), AllocError> {
    for (index, byte) in bytes.iter().enumerate() {
        if index > 0 {
            text.push_str(" ")?;
        }
        write!(text, "{byte:02x}")?;
    }
    Ok(())
}

/// Whether the answer is the one that the case states. If it isn't, prints both, with the file and the line,
/// which counts from 1.
pub fn is_answered(
    rt: &impl Print,
    file: &str,
    line: usize,
    case: Case<'_>,
    answer: &str,
) -> io::Result<bool> {
    let is_as_stated = answer == case.answer;
    if !is_as_stated {
        println!(rt;
            "{file}:{line}: {} -> {}, and not {answer}",
            case.input, case.answer
        )?;
    }
    Ok(is_as_stated)
}

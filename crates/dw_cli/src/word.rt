//! The words of a command line: the numbers that they spell, and the attributes that they name.
ghost use Rattle.std.specs.Prelude.{◌≡◌, ◌≤◌, ◌^◌, Some};
ghost use Rattle.std.specs.Option.{option_and_then};
ghost use Rattle.dw_cli.specs.Words.{argument_name, attribute_in, bad_word_text, below, number_in, number_of, offset_in, value_in, wanted};

use dw_tool::names::attribute_named;
use std::fmt;

/// An argument that takes some words alone.
#[derive(Clone, Copy, Debug, PartialEq, Eq)]
pub enum Argument {
    /// The offset of an entry in `.debug_info`.
    Offset,
    /// The name or the number of an attribute.
    Attribute,
    /// A number that an attribute gets.
    Value,
}

/// A word that isn't what its argument may be.
#[derive(Clone, Copy, Debug, PartialEq, Eq)]
pub struct BadWord<'a> {
    /// The argument.
    pub argument: Argument,
    /// The word that was given for it.
    pub word: &'a str,
}

impl Argument {
    /// The name of the argument in the program's usage.
    pub fn name(self) -> &'static str
        ensures { result.now ≡ argument_name self }
    {
        match self {
            Argument::Offset => "OFFSET",
            Argument::Attribute => "ATTR",
            Argument::Value => "VALUE",
        }
    }

    // Which words the argument may be.
    fn wanted(self) -> &'static str
        ensures { result.now ≡ wanted self }
    {
        match self {
            Argument::Offset => OFFSET_WANTED,
            Argument::Attribute => ATTRIBUTE_WANTED,
            Argument::Value => VALUE_WANTED,
        }
    }
}

const OFFSET_WANTED: &str = "a number below 2^64 is wanted, in decimal or in hexadecimal after 0x";

const ATTRIBUTE_WANTED: &str =
    "a name like DW_AT_name is wanted, or a number below 2^64, in decimal or in hexadecimal after 0x";

const VALUE_WANTED: &str = "a number below 2^127 is wanted, in decimal or in hexadecimal after 0x";

/// The text is the message for the user, with the end of its last line.
impl fmt::Display for BadWord<'_> {
    ghost output = { λ bad. Some (bad_word_text bad) };

    fn fmt<W: fmt::Write>(&self, f: &mut fmt::Formatter<W>) -> fmt::Result {
        let word = self.word;
        let name = self.argument.name();
        let wanted = self.argument.wanted();
        write!(
            f,
            "error: invalid value '{word}' for '<{name}>': {wanted}\n\nFor more information, try '--help'.\n"
        )
    }
}

/// The offset that a word spells: decimal digits, or `0x` and hexadecimal digits of either case, whose number is
/// below 2^64. Leading zeros are allowed. `None` for any other word.
pub fn offset_of(word: &str) -> Option<u64>
    ensures exact { result ≡ offset_in word.now }
{
    u64::try_from(number(word)?).ok()
}

/// The value that a word spells: a number written as an offset is, but below 2^127; with `minus` the negative of
/// it. `None` for any other word.
pub fn value_of(word: &str, minus: bool) -> Option<i128>
    ensures exact { result ≡ value_in minus word.now }
{
    let value = i128::try_from(number(word)?).ok()?;
    Some(if minus { -value } else { value })
}

/// The attribute that a word names: by the name that this project prints for it, as `DW_AT_name`, or by its number,
/// written as an offset is. `None` for any other word.
pub fn attribute_of(word: &str) -> Option<u64>
    ensures exact { result ≡ attribute_in word.now }
{
    match word.strip_prefix("DW_AT_") {
        Some(name) => attribute_named(name),
        None => offset_of(word),
    }
}

// The number that a word spells, where it is below 2^128.
fn number(word: &str) -> Option<u128>
    ensures { result ≡ option_and_then (below (2 ^ 128)) (number_of word.now) }
{
    match word.strip_prefix("0x") {
        Some(digits) => number_by(digits, 16),
        None => number_by(word, 10),
    }
}

// The number that digits spell in this base. The standard library's parser takes a sign in front of them too.
fn number_by(digits: &str, base: u32) -> Option<u128>
    requires least { 2 ≤ base }
    requires most { base ≤ 36 }
    ensures { result ≡ option_and_then (below (2 ^ 128)) (number_in base digits.now) }
{
    if digits.starts_with('+') {
        return None;
    }
    u128::from_str_radix(digits, base).ok()
}

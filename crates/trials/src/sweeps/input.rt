//! The sections of a vector, and how they are read.
use case_file::append_named;
use rothelduf::{Order, Strings, Versions};
use std::alloc::AllocError;

/// Which of the sections is meant.
#[derive(Clone, Copy, PartialEq, Eq)]
pub(crate) enum SectionName {
    Info,
    Abbrev,
    Str,
    LineStr,
    StrOffsets,
}

impl SectionName {
    /// The word by which a vector names it.
    pub(crate) fn word(self) -> &'static str {
        match self {
            SectionName::Info => "info",
            SectionName::Abbrev => "abbrev",
            SectionName::Str => "str",
            SectionName::LineStr => "line-str",
            SectionName::StrOffsets => "str-offsets",
        }
    }
}

/// The sections that are read, lent, and how they are read.
#[derive(Clone, Copy)]
pub(crate) struct Input<'a> {
    pub(crate) order: Order,
    pub(crate) versions: Versions,
    /// The bytes of `.debug_info`.
    pub(crate) info: &'a [u8],
    /// The bytes of `.debug_abbrev`.
    pub(crate) abbrev: &'a [u8],
    /// The sections of texts.
    pub(crate) strings: Strings<'a>,
}

impl<'a> Input<'a> {
    /// The bytes of the section of this name.
    pub(crate) fn section(&self, name: SectionName) -> &'a [u8] {
        match name {
            SectionName::Info => self.info,
            SectionName::Abbrev => self.abbrev,
            SectionName::Str => self.strings.str,
            SectionName::LineStr => self.strings.line_str,
            SectionName::StrOffsets => self.strings.str_offsets,
        }
    }

    /// The same sections, but for that of this name, which has these bytes.
    pub(crate) fn with<'b>(&self, name: SectionName, bytes: &'b [u8]) -> Input<'b>
    where
        'a: 'b,
    {
        let strings = self.strings;
        Input {
            order: self.order,
            versions: self.versions,
            info: either(name == SectionName::Info, bytes, self.info),
            abbrev: either(name == SectionName::Abbrev, bytes, self.abbrev),
            strings: Strings {
                str: either(name == SectionName::Str, bytes, strings.str),
                line_str: either(name == SectionName::LineStr, bytes, strings.line_str),
                str_offsets: either(name == SectionName::StrOffsets, bytes, strings.str_offsets),
            },
        }
    }
}

fn either<'a>(is_first: bool, first: &'a [u8], second: &'a [u8]) -> &'a [u8] {
    if is_first { first } else { second }
}

/// Where each section of a vector ends, one behind the other.
#[derive(Clone, Copy)]
pub(crate) struct Ends {
    info: usize,
    abbrev: usize,
    str: usize,
    line_str: usize,
}

/// Appends the sections of a vector's text, one behind the other.
pub(crate) fn append_sections(text: &str, bytes: &mut Vec<u8>) -> Result<Ends, AllocError> {
    append_named(text, SectionName::Info.word(), bytes)?;
    let info = bytes.len();
    append_named(text, SectionName::Abbrev.word(), bytes)?;
    let abbrev = bytes.len();
    append_named(text, SectionName::Str.word(), bytes)?;
    let str = bytes.len();
    append_named(text, SectionName::LineStr.word(), bytes)?;
    let line_str = bytes.len();
    append_named(text, SectionName::StrOffsets.word(), bytes)?;
    Ok(Ends {
        info,
        abbrev,
        str,
        line_str,
    })
}

/// The sections that end there, read as the word of the vector says.
pub(crate) fn input_of<'a>(word: &str, bytes: &'a [u8], ends: Ends) -> Input<'a> {
    Input {
        order: order_of(word),
        versions: versions_of(word),
        info: part(bytes, 0, ends.info),
        abbrev: part(bytes, ends.info, ends.abbrev),
        strings: Strings {
            str: part(bytes, ends.abbrev, ends.str),
            line_str: part(bytes, ends.str, ends.line_str),
            str_offsets: part(bytes, ends.line_str, bytes.len()),
        },
    }
}

fn order_of(word: &str) -> Order {
    if word.contains(":big") {
        Order::Big
    } else {
        Order::Little
    }
}

fn versions_of(word: &str) -> Versions {
    if word.contains(":v4") {
        Versions::FourAndFive
    } else {
        Versions::Five
    }
}

/// The bytes from one offset to another, and none where these aren't offsets of such.
fn part(bytes: &[u8], from: usize, to: usize) -> &[u8] {
    bytes.get(from..to).unwrap_or(&[])
}

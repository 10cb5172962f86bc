//! What names an entry of a section, and why a reference names none.
ghost use Rattle.std.specs.Prelude.{Some};
ghost use Rattle.dw_section.specs.Texts.{ref_fault_name};

use std::error::Error;
use std::fmt;

/// An entry of a section: the number of its item, and where it begins in that item.
#[derive(Clone, Copy, Debug, PartialEq, Eq, Hash)]
pub struct EntryId {
    /// The number of the item, counted from 0.
    pub item: usize,
    /// Where the entry begins, counted from the unit's first byte, that of its initial length.
    pub offset: u64,
}

/// Why a reference names no entry (sections 2.2 and 7.5.5). Its number is `fault as u8`: the variants count
/// from 1 on.
#[derive(Clone, Copy, Debug, PartialEq, Eq)]
pub enum RefFault {
    /// The value isn't a reference: its form is none of a reference, or it holds no number.
    NotReference = 1,
    /// An offset in the unit at or past the unit's end.
    OutsideUnit,
    /// An offset in the section at or past the section's end.
    OutsideSection,
    /// No entry begins at the offset.
    NotAnEntry,
    /// An offset in the section that lies in an item which isn't read as a unit.
    InOther,
    /// No type unit of the section has the signature.
    NoSignature,
    /// No entry begins at the type offset of the type unit that has the signature.
    BadTypeOffset,
    /// The entry is in a supplementary file (section 7.3.6).
    Supplementary,
}

/// The text is the fault's name, as `OutsideUnit`.
impl fmt::Display for RefFault {
    ghost output = { λ fault. Some (ref_fault_name fault) };

    fn fmt<W: fmt::Write>(&self, f: &mut fmt::Formatter<W>) -> fmt::Result {
        match self {
            RefFault::NotReference => f.write_str("NotReference"),
            RefFault::OutsideUnit => f.write_str("OutsideUnit"),
            RefFault::OutsideSection => f.write_str("OutsideSection"),
            RefFault::NotAnEntry => f.write_str("NotAnEntry"),
            RefFault::InOther => f.write_str("InOther"),
            RefFault::NoSignature => f.write_str("NoSignature"),
            RefFault::BadTypeOffset => f.write_str("BadTypeOffset"),
            RefFault::Supplementary => f.write_str("Supplementary"),
        }
    }
}

impl Error for RefFault {}

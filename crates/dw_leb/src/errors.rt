//! Why reading or writing failed, and where.
ghost use Rattle.std.specs.Prelude.{◌≡◌, ◌<◌, ◌+◌, ◌^◌, Some};
ghost use Rattle.dw_leb.specs.ErrorText.{fault_text, reason_name, section_name};
ghost use Rattle.dw_leb.specs.declared.errors.ReadError.TheVariants as read;

use std::alloc::{AllocError, AllocFailed};
use std::fmt;
use std::io::ErrorKind;
use thiserror::Error;

/// Why a field is refused. Its number is `reason as u8`: the variants count from 1 on.
#[derive(Clone, Copy, Debug, PartialEq, Eq)]
pub enum Reason {
    /// The input ends inside the field, and the unit doesn't end before.
    Truncated = 1,
    /// The unit to which the field belongs ends inside the field.
    PastUnit,
    /// An initial length from 0xfffffff0 to 0xfffffffe (section 7.2.2).
    ReservedLength,
    /// A version that is none of those that are read (section 7.5.1).
    BadVersion,
    /// A unit type other than 1 to 4: those of split units are not read (section 7.5.1).
    BadUnitType,
    /// An address size other than 1 to 8.
    BadAddressSize,
    /// A LEB128 number with no last byte among sixteen (section 7.6).
    LebTooLong,
    /// A LEB128 number whose value doesn't fit `u64`, or a signed one's `i64`.
    LebTooBig,
    /// A unit whose first entry is a null entry.
    NoRoot,
    /// A code that the unit's abbreviation table doesn't declare.
    UnknownCode,
    /// A form that isn't in the form table (section 7.5.6).
    UnknownForm,
    /// An indirect value that names the form indirect or implicit_const (section 7.5.6).
    BadIndirect,
    /// An entry nested deeper than entries may be.
    TooDeep,
    /// An entry after the root entry's end.
    SecondRoot,
    /// An abbreviation offset at or past the end of `.debug_abbrev`.
    AbbrevOffset,
    /// A children flag other than 0 and 1 (section 7.5.3).
    BadChildren,
    /// A pair of attribute name and form of which exactly one is 0 (section 7.5.3).
    HalfPair,
    /// An abbreviation code that was declared before in its table.
    DuplicateCode,
    /// A declaration of more than 1,024 pairs of attribute name and form.
    TooManyPairs,
    /// An initial length with which the unit's end would lie past 2^63 - 1.
    LengthTooBig,
}

impl Reason {
    fn name(self) -> &'static str
        ensures { result.now ≡ reason_name self }
    {
        match self {
            Reason::Truncated => "Truncated",
            Reason::PastUnit => "PastUnit",
            Reason::ReservedLength => "ReservedLength",
            Reason::BadVersion => "BadVersion",
            Reason::BadUnitType => "BadUnitType",
            Reason::BadAddressSize => "BadAddressSize",
            Reason::LebTooLong => "LebTooLong",
            Reason::LebTooBig => "LebTooBig",
            Reason::NoRoot => "NoRoot",
            Reason::UnknownCode => "UnknownCode",
            Reason::UnknownForm => "UnknownForm",
            Reason::BadIndirect => "BadIndirect",
            Reason::TooDeep => "TooDeep",
            Reason::SecondRoot => "SecondRoot",
            Reason::AbbrevOffset => "AbbrevOffset",
            Reason::BadChildren => "BadChildren",
            Reason::HalfPair => "HalfPair",
            Reason::DuplicateCode => "DuplicateCode",
            Reason::TooManyPairs => "TooManyPairs",
            Reason::LengthTooBig => "LengthTooBig",
        }
    }
}

/// The text is the reason's name, as `Truncated`.
impl fmt::Display for Reason {
    ghost output = { λ reason. Some (reason_name reason) };

    fn fmt<W: fmt::Write>(&self, f: &mut fmt::Formatter<W>) -> fmt::Result {
        f.write_str(self.name())
    }
}

/// A broken field among the bytes that were read: where it begins, counted from their first, and why
/// it is refused.
#[derive(Clone, Copy, Debug, PartialEq, Eq)]
pub struct Bad {
    /// Where the field begins.
    pub offset: usize,
    /// Why the field is refused.
    pub reason: Reason,
}

impl Bad {
    /// A field that begins with the bytes.
    pub fn here(reason: Reason) -> Bad
        ensures { result ≡ record { offset = 0; reason = reason } }
    {
        Bad { offset: 0, reason }
    }

    /// The same field, counted from `size` bytes before.
    pub fn behind(self, size: usize) -> Bad
        requires { size + self.offset < 2 ^ 64 }
        ensures { result ≡ record { offset = size + self.offset; reason = self.reason } }
    {
        Bad {
            offset: size + self.offset,
            reason: self.reason,
        }
    }
}

/// The section in which a fault is.
#[derive(Clone, Copy, Debug, PartialEq, Eq)]
pub enum SectionId {
    /// `.debug_info`
    Info,
    /// `.debug_abbrev`
    Abbrev,
}

impl SectionId {
    // As it stands in the text of a fault.
    fn name(self) -> &'static str
        ensures { result.now ≡ section_name self }
    {
        match self {
            SectionId::Info => "info",
            SectionId::Abbrev => "abbrev",
        }
    }
}

/// A broken field.
#[derive(Clone, Copy, Debug, PartialEq, Eq)]
pub struct Fault {
    /// The section of the field.
    pub section: SectionId,
    /// The offset of the field's first byte. In `.debug_info` it counts from the unit's first byte
    /// where one unit is read, and from the section's first byte where a section is read. In
    /// `.debug_abbrev` it counts from the section's first byte.
    pub offset: u64,
    /// Why the field is refused.
    pub reason: Reason,
}

/// The text is one line with no end, as `fault info 0x11 Truncated`: the section, the offset in
/// hexadecimal digits, and the name of the reason.
impl fmt::Display for Fault {
    ghost output = { λ fault. Some (fault_text fault) };

    fn fmt<W: fmt::Write>(&self, f: &mut fmt::Formatter<W>) -> fmt::Result {
        let section = self.section.name();
        let offset = self.offset;
        let reason = self.reason;
        write!(f, "fault {section} 0x{offset:x} {reason}")
    }
}

/// Why a reading gave nothing.
#[derive(Clone, Copy, Debug, PartialEq, Eq, Error)]
pub enum ReadError {
    /// The bytes are refused.
    #[error("{0}")]
    Fault(Fault),
    /// The allocator refused a growth.
    #[error("memory")]
    NoMemory,
    /// The reader failed.
    #[error("read {0}")]
    Io(ErrorKind),
}

impl From<Fault> for ReadError {
    ghost from_gives = { λ fault out. out ≡ read.Fault fault };

    fn from(fault: Fault) -> ReadError {
        ReadError::Fault(fault)
    }
}

impl From<AllocError> for ReadError {
    ghost from_gives = { λ _ out. out ≡ read.NoMemory };

    fn from(_error: AllocError) -> ReadError {
        ReadError::NoMemory
    }
}

/// For calls that hand back what they had no memory for. It is dropped.
impl<T: Drop> From<AllocFailed<T>> for ReadError {
    ghost from_gives = { λ _ out. out ≡ read.NoMemory };

    fn from(_refused: AllocFailed<T>) -> ReadError {
        ReadError::NoMemory
    }
}

/// Why a writing was not finished.
#[derive(Clone, Copy, Debug, PartialEq, Eq, Error)]
pub enum WriteError {
    /// The writer failed, or took no byte of some (`WriteZero`).
    #[error("write {0}")]
    Io(ErrorKind),
}

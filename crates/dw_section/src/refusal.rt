//! Why a call that adds to a section is refused.
ghost use Rattle.std.specs.Prelude.{Some};
ghost use Rattle.dw_section.specs.Texts.{section_refusal_name};

use std::error::Error;
use std::fmt;

/// Why a unit isn't added to a section. Its number is `refusal as u8`: the variants count from 1 on.
#[derive(Clone, Copy, Debug, PartialEq, Eq)]
pub enum SectionRefusal {
    /// The unit's byte order isn't the section's.
    WrongOrder = 1,
    /// The unit is of version 4, and the section's units are of version 5 alone.
    WrongVersion,
    /// The section would pass 2^63 - 1 bytes.
    TooLong,
    /// The allocator refused a growth.
    NoMemory,
}

/// The text is the refusal's name, as `WrongOrder`.
impl fmt::Display for SectionRefusal {
    ghost output = { λ refusal. Some (section_refusal_name refusal) };

    fn fmt<W: fmt::Write>(&self, f: &mut fmt::Formatter<W>) -> fmt::Result {
        match self {
            SectionRefusal::WrongOrder => f.write_str("WrongOrder"),
            SectionRefusal::WrongVersion => f.write_str("WrongVersion"),
            SectionRefusal::TooLong => f.write_str("TooLong"),
            SectionRefusal::NoMemory => f.write_str("NoMemory"),
        }
    }
}

impl Error for SectionRefusal {}

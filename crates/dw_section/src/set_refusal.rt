//! Why a number isn't put in a section.
ghost use Rattle.std.specs.Prelude.{Some};
ghost use Rattle.dw_section.specs.Texts.{set_refusal_name};

use std::error::Error;
use std::fmt;

/// Why a number of a section isn't changed, for the first of these reasons that holds. Its number is
/// `refusal as u8`: the variants count from 1 on.
#[derive(Clone, Copy, Debug, PartialEq, Eq)]
pub enum SetRefusal {
    /// No entry begins there.
    NoEntry = 1,
    /// The entry has no attribute of the name.
    NoAttribute,
    /// The value of the first one is no number of at most 64 bits: it is a block, a text, a mere
    /// presence, or a number of 16 bytes.
    NotANumber,
    /// The value is the constant of the declaration (DW_FORM_implicit_const), which stands in the
    /// abbreviation table.
    InTable,
    /// The bytes of the value don't hold the number.
    DoesNotFit,
    /// With the number a reference would name no entry of the section, or a DW_AT_sibling would not be
    /// where what follows its entry begins.
    BadTarget,
}

/// The text is the refusal's name, as `NoEntry`.
impl fmt::Display for SetRefusal {
    ghost output = { λ refusal. Some (set_refusal_name refusal) };

    fn fmt<W: fmt::Write>(&self, f: &mut fmt::Formatter<W>) -> fmt::Result {
        match self {
            SetRefusal::NoEntry => f.write_str("NoEntry"),
            SetRefusal::NoAttribute => f.write_str("NoAttribute"),
            SetRefusal::NotANumber => f.write_str("NotANumber"),
            SetRefusal::InTable => f.write_str("InTable"),
            SetRefusal::DoesNotFit => f.write_str("DoesNotFit"),
            SetRefusal::BadTarget => f.write_str("BadTarget"),
        }
    }
}

impl Error for SetRefusal {}

//! Why an attribute names no text.
ghost use Rattle.std.specs.Prelude.{Some};
ghost use Rattle.dw_strings.specs.FaultText.{str_fault_name};

use std::error::Error;
use std::fmt;

/// Why the value of an attribute names no text (sections 7.5.5 and 7.26). Its number is `fault as u8`: the variants
/// count from 1 on. Where several hold, the first one is answered of `NotText`, `Supplementary`, `NoBase`,
/// `PastOffsets`, `PastSection` and `NoZero`, in this order.
#[derive(Clone, Copy, Debug, PartialEq, Eq)]
pub enum StrFault {
    /// The value isn't a text: its form is none of a text, or it holds neither bytes nor a number as that
    /// form does.
    NotText = 1,
    /// An offset at or past the end of the section that it is in.
    PastSection,
    /// No zero byte ends the text that begins at the offset.
    NoZero,
    /// An index, in a unit whose root doesn't say where the entries begin.
    NoBase,
    /// An index whose entry doesn't lie, with all its bytes, in `.debug_str_offsets`.
    PastOffsets,
    /// The text is in a supplementary file (section 7.3.6).
    Supplementary,
}

/// The text is the fault's name, as `NotText`.
impl fmt::Display for StrFault {
    ghost output = { λ fault. Some (str_fault_name fault) };

    fn fmt<W: fmt::Write>(&self, f: &mut fmt::Formatter<W>) -> fmt::Result {
        match self {
            StrFault::NotText => f.write_str("NotText"),
            StrFault::PastSection => f.write_str("PastSection"),
            StrFault::NoZero => f.write_str("NoZero"),
            StrFault::NoBase => f.write_str("NoBase"),
            StrFault::PastOffsets => f.write_str("PastOffsets"),
            StrFault::Supplementary => f.write_str("Supplementary"),
        }
    }
}

impl Error for StrFault {}

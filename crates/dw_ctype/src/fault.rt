//! Why no text of a type is given.
ghost use Rattle.std.specs.Prelude.{Some};
ghost use Rattle.dw_ctype.specs.Texts.{type_error_name};

use std::error::Error;
use std::fmt;

/// Why no text of a type is given. Its number is `error as u8`: the variants count from 1 on.
#[derive(Clone, Copy, Debug, PartialEq, Eq)]
pub enum TypeError {
    /// No entry begins at the offset.
    NoEntry = 1,
    /// The text needs more than 1,024 visits of types.
    TypeTooBig,
    /// No memory is left.
    NoMemory,
}

/// The text is the error's name, as `NoEntry`.
impl fmt::Display for TypeError {
    ghost output = { λ error. Some (type_error_name error) };

    fn fmt<W: fmt::Write>(&self, f: &mut fmt::Formatter<W>) -> fmt::Result {
        match self {
            TypeError::NoEntry => f.write_str("NoEntry"),
            TypeError::TypeTooBig => f.write_str("TypeTooBig"),
            TypeError::NoMemory => f.write_str("NoMemory"),
        }
    }
}

impl Error for TypeError {}

//! Why a call that builds a table is refused.
ghost use Rattle.std.specs.Prelude.{◌≡◌};
ghost use Rattle.dw_abbrev.specs.declared.refusal.TableRefusal.TheVariants as table;

use std::alloc::{AllocError, AllocFailed};
use thiserror::Error;

/// Why a call that builds a table is refused. Its number is `refusal as u8`: the variants count
/// from 1 on.
#[derive(Clone, Copy, Debug, PartialEq, Eq, Error)]
pub enum TableRefusal {
    /// The table has a declaration of this code.
    #[error("DuplicateCode")]
    DuplicateCode = 1,
    /// The declaration has more than 1,024 pairs.
    #[error("TooManyPairs")]
    TooManyPairs,
    /// A number can't be written in so many bytes: a width is 1 to 16.
    #[error("BadWidth")]
    BadWidth,
    /// The allocator refused a growth.
    #[error("NoMemory")]
    NoMemory,
    /// A declaration's code is 0, which ends a table.
    #[error("ZeroCode")]
    ZeroCode,
    /// The name or the form of a pair is 0; both together end the pairs.
    #[error("HalfPair")]
    HalfPair,
    /// A pair of the form `DW_FORM_implicit_const` without a constant, or one of another form with
    /// a constant.
    #[error("WrongConstant")]
    WrongConstant,
}

impl From<AllocError> for TableRefusal {
    ghost from_gives = { λ _ out. out ≡ table.NoMemory };

    fn from(_error: AllocError) -> TableRefusal {
        TableRefusal::NoMemory
    }
}

/// For calls that hand back what they had no memory for. It is dropped.
impl<T: Drop> From<AllocFailed<T>> for TableRefusal {
    ghost from_gives = { λ _ out. out ≡ table.NoMemory };

    fn from(_refused: AllocFailed<T>) -> TableRefusal {
        TableRefusal::NoMemory
    }
}

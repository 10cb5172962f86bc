//! Why a call that builds a unit is refused.
ghost use Rattle.std.specs.Prelude.{◌≡◌};
ghost use Rattle.dw_unit.specs.declared.refusal.Refusal.TheVariants as refusal;

use std::alloc::AllocError;
use thiserror::Error;

/// Why a call that builds a unit is refused. Its number is `refusal as u8`: the variants count from
/// 1 on.
#[derive(Clone, Copy, Debug, PartialEq, Eq, Error)]
pub enum Refusal {
    /// The table has no declaration of this code.
    #[error("UnknownCode")]
    UnknownCode = 1,
    /// The values aren't those that the declaration asks for, in their number, their shapes, the
    /// form that an indirect one names, their sizes or their constants; or a text has a zero byte.
    #[error("WrongValues")]
    WrongValues,
    /// No entry is open.
    #[error("NotOpen")]
    NotOpen,
    /// An entry is still open.
    #[error("Open")]
    Open,
    /// The entry would have more than 4,095 others around it.
    #[error("TooDeep")]
    TooDeep,
    /// The unit's length would reach 0xfffffff0 in the 32-bit format, or the unit would pass
    /// 2^63 - 1 bytes.
    #[error("TooLong")]
    TooLong,
    /// The unit has its root.
    #[error("SecondRoot")]
    SecondRoot,
    /// The unit has no root yet.
    #[error("NoRoot")]
    NoRoot,
    /// A null can't be written in so many bytes: a width is 1 to 16.
    #[error("BadWidth")]
    BadWidth,
    /// The allocator refused a growth.
    #[error("NoMemory")]
    NoMemory,
}

impl From<AllocError> for Refusal {
    ghost from_gives = { λ _ out. out ≡ refusal.NoMemory };

    fn from(_error: AllocError) -> Refusal {
        Refusal::NoMemory
    }
}

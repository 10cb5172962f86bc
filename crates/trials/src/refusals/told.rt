//! What a scenario tells, in lines.
use rothelduf::{Unit, Watched, write_unit};
use std::alloc::{AllocError, Global};

/// So many bytes are made room for before a scenario begins, so that no line of it asks for more.
pub(crate) const ROOM: usize = 16_384;

/// What a call answered that took what it was given.
pub(crate) fn taken(told: &mut String, call: &str) -> Result<(), AllocError> {
    write!(told, "{call} ok\n")
}

/// That a call answered that there is no memory. Lines that tell of this end so.
pub(crate) fn refused(told: &mut String, call: &str) -> Result<(), AllocError> {
    write!(told, "{call} NoMemory\n")
}

/// That a call answered otherwise than it has to, as that there is no memory where it was refused once.
pub(crate) fn failed(told: &mut String, call: &str) -> Result<(), AllocError> {
    write!(told, "{call} FAILED\n")
}

/// What something was not the same behind a refused call.
pub(crate) fn changed(told: &mut String, what: &str) -> Result<(), AllocError> {
    write!(told, "{what} CHANGED\n")
}

/// Bytes in hexadecimal, behind a word.
pub(crate) fn bytes(told: &mut String, word: &str, bytes: &[u8]) -> Result<(), AllocError> {
    told.push_str(word)?;
    for byte in bytes {
        write!(told, " {byte:02x}")?;
    }
    told.push_str("\n")
}

/// The bytes of a unit.
pub(crate) fn unit(alloc: Global, told: &mut String, unit: &Unit) -> Result<(), AllocError> {
    let mut writer = Watched::new(Vec::with_capacity(alloc, ROOM)?);
    if write_unit(unit, &mut writer).is_err() {
        return told.push_str("unit FAILED\n");
    }
    bytes(told, "unit", writer.into_inner().as_slice())
}

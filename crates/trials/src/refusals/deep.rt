//! A unit of as many levels as there may be.
use crate::refusals::told;
use rothelduf::{Order, ReadError, Tables, Unit, read_unit};
use std::alloc::{AllocError, Global};

/// Code 1, DW_TAG_compile_unit, children, no attributes.
const BARE: [u8; 6] = [0x01, 0x11, 0x01, 0x00, 0x00, 0x00];

/// Of a unit of 8,204 bytes, with a code and a null for each of 4,096 levels behind it.
const HEADER: [u8; 12] = [
    0x08, 0x20, 0x00, 0x00, 0x05, 0x00, 0x01, 0x08, 0x00, 0x00, 0x00, 0x00,
];

const LEVELS: usize = 4096;

/// What is kept of open entries grows with the levels, and each of its growths may be refused.
pub(crate) fn tell(alloc: Global, text: &mut String) -> Result<(), ReadError> {
    let bytes = nested(alloc)?;
    let mut answer = read(alloc, bytes.as_slice());
    if let Err(ReadError::NoMemory) = answer {
        told::refused(text, "read_unit")?;
        answer = read(alloc, bytes.as_slice());
    }
    match answer {
        Ok(unit) => Ok(tell_unit(&unit, text)?),
        Err(_) => Ok(told::failed(text, "read_unit")?),
    }
}

fn nested(alloc: Global) -> Result<Vec<u8>, AllocError> {
    let mut bytes = Vec::with_capacity(alloc, 2 * LEVELS + HEADER.len())?;
    bytes.extend_from_slice(&HEADER)?;
    for byte in [0x01, 0x00] {
        for _ in 0..LEVELS {
            bytes.push(byte)?;
        }
    }
    Ok(bytes)
}

fn read(alloc: Global, bytes: &[u8]) -> Result<Unit, ReadError> {
    let mut tables = Tables::new(alloc, &BARE);
    let (unit, _size) = read_unit(alloc, Order::Little, &mut tables, bytes)?;
    Ok(unit)
}

/// How deep its last entry is, and where it begins.
fn tell_unit(unit: &Unit, text: &mut String) -> Result<(), AllocError> {
    match unit.entries().last() {
        Some(entry) => write!(
            text,
            "depth {} at {} of {}\n",
            entry.depth(),
            entry.offset(),
            unit.size()
        ),
        None => told::failed(text, "read_unit"),
    }
}

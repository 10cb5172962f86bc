//! Units that are read.
use crate::refusals::samples::{ROOT_AND_CHILD, TYPED};
use crate::refusals::told;
use rothelduf::{Order, ReadError, Tables, Unit, Watched, read_unit, read_unit_from};
use std::alloc::Global;

/// The unit of bytes at hand, asked for again over the same tables.
pub(crate) fn tell_unit(alloc: Global, text: &mut String) -> Result<(), ReadError> {
    let mut tables = Tables::new(alloc, &TYPED);
    let mut answer = at_hand(alloc, &mut tables);
    if let Err(ReadError::NoMemory) = answer {
        told::refused(text, "read_unit")?;
        answer = at_hand(alloc, &mut tables);
    }
    match answer {
        Ok(unit) => Ok(told::unit(alloc, text, &unit)?),
        Err(_) => Ok(told::failed(text, "read_unit")?),
    }
}

fn at_hand(alloc: Global, tables: &mut Tables<'_>) -> Result<Unit, ReadError> {
    let (unit, _size) = read_unit(alloc, Order::Little, tables, &ROOT_AND_CHILD)?;
    Ok(unit)
}

/// The unit of a reader, which is another one when it is asked for again: what the first one gave is gone.
pub(crate) fn tell_unit_from(alloc: Global, text: &mut String) -> Result<(), ReadError> {
    let mut tables = Tables::new(alloc, &TYPED);
    let mut answer = of_reader(alloc, &mut tables);
    if let Err(ReadError::NoMemory) = answer {
        told::refused(text, "read_unit_from")?;
        answer = of_reader(alloc, &mut tables);
    }
    match answer {
        Ok(unit) => Ok(told::unit(alloc, text, &unit)?),
        Err(_) => Ok(told::failed(text, "read_unit_from")?),
    }
}

fn of_reader(alloc: Global, tables: &mut Tables<'_>) -> Result<Unit, ReadError> {
    let mut reader = Watched::new(ROOT_AND_CHILD.as_slice());
    read_unit_from(alloc, Order::Little, tables, &mut reader)
}

//! Values that are read one by one.
use crate::refusals::samples::header;
use crate::refusals::told;
use dw_form::{ValueError, read_value};
use rothelduf::ReadError;
use rothelduf::constants::form::DW_FORM_STRING;
use std::alloc::Global;

/// A text, with the byte that ends it.
const TEXT: &[u8] = b"generated\0";

/// Twenty texts, which go to one pool.
pub(crate) fn tell(alloc: Global, text: &mut String) -> Result<(), ReadError> {
    let mut pool = Vec::new(alloc);
    for _ in 0..20 {
        read(alloc, &mut pool, text)?;
    }
    Ok(told::bytes(text, "pool", pool.as_slice())?)
}

fn read(alloc: Global, pool: &mut Vec<u8>, text: &mut String) -> Result<(), ReadError> {
    let context = header()?.context();
    let before = pool.len();
    let mut answer = read_value(alloc, context, DW_FORM_STRING, None, TEXT, 10, pool);
    if let Err(ValueError::NoMemory) = answer {
        told::refused(text, "read_value")?;
        if pool.len() != before {
            told::changed(text, "pool")?;
        }
        answer = read_value(alloc, context, DW_FORM_STRING, None, TEXT, 10, pool);
    }
    match answer {
        Ok((_, size)) => Ok(write!(text, "read_value {size}\n")?),
        Err(error) => Ok(write!(text, "read_value {error}\n")?),
    }
}

//! A number put in the place of that of an attribute: `put NUMBER as NAME of OFFSET`, for the first attribute of this
//! name, of the entry that begins there. The answer are the unit's bytes then, or `not taken`.
ghost use Rattle.std.specs.Prelude.{◌≡◌, true};
ghost use Rattle.dw_tree.specs.Put.{Takes};
ghost use Rattle.dw_unit.specs.Unit.{tree_of};

use crate::units::reading::written;
use crate::units::unit::number_of;
use case_file::append_hexadecimal;
use dw_form::renumbered;
use dw_unit::Unit;
use std::alloc::{AllocError, Global};

/// Whether the attribute takes the number.
fn takes(unit: &Unit, offset: u64, name: u64, number: i128) -> bool
    ensures { result ≡ true → Takes (record { offset = offset; name = name; number = number }) (tree_of unit.now) }
{
    let entry = match unit.entry_at(offset) {
        Some(entry) => entry,
        None => return false,
    };
    match entry.attr(name) {
        Some(attr) => {
            let context = unit.header().context();
            renumbered(context, attr.form, number, &attr.attr.value).is_some()
        }
        None => false,
    }
}

/// The offset, the name and the number that the words spell.
fn put_of((offset, name, number): (&str, &str, &str)) -> Option<(u64, u64, i128)> {
    Some((number_of(offset)?, number_of(name)?, number.parse().ok()?))
}

pub fn append_put(
    alloc: Global,
    unit: &mut Unit,
    words: (&str, &str, &str),
    answer: &mut String,
) -> Result<(), AllocError> {
    let Some((offset, name, number)) = put_of(words) else {
        return answer.push_str("no such case");
    };
    if !takes(unit, offset, name, number) {
        return answer.push_str("not taken");
    }
    unit.put_number(offset, name, number);
    append_unit_bytes(alloc, unit, answer)
}

/// Appends the bytes of a unit.
pub fn append_unit_bytes(
    alloc: Global,
    unit: &Unit,
    answer: &mut String,
) -> Result<(), AllocError> {
    match written(alloc, unit) {
        Ok(bytes) => append_hexadecimal(bytes.as_slice(), answer),
        Err(error) => write!(answer, "{error}"),
    }
}

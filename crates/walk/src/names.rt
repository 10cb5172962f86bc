//! The entries of a whole section that have a name and a type, as declarations in C.

use crate::WalkError;
use rothelduf::constants::attribute::{DW_AT_NAME, DW_AT_TYPE};
use rothelduf::{EntryId, Order, Section, Strings, Watched, read_section, type_text};
use std::rt::Files;
use std::{fs, str};

/// Reads the section of the files `linked_..`, and prints its names.
pub(crate) fn print_linked(rt: &(impl AllocGlobal + Files + Print)) -> Result<(), WalkError> {
    let info = fs::read(rt, "linked_info")?;
    let abbrev = fs::read(rt, "linked_abbrev")?;
    let mut reader = Watched::new(info.as_slice());
    let section = read_section(rt.alloc(), Order::Little, abbrev.as_slice(), &mut reader)?;
    let str = fs::read(rt, "linked_str")?;
    let line_str = fs::read(rt, "linked_line_str")?;
    let str_offsets = fs::read(rt, "linked_str_offsets")?;
    let strings = Strings {
        str: str.as_slice(),
        line_str: line_str.as_slice(),
        str_offsets: str_offsets.as_slice(),
    };
    print_names(rt, &section, &strings)
}

/// Prints each entry that has a name and a type: its offset in the section, and its declaration in C.
fn print_names<'a>(
    rt: &(impl AllocGlobal + Print),
    section: &'a Section,
    strings: &Strings<'a>,
) -> Result<(), WalkError> {
    let mut text = Vec::new(rt.alloc());
    for item in 0..section.items().len() {
        let (Some(unit), Some(start)) = (section.unit(item), section.start(item)) else {
            continue;
        };
        for entry in unit.entries() {
            let (Some(name), Some(_)) = (entry.attr(DW_AT_NAME), entry.attr(DW_AT_TYPE)) else {
                continue;
            };
            let id = EntryId {
                item,
                offset: entry.offset(),
            };
            let name = strings.text(section, id, &name).unwrap_or(b"?");
            text.clear();
            type_text(rt.alloc(), section, strings, id, name, &mut text)?;
            let declared = str::from_utf8(text.as_slice()).unwrap_or("?");
            println!(rt; "{:#x} {declared}", start.saturating_add(entry.offset()))?;
        }
    }
    Ok(())
}

//! Writing a section.
ghost use Rattle.std.specs.Prelude.{◌≡◌, ℕ, List, map, None};
ghost use Rattle.dw_leb.specs.Watch.{inner_of, fault_of, writer_fault, Wrote};
ghost use Rattle.dw_section.specs.Item.{item_bytes};
ghost use Rattle.dw_section.specs.ItemView.{item_of};
ghost use Rattle.dw_section.specs.Section.{HoldsTables, SectionReadAs, SectionFits, items_bytes, section_bytes};

use crate::item::Item;
use crate::section::Section;
use dw_leb::{Watched, WriteError, write_all};
use dw_unit::write_unit;
use std::io::Write;

/// Writes the section: exactly its bytes, item by item, each number of a unit in the width that it holds
/// (section 7.5). It takes no memory. After an error a beginning of them was written.
///
/// What is written is read back as these items over an abbreviation section that holds the table of each unit
/// at its header's offset: the bytes are a section of these items, of no others, and have no fault.
///
/// Errors: `Io` with the kind of the writer's failure, `WriteZero` where it took no byte of some.
pub fn write_section<W: Write>(section: &Section, writer: &mut Watched<W>) -> Result<(), WriteError>
    requires { fault_of writer.old ≡ None }
    ensures written { Wrote (W.contents (inner_of writer.old)) (W.contents (inner_of writer.new))
        (section_bytes section.now) result }
    ensures fault { fault_of writer.new ≡ writer_fault result }
    ensures fits { SectionFits section.now }
    ensures read_back { (abbreviations : List ℕ) → HoldsTables abbreviations section.now.items
        → SectionReadAs section.now.versions section.now.order abbreviations section.now.items
        (section_bytes section.now) }
{
    write_items(section.items.as_slice(), writer)
}

/// Writes items, one after the other.
fn write_items<W: Write>(items: &[Item], writer: &mut Watched<W>) -> Result<(), WriteError>
    requires { fault_of writer.old ≡ None }
    ensures written { Wrote (W.contents (inner_of writer.old)) (W.contents (inner_of writer.new))
        (items_bytes (map item_of items.now)) result }
    ensures fault { fault_of writer.new ≡ writer_fault result }
{
    let mut left = items;
    while let Some((item, others)) = left.split_first() {
        write_item(item, writer)?;
        left = others;
    }
    Ok(())
}

/// Writes an item.
fn write_item<W: Write>(item: &Item, writer: &mut Watched<W>) -> Result<(), WriteError>
    requires { fault_of writer.old ≡ None }
    ensures written { Wrote (W.contents (inner_of writer.old)) (W.contents (inner_of writer.new))
        (item_bytes (item_of item.now))
        result }
    ensures fault { fault_of writer.new ≡ writer_fault result }
{
    match item {
        Item::Known(unit) => write_unit(unit, writer),
        Item::Other(bytes) => write_all(writer, bytes.as_slice()),
    }
}

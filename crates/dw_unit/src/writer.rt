//! Writing a unit.
ghost use Rattle.std.specs.Prelude.{◌≡◌, ◌++◌, ℕ, List, length, None};
ghost use Rattle.dw_leb.specs.Watch.{inner_of, fault_of, writer_fault, Wrote};
ghost use Rattle.dw_abbrev.specs.Table.{TableAt};
ghost use Rattle.dw_tree.specs.Tree.{nulls, AreNulls};
ghost use Rattle.dw_unit.specs.Unit.{bytes_of, UnitFits, ReadAs, ReadAsUnder};
ghost use Rattle.dw_header.specs.declared.versions.Versions.TheVariants.{FourAndFive};

use crate::unit::Unit;
use dw_header::write_header;
use dw_leb::{Watched, WriteError};
use dw_tree::write_null;
use std::io::Write;

/// Writes the unit: exactly its one spelling, each number in the width that it holds (section 7.5). It
/// takes no memory. After an error a beginning of the unit was written.
///
/// What is written is read back as this unit, whatever follows it, over an abbreviation section that holds
/// its table at the header's offset: the unit stands there, no other one does, and there is no fault. So it is
/// with `FourAndFive` for each unit, and with `Five` for a unit that isn't of version 4.
///
/// Errors: `Io` with the kind of the writer's failure, `WriteZero` where it took no byte of some.
pub fn write_unit<W: Write>(unit: &Unit, writer: &mut Watched<W>) -> Result<(), WriteError>
    requires { fault_of writer.old ≡ None }
    ensures written { Wrote (W.contents (inner_of writer.old)) (W.contents (inner_of writer.new))
        (bytes_of unit.now) result }
    ensures fault { fault_of writer.new ≡ writer_fault result }
    ensures fits { UnitFits unit.now }
    ensures read_back { (abbreviations rest : List ℕ)
        → TableAt abbreviations unit.now.header.abbrev_offset unit.now.table
        → ReadAs abbreviations unit.now.header.order (bytes_of unit.now ++ rest) unit.now (length (bytes_of unit.now)) }
    ensures read_back_as { (abbreviations rest : List ℕ)
        → TableAt abbreviations unit.now.header.abbrev_offset unit.now.table
        → ReadAsUnder FourAndFive abbreviations unit.now.header.order (bytes_of unit.now ++ rest) unit.now
        (length (bytes_of unit.now)) }
{
    let header = unit.header;
    let behind = unit.size - header.format().length_size() as u64;
    write_header(header, behind, writer)?;
    unit.tree.write(writer)?;
    write_nulls(unit.padding.as_slice(), writer)
}

/// Writes nulls of these widths.
fn write_nulls<W: Write>(widths: &[u8], writer: &mut Watched<W>) -> Result<(), WriteError>
    requires nulls { AreNulls widths.now }
    requires clear { fault_of writer.old ≡ None }
    ensures written { Wrote (W.contents (inner_of writer.old)) (W.contents (inner_of writer.new))
        (nulls widths.now) result }
    ensures fault { fault_of writer.new ≡ writer_fault result }
{
    let mut left = widths;
    while let Some((width, others)) = left.split_first() {
        write_null(*width, writer)?;
        left = others;
    }
    Ok(())
}

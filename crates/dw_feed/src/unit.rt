//! Reading a unit whose bytes are at hand.
ghost use Rattle.std.specs.Prelude.{◌≡◌, ◌≤◌, length, ℕ, IfOk, IfErr};
ghost use Rattle.dw_abbrev.specs.TableErrors.{refused_memory};
ghost use Rattle.dw_header.specs.Laws.{HasHeaderBytes};
ghost use Rattle.dw_unit.specs.Unit.{WholeUnit, UnitAt, UnitAtUnder};
ghost use Rattle.dw_unit.specs.UnitView.{IsUnitError, IsUnitErrorUnder, FaultWithin, NamesTable, NamesTableUnder};
ghost use Rattle.dw_feed.specs.BodyFeed.{started, SaysDone};
ghost use Rattle.dw_feed.specs.FedUnit.{IsFedError};

use crate::step::Taken;
use crate::unit_in_parts::UnitInParts;
use dw_abbrev::{Table, Tables};
use dw_header::{Header, Versions, read_header_as};
use dw_leb::{Order, ReadError};
use dw_unit::Unit;
use std::alloc::Global;
use std::rc::Rc;

/// The unit of version 5 at the front of `b`, and the count of its bytes: exactly the length field and the
/// unit_length that it holds (section 7.5.1). What stands behind them isn't looked at. Where a unit stands
/// at the front, it is answered, or `NoMemory`.
///
/// A fault is the first one, in this order: the fields of the header; the abbreviation table (its
/// section is `.debug_abbrev`, its offset counts from that section's first byte); the entries and
/// the padding. In `.debug_info` the offset is that of the first byte of the broken field, counted
/// from the first byte of `b`, and at most the count of its bytes. The unit_length is never compared
/// with that count. `NoMemory` is answered where a growth was refused, and only where a header is there
/// and the offset of its table lies in `.debug_abbrev`. Never `Io`.
pub fn read_unit(
    alloc: Global,
    order: Order,
    tables: &mut Tables<'_>,
    b: &[u8],
) -> Result<(Unit, usize), ReadError>
    ensures found { IfOk result (λ x. UnitAt tables.old order b.now x.0 x.1) }
    ensures only { (u : WholeUnit) (size : ℕ) → UnitAt tables.old order b.now u size
        → IfOk result (λ x. (x.0 ≡ u) × (x.1 ≡ size)) × IfErr result (λ e. e ≡ refused_memory) }
    ensures broken { IfErr result (IsUnitError tables.old order b.now) }
    ensures near { IfErr result (FaultWithin (length b.now)) }
    ensures memory { IfErr result (λ e. e ≡ refused_memory → NamesTable tables.old order b.now) }
    ensures tables { tables.new ≡ tables.old }
    ensures room { IfOk result (λ x. x.1 ≤ length b.now) }
{
    read_unit_as(alloc, order, Versions::Five, tables, b)
}

/// The unit of one of these versions at the front of `b`, and the count of its bytes, as `read_unit` gives
/// them for version 5. A unit of version 4 has the kind `Four`, and its values have the forms of version 5
/// (section 7.5.6), which are those of version 4 and more. Where a unit of one of these versions stands at
/// the front, it is answered, or `NoMemory`.
///
/// A fault is the first one, in the order of `read_unit`: the fields of the header, which are judged as
/// `read_header_as` of `dw_header` says; the abbreviation table; the entries and the padding. `NoMemory` is
/// answered where a growth was refused, and only where a header is there and the offset of its table lies
/// in `.debug_abbrev`. Never `Io`.
pub fn read_unit_as(
    alloc: Global,
    order: Order,
    versions: Versions,
    tables: &mut Tables<'_>,
    b: &[u8],
) -> Result<(Unit, usize), ReadError>
    ensures found { IfOk result (λ x. UnitAtUnder versions tables.old order b.now x.0 x.1) }
    ensures only { (u : WholeUnit) (size : ℕ) → UnitAtUnder versions tables.old order b.now u size
        → IfOk result (λ x. (x.0 ≡ u) × (x.1 ≡ size)) × IfErr result (λ e. e ≡ refused_memory) }
    ensures broken { IfErr result (IsUnitErrorUnder versions tables.old order b.now) }
    ensures near { IfErr result (FaultWithin (length b.now)) }
    ensures memory { IfErr result (λ e. e ≡ refused_memory → NamesTableUnder versions tables.old order b.now) }
    ensures tables { tables.new ≡ tables.old }
    ensures room { IfOk result (λ x. x.1 ≤ length b.now) }
{
    let (header, unit_length) = read_header_as(order, versions, b)?;
    let table = tables.get(header.abbrev_offset())?;
    let at = header.size() as usize;
    match unit_behind(alloc, header, unit_length, table, &b[at..]) {
        Ok((unit, more)) => Ok((unit, at + more)),
        Err(e) => Err(e),
    }
}

/// The unit of a header whose other bytes are at the front of `b`, and the count of these.
fn unit_behind(
    alloc: Global,
    header: Header,
    unit_length: u64,
    table: Rc<Table>,
    b: &[u8],
) -> Result<(Unit, usize), ReadError>
    requires { HasHeaderBytes header unit_length }
    ensures found { IfOk result (λ x. SaysDone (started header unit_length table.value) b.now x.1 x.0) }
    ensures broken { IfErr result (IsFedError (started header unit_length table.value) b.now) }
{
    let mut coming = UnitInParts::new(alloc, header, unit_length, table);
    match coming.take(b) {
        Taken::Whole(over) => Ok((coming.finish(), b.len() - over)),
        Taken::More => Err(ReadError::Fault(coming.cut_off())),
        Taken::Refused(_, fault) => Err(ReadError::Fault(fault)),
        Taken::NoMemory => Err(ReadError::NoMemory),
    }
}

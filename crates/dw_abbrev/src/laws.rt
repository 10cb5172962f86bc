//! Laws of the definitions of tables. They call nothing.
ghost use Rattle.dw_leb.specs.Laws.{NoneBegins, OneAnswer};
ghost use Rattle.dw_abbrev.specs.Table.{table};
ghost use Rattle.dw_abbrev.specs.Laws.{OneTable, WrittenStands};

/// One spelling: no table's spelling begins another's, so each table with its widths has one.
pub fn one_spelling()
    ensures { NoneBegins table }
{}

/// One outcome: bytes have exactly one of a table at the front and a break; and a break stands at
/// one place for one reason.
pub fn one_outcome()
    ensures { OneAnswer table }
{}

/// One answer at a place: a section and an offset have exactly one of a table that stands there and
/// a break.
pub fn one_table()
    ensures { OneTable }
{}

/// A table that has a spelling stands where it is written, whatever stands before and behind it.
pub fn written_stands()
    ensures { WrittenStands }
{}

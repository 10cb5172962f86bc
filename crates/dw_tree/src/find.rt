//! The entry at an offset.
ghost use Rattle.std.specs.Prelude.{◌≡◌, ◌<◌, ◌≤◌, true, false, nat_lt, length, slice_index_or, IfSome, IfNone};
ghost use Rattle.std.specs.List.Sorted.{IsPartitionPoint};
ghost use Rattle.dw_tree.specs.declared.row.Row.{Row};
ghost use Rattle.dw_tree.specs.Flat.{OffsetsGrow, NoneBegins};
ghost use Rattle.dw_tree.specs.Lent.{entries_of, find_at};

use crate::entry::EntryRef;
use crate::row::{Row, RowKind};
use crate::tree::EntryTree;

impl EntryTree {
    /// The entry that begins exactly at this offset, counted from the unit's first byte, that of its
    /// initial length; None where a null begins there, or nothing (section 7.5.2). No memory is taken.
    pub fn entry_at(&self, offset: u64) -> Option<EntryRef<'_>>
        ensures { result ≡ find_at offset (entries_of self.now) }
    {
        let at = row_at(&self.rows, offset)?;
        if let RowKind::Null = self.rows[at].kind {
            return None;
        }
        Some(EntryRef { tree: self, at })
    }
}

/// The row that begins exactly at an offset, found by halving.
pub(crate) fn row_at(rows: &[Row], offset: u64) -> Option<usize>
    requires { OffsetsGrow rows.now }
    ensures inside { IfSome result (λ i. i < length rows.now) }
    ensures found { IfSome result (λ i. (d : Row) → (slice_index_or rows.now i d).offset ≡ offset) }
    ensures none { IfNone result (NoneBegins offset rows.now) }
{
    let at = rows_before(rows, offset);
    if at < rows.len() && rows[at].offset == offset {
        Some(at)
    } else {
        None
    }
}

/// How many rows begin before an offset. Each step of the search only chooses between two numbers, which takes
/// no branch.
fn rows_before(rows: &[Row], offset: u64) -> usize
    requires { OffsetsGrow rows.now }
    ensures bound { result ≤ length rows.now }
    ensures point { IsPartitionPoint (λ r. nat_lt r.offset offset ≡ true)
        (λ r. nat_lt r.offset offset ≡ false) rows.now result }
{
    rows.partition_point(
        |row: &Row| -> bool
            ensures { result ≡ nat_lt row.now.offset offset }
        { row.offset < offset },
    )
}

//! All entries of a tree.
ghost use Rattle.std.specs.Prelude.{◌≡◌, ℕ, ◌≤◌, ◌<◌, [], length, slice_index_or};
ghost use Rattle.std.specs.Iterator.{YieldsFirst, item_count};
ghost use Rattle.dw_tree.specs.declared.row.Row.{Row};
ghost use Rattle.dw_tree.specs.Flat.{IsEntry, IsNull};
ghost use Rattle.dw_tree.specs.Lent.{entries_of, from_offset};

use crate::entry::EntryRef;
use crate::find::row_at;
use crate::row::{Row, RowKind};
use crate::tree::EntryTree;
use std::marker::Model;

/// The entries of a tree that are left, each before those below it.
#[derive(Debug, Drop)]
pub struct Entries<'a> {
    tree: &'a EntryTree,
    /// The row from which on the next one is looked for.
    at: usize,
}

impl<'a> Model for Entries<'a> {
    ghost use Rattle.std.specs.Prelude.{◌≤◌, List, length};
    ghost use Rattle.std.specs.Coded.{coded_list};
    ghost use Rattle.dw_tree.specs.Row.{rows_of};
    ghost use Rattle.dw_tree.specs.Lent.{EntryAt, entry_at_code, entries_from};

    ghost Value = { List EntryAt };

    ghost coded = { coded_list entry_at_code };

    ghost view = { λ c. entries_from c.tree.now c.at };

    ghost invariant = { λ c. c.at ≤ length (rows_of c.tree.now.root) };
}

impl EntryTree {
    /// All entries, each before those below it, as they are written (section 7.5.2).
    pub fn entries(&self) -> Entries<'_>
        ensures { result ≡ entries_of self.now }
    {
        Entries { tree: self, at: 0 }
    }

    /// The entries from the one on that begins exactly at this offset, counted from the unit's first byte, each before
    /// those below it; none where no entry begins there (section 7.5.2). So a caller that keeps an entry's offset goes
    /// on from it. No memory is taken.
    pub fn entries_from(&self, offset: u64) -> Entries<'_>
        ensures { result ≡ from_offset offset (entries_of self.now) }
    {
        let Some(at) = row_at(&self.rows, offset) else {
            return self.no_entries();
        };
        match self.rows[at].kind {
            RowKind::Null => self.no_entries(),
            _ => Entries { tree: self, at },
        }
    }

    fn no_entries(&self) -> Entries<'_>
        ensures { result ≡ [] }
    {
        Entries {
            tree: self,
            at: self.rows.len(),
        }
    }
}

/// The first row at or after one that is an entry's, or the end.
fn next_entry(rows: &[Row], from: usize) -> usize
    requires { from ≤ length rows.now }
    ensures inside { result ≤ length rows.now }
    ensures later { from ≤ result }
    ensures nulls { (i : ℕ) (d : Row) → from ≤ i → i < result → IsNull (slice_index_or rows.now i d).kind }
    ensures entry { (d : Row) → result < length rows.now → IsEntry (slice_index_or rows.now result d).kind }
{
    let mut at = from;
    while at < rows.len() {
        match rows[at].kind {
            RowKind::Null => at += 1,
            _ => break,
        }
    }
    at
}

impl<'a> Iterator for Entries<'a> {
    type Item = EntryRef<'a>;

    ghost next_gives = { YieldsFirst (λ s. s) };

    ghost remaining = { item_count (λ s. s) };

    fn next(&mut self) -> Option<EntryRef<'a>> {
        let tree = self.tree;
        let at = next_entry(&tree.rows, self.at);
        if at == tree.rows.len() {
            self.at = at;
            return None;
        }
        self.at = at + 1;
        Some(EntryRef { tree, at })
    }
}

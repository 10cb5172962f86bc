//! The children of an entry, from sibling to sibling.
ghost use Rattle.std.specs.Iterator.{YieldsFirst, item_count};

use crate::entry::EntryRef;
use crate::row::RowKind;
use crate::tree::EntryTree;
use std::marker::Model;

/// The entries of a chain that are left: each stands on its own level (section 2.3).
#[derive(Debug, Drop)]
pub struct Children<'a> {
    pub(crate) tree: &'a EntryTree,
    /// The row of the next one.
    pub(crate) at: usize,
}

impl<'a> Model for Children<'a> {
    ghost use Rattle.std.specs.Prelude.{◌≤◌, List, length};
    ghost use Rattle.std.specs.Coded.{coded_list};
    ghost use Rattle.dw_tree.specs.Row.{rows_of};
    ghost use Rattle.dw_tree.specs.Lent.{EntryAt, entry_at_code, chain_from};

    ghost Value = { List EntryAt };

    ghost coded = { coded_list entry_at_code };

    ghost view = { λ c. chain_from c.tree.now c.at };

    ghost invariant = { λ c. c.at ≤ length (rows_of c.tree.now.root) };
}

impl<'a> Iterator for Children<'a> {
    type Item = EntryRef<'a>;

    ghost next_gives = { YieldsFirst (λ s. s) };

    ghost remaining = { item_count (λ s. s) };

    fn next(&mut self) -> Option<EntryRef<'a>> {
        let tree = self.tree;
        if self.at == tree.rows.len() {
            return None;
        }
        let row = tree.rows[self.at];
        if let RowKind::Null = row.kind {
            return None;
        }
        let entry = EntryRef { tree, at: self.at };
        self.at = row.end;
        Some(entry)
    }
}

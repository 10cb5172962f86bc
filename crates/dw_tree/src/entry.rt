//! Entries as they are lent (sections 2.1, 2.3 and 7.5.2).
ghost use Rattle.std.specs.Prelude.{◌≡◌, option_map};
ghost use Rattle.dw_leb.specs.View.{uleb_of};
ghost use Rattle.dw_abbrev.specs.Table.{declared};
ghost use Rattle.dw_tree.specs.Lent.{attr_of, attributes_of, first_named, code_of, tag_of, children_of, end_offset_of, root_of};

use crate::attrs::{AttrRef, Attrs};
use crate::children::Children;
use crate::row::RowKind;
use crate::tree::EntryTree;
use crate::write::behind;
use dw_leb::Uleb;
use std::marker::Model;

/// A debugging information entry of a tree (section 2.1): its tag, its attributes (section 2.2), and
/// where it stands (section 2.3). It borrows the tree.
#[derive(Clone, Debug, Drop)]
pub struct EntryRef<'a> {
    pub(crate) tree: &'a EntryTree,
    /// Its row.
    pub(crate) at: usize,
}

impl<'a> Model for EntryRef<'a> {
    ghost use Rattle.dw_tree.specs.Row.{rows_of, head_of};
    ghost use Rattle.dw_tree.specs.Lent.{EntryAt, entry_at_code, entry_at_row, StandsAt, chain_at};

    ghost Value = { EntryAt };

    ghost coded = { entry_at_code };

    ghost view = { λ e. entry_at_row e.tree.now e.at };

    ghost invariant = { λ e. StandsAt (rows_of e.tree.now.root) e.at
        (head_of (chain_at (rows_of e.tree.now.root) e.at)) };
}

impl EntryTree {
    /// The root entry (section 7.5.2).
    pub fn root(&self) -> EntryRef<'_>
        ensures { result ≡ root_of self.now }
    {
        EntryRef { tree: self, at: 0 }
    }
}

impl<'a> EntryRef<'a> {
    /// Where the entry begins, at its abbreviation code, counted from the unit's first byte, that
    /// of its initial length.
    pub fn offset(&self) -> u64
        ensures { result ≡ self.now.offset }
    {
        let tree = self.tree;
        tree.rows[self.at].offset
    }

    /// The level of the entry in its tree: 1 of the root (section 2.3).
    pub fn depth(&self) -> u64
        ensures { result ≡ self.now.depth }
    {
        let tree = self.tree;
        tree.rows[self.at].depth as u64
    }

    /// The abbreviation code that begins the entry, with the width in which it is written (section
    /// 7.5.2).
    pub fn code(&self) -> Uleb
        ensures { uleb_of result ≡ code_of self.now.node }
    {
        let tree = self.tree;
        tree.rows[self.at].code()
    }

    /// The tag, `DW_TAG_..`, that the entry's declaration gives it (sections 2.1 and 7.5.3).
    #[inline(always)]
    pub fn tag(&self) -> u64
        ensures { result ≡ tag_of (declared self.now.table (code_of self.now.node).value) }
    {
        let tree = self.tree;
        match tree.table.get(tree.rows[self.at].code) {
            Some(decl) => decl.tag().value,
            None => unreachable!(),
        }
    }

    /// Its attributes, in the order in which its declaration names them, which is that of their
    /// values (section 7.5.2). No memory is taken.
    #[inline(always)]
    pub fn attrs(&self) -> Attrs<'a>
        ensures { result ≡ attributes_of self.now }
    {
        let tree = self.tree;
        let row = tree.rows[self.at];
        match tree.table.get(row.code) {
            Some(decl) => {
                let pairs = decl.pairs();
                let heads = behind(&tree.heads, row.first);
                let at = row.offset + row.width as u64;
                Attrs::of(tree.context, pairs, heads, &tree.pool, at)
            }
            None => unreachable!(),
        }
    }

    /// The first of its attributes that has this name, `DW_AT_..`.
    pub fn attr(&self, name: u64) -> Option<AttrRef<'a>>
        ensures { option_map attr_of result ≡ first_named name (attributes_of self.now) }
    {
        // Of the values before the one that is asked for only the ends are looked for.
        let mut attrs = self.attrs();
        if !attrs.has_name(name) {
            return None;
        }
        while let Some(first) = attrs.name() {
            if first == name {
                return attrs.next();
            }
            attrs.step_over();
        }
        None
    }

    /// The entries just below, in order: each is stepped over to its next sibling (section 2.3).
    pub fn children(&self) -> Children<'a>
        ensures { result ≡ children_of self.now }
    {
        let tree = self.tree;
        let at = match tree.rows[self.at].kind {
            RowKind::Branch => self.at + 1,
            _ => tree.rows.len(),
        };
        Children { tree, at }
    }

    /// Where what follows the entry and all below it begins, its own null included, counted from
    /// the unit's first byte.
    pub fn end_offset(&self) -> u64
        ensures { result ≡ end_offset_of self.now }
    {
        let tree = self.tree;
        let end = tree.rows[self.at].end;
        if end < tree.rows.len() {
            tree.rows[end].offset
        } else {
            tree.end
        }
    }
}

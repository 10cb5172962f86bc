//! Units (section 7.5).
ghost use Rattle.std.specs.Prelude.{◌≡◌, ◌≢◌, ◌↔◌, length, None, Some, IfSome};
ghost use Rattle.std.specs.List.{All, Contains};
ghost use Rattle.dw_tree.specs.Lent.{EntryAt, root_of, entries_of, find_at, from_offset};
ghost use Rattle.dw_unit.specs.Unit.{UnitFits, bytes_of, tree_of};
ghost use Rattle.dw_unit.specs.UnitView.{IsUnit};

use crate::body::Body;
use dw_header::Header;
use dw_tree::{Entries, EntryRef, EntryTree};
use std::marker::Model;

/// A unit over its abbreviation table: a header, a tree of entries, and the nulls after the root's
/// end. It has exactly one spelling, and keeps every width in which its numbers were written.
#[derive(Debug, Drop)]
pub struct Unit {
    pub(crate) header: Header,
    pub(crate) tree: EntryTree,
    pub(crate) padding: Vec<u8>,
    pub(crate) size: u64,
}

impl Model for Unit {
    ghost use Rattle.dw_unit.specs.Unit.{WholeUnit};
    ghost use Rattle.dw_unit.specs.UnitView.{unit_code, IsUnit};

    ghost Value = { WholeUnit };

    ghost coded = { unit_code };

    ghost view = { λ a. record {
      header = a.header;
      table = a.tree.table;
      root = a.tree.root;
      padding = a.padding.items;
    } };

    ghost invariant = { λ a.
        IsUnit (record { header = a.header; table = a.tree.table; root = a.tree.root; padding = a.padding.items })
        a.tree a.size };
}

impl Unit {
    /// A unit of these parts, of `size` bytes.
    pub(crate) fn of(header: Header, body: Body, size: u64) -> Unit
        requires { IsUnit
            (record { header = header; table = body.tree.table; root = body.tree.root; padding = body.padding.items })
            body.tree size }
        ensures { result
            ≡ record { header = header; table = body.tree.table; root = body.tree.root; padding = body.padding.items } }
    {
        Unit {
            header,
            tree: body.tree,
            padding: body.padding,
            size,
        }
    }

    /// The header.
    pub fn header(&self) -> Header
        ensures { result ≡ self.now.header }
    {
        self.header
    }

    /// The count of bytes of the unit's spelling, which each unit has, the initial length included.
    pub fn size(&self) -> u64
        ensures size { result ≡ length (bytes_of self.now) }
        ensures fits { UnitFits self.now }
    {
        self.size
    }

    /// The widths of the null entries after the root's end.
    pub fn padding(&self) -> &[u8]
        ensures { result.now ≡ self.now.padding }
    {
        self.padding.as_slice()
    }

    /// The root entry, the first one behind the header (section 7.5.2). Its offset, and that of every
    /// other entry, counts from the unit's first byte, that of its initial length.
    pub fn root(&self) -> EntryRef<'_>
        ensures { result ≡ root_of (tree_of self.now) }
    {
        self.tree.root()
    }

    /// The entry that begins exactly at this offset, counted from the unit's first byte: there is at
    /// most one. None exactly where no entry begins there.
    pub fn entry_at(&self, offset: u64) -> Option<EntryRef<'_>>
        ensures first { result ≡ find_at offset (entries_of (tree_of self.now)) }
        ensures found { IfSome result (λ e. Contains (entries_of (tree_of self.now)) e × (e.offset ≡ offset)) }
        ensures each { (e : EntryAt) → Contains (entries_of (tree_of self.now)) e → e.offset
            ≡ offset → result ≡ Some e }
        ensures none { result ≡ None ↔ All (λ e. e.offset ≢ offset) (entries_of (tree_of self.now)) }
    {
        self.tree.entry_at(offset)
    }

    /// The tree of its entries. What a unit takes in memory are the tree's lists, whose lengths the
    /// tree tells: `row_count`, `heads` and `content`.
    pub fn tree(&self) -> &EntryTree
        ensures { result.now ≡ tree_of self.now }
    {
        &self.tree
    }

    /// All entries, each before those below it, as they are written (section 7.5.2).
    pub fn entries(&self) -> Entries<'_>
        ensures { result ≡ entries_of (tree_of self.now) }
    {
        self.tree.entries()
    }

    /// The entries from the one on that begins exactly at this offset, counted from the unit's first byte, each before
    /// those below it; none where no entry begins there (section 7.5.2). So a caller that keeps an entry's offset goes
    /// on from it. No memory is taken.
    pub fn entries_from(&self, offset: u64) -> Entries<'_>
        ensures { result ≡ from_offset offset (entries_of (tree_of self.now)) }
    {
        self.tree.entries_from(offset)
    }
}

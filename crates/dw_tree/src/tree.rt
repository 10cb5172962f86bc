//! Trees of entries (section 2.3).
ghost use Rattle.std.specs.Prelude.{◌≡◌, ◌≤◌, ◌-◌, ◌*◌, length};
ghost use Rattle.dw_tree.specs.Tree.{unit_tree};
ghost use Rattle.dw_tree.specs.Row.{rows_of};
ghost use Rattle.dw_tree.specs.PoolBytes.{held};
ghost use Rattle.dw_tree.specs.RowHeads.{rows_heads};

use crate::row::Row;
use dw_abbrev::Table;
use dw_form::Ctx;
use std::marker::Model;
use std::rc::Rc;

/// A tree of entries over the table of their declarations, whose root begins at an offset of its
/// unit. It keeps every width in which its numbers are written.
#[derive(Debug, Drop)]
pub struct EntryTree {
    pub(crate) context: Ctx,
    pub(crate) table: Rc<Table>,
    /// Where the root begins, and where what follows its tree does.
    pub(crate) start: u64,
    pub(crate) end: u64,
    pub(crate) rows: Vec<Row>,
    /// The heads of all values, in their order: what of each one's spelling is no content, and what
    /// finds the content.
    pub(crate) heads: Vec<u8>,
    /// The bytes of texts and blocks, in the same order.
    pub(crate) pool: Vec<u8>,
}

impl Model for EntryTree {
    ghost use Rattle.dw_tree.specs.Steps.{TreeAt, tree_at_code};

    ghost Value = { TreeAt };

    ghost coded = { tree_at_code };

    ghost use Rattle.dw_tree.specs.TreeView.{tree_at, IsTree};

    ghost view = { tree_at };

    ghost invariant = { IsTree };
}

impl EntryTree {
    /// The abbreviation table with the declarations of its entries (section 7.5.3).
    pub fn table(&self) -> &Table
        ensures { result.now ≡ self.now.table }
    {
        &self.table
    }

    /// The count of its rows: one for each entry, and one for each null that ends the children of an
    /// entry. A row is kept in 40 bytes.
    pub fn row_count(&self) -> usize
        ensures exact { result ≡ length (rows_of self.now.root) }
        ensures short { result ≤ length ((unit_tree self.now.context self.now.table).spell self.now.root) }
    {
        self.rows.len()
    }

    /// The heads of its values, in the order of the entries: of each value what of its spelling is no
    /// content, and what finds the content among those of the tree. It keeps no others.
    pub fn heads(&self) -> &[u8]
        ensures exact { result.now ≡ rows_heads self.now.context self.now.table 0 (rows_of self.now.root) }
        ensures short { length result.now ≤ 16 * length
            ((unit_tree self.now.context self.now.table).spell self.now.root) }
    {
        &self.heads
    }

    /// The bytes of its texts and blocks, in the order of the entries. It keeps no others.
    pub fn content(&self) -> &[u8]
        ensures exact { result.now ≡ held (rows_of self.now.root) }
        ensures short { length result.now ≤ length ((unit_tree self.now.context self.now.table).spell self.now.root) }
    {
        &self.pool
    }
}

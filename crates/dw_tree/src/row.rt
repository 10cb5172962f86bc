//! The rows of a tree, the unfinished entry, and a partial value of it.

ghost use Rattle.std.specs.Prelude.{◌≡◌};
ghost use Rattle.dw_leb.specs.Number.{UlebFits};
ghost use Rattle.dw_leb.specs.View.{uleb_of};

use dw_leb::Uleb;

/// What a row is.
#[derive(Clone, Copy, Debug, PartialEq, Eq)]
pub(crate) enum RowKind {
    /// An entry without children.
    Leaf,
    /// An entry whose children follow, up to their null.
    Branch,
    /// The null that ends the children of an entry.
    Null,
}

/// An entry or a null. Rows stand in the order of their bytes. A row has 40 bytes, since a unit's list
/// has one for each of its entries.
#[derive(Clone, Copy, Debug)]
pub(crate) struct Row {
    /// Where its code begins, counted from the unit's first byte.
    pub(crate) offset: u64,
    /// Of an entry: the row behind its subtree, its own null included.
    pub(crate) end: usize,
    /// Of an entry: where the heads of its values begin. How many it has its declaration says.
    pub(crate) first: usize,
    /// The code, 0 of a null, and the width in which it is written.
    pub(crate) code: u64,
    pub(crate) width: u8,
    /// The level: 1 of the root.
    pub(crate) depth: u16,
    pub(crate) kind: RowKind,
    pub(crate) ghost fits: { UlebFits (record { value = code; width = width }) },
}

impl Row {
    /// The code with its width.
    pub(crate) fn code(&self) -> Uleb
        ensures { uleb_of result ≡ record { value = self.now.code; width = self.now.width } }
    {
        match Uleb::with_width(self.code, self.width) {
            Some(code) => code,
            None => unreachable!(),
        }
    }
}

/// A text or block that comes in pieces. Its bytes so far are the last of the pool.
#[derive(Clone, Copy, Debug)]
pub(crate) struct PartialValue {
    /// The form that an indirect value names.
    pub(crate) via: Option<Uleb>,
    /// The width of a block's length field; None of a text.
    pub(crate) width: Option<u8>,
    /// Where its bytes begin in the pool.
    pub(crate) pool: usize,
}

/// An entry whose values aren't complete. Its row is no row yet.
#[derive(Clone, Copy, Debug)]
pub(crate) struct Unfinished {
    pub(crate) code: Uleb,
    /// Where its code begins.
    pub(crate) offset: u64,
    /// Where the heads of its values begin.
    pub(crate) first: usize,
    /// How many values it was given.
    pub(crate) given: usize,
    /// How many its declaration asks for.
    pub(crate) count: usize,
    pub(crate) children: bool,
    /// How long the pool was when the entry began.
    pub(crate) pool: usize,
}

//! What stands behind a header.
use dw_tree::EntryTree;

/// The entries of a unit and its padding.
#[derive(Debug, Drop)]
pub(crate) struct Body {
    pub(crate) tree: EntryTree,
    /// The widths of the nulls after the root's end.
    pub(crate) padding: Vec<u8>,
}

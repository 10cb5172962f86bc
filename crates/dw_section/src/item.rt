//! Items of a section (section 7.5).
ghost use Rattle.std.specs.Prelude.{◌≡◌, length};
ghost use Rattle.dw_section.specs.Item.{item_bytes};
ghost use Rattle.dw_section.specs.ItemView.{item_of};

use dw_unit::Unit;

/// An item of a section: a unit, or the bytes of one that isn't read.
#[derive(Debug, Drop)]
pub enum Item {
    /// A unit.
    Known(Unit),
    /// All bytes of an item of another version or unit type, or with no room for these, its initial length
    /// included.
    Other(Vec<u8>),
}

impl Item {
    /// The count of its bytes, its initial length included.
    pub fn size(&self) -> u64
        ensures { result ≡ length (item_bytes (item_of self.now)) }
    {
        match self {
            Item::Known(unit) => unit.size(),
            Item::Other(bytes) => bytes.len() as u64,
        }
    }
}

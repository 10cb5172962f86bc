//! What the program is asked to do.

/// What the program is to do.
#[derive(Clone, Copy, Debug, PartialEq, Eq)]
pub enum Command<'a> {
    /// Write the entries as text.
    Show,
    /// Write where the entries of this name are, and their tags: those whose first DW_AT_name has this text.
    Find(&'a [u8]),
    /// Write the type of the entry that begins at this offset of `.debug_info`.
    TypeOf(u64),
    /// Write what is wrong in the section, a line for each finding.
    Check,
    /// Put a number in the place of that of an attribute, and write the bytes of `.debug_info` then.
    SetNumber {
        /// The entry begins at this offset of `.debug_info`.
        offset: u64,
        /// The attribute is the entry's first one of this name, `DW_AT_..`.
        name: u64,
        /// The number. One below zero fits signed values alone.
        value: i128,
    },
    /// Write the bytes of `.debug_info` back.
    Copy,
}

//! Where texts begin.

/// Where the text begins that the value of an attribute names.
#[derive(Clone, Copy, Debug, PartialEq, Eq)]
pub enum TextPlace<'a> {
    /// Nowhere else: the value is the text.
    Own(&'a [u8]),
    /// At this offset of `.debug_str`, which may lie past its end.
    Str(u64),
    /// At this offset of `.debug_line_str`, which may lie past its end.
    LineStr(u64),
}

//! What a feed of a unit holds.

/// What a feed of a unit holds of it, counted.
#[derive(Clone, Copy, Debug, PartialEq, Eq)]
pub struct Held {
    /// The bytes of a number of fixed size, of a LEB128 number or of a length field that isn't whole
    /// (sections 7.5.5 and 7.6).
    pub pending: usize,
    /// The entries whose subtree hasn't ended, an unfinished one included (section 2.3).
    pub nested: usize,
    /// The entries, as many as codes other than 0 were taken (section 7.5.2).
    pub entries: usize,
    /// Their values that are whole (section 7.5.3). An entry may have 1,024 of them without a byte.
    pub values: u128,
    /// The bytes of texts and blocks that came, without the zero that ends a text, and without length
    /// fields (section 7.5.5).
    pub pool: usize,
}

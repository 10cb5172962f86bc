//! Byte orders and the two formats of lengths and offsets.
ghost use Rattle.std.specs.Prelude.{◌≡◌};
ghost use Rattle.dw_leb.specs.Number.{length_size as length_size_of, offset_size as offset_size_of};

/// The order of the bytes of a number of fixed size: that of the file that holds the sections.
#[derive(Clone, Copy, Debug, PartialEq, Eq)]
pub enum Order {
    /// The least significant byte first.
    Little,
    /// The most significant byte first.
    Big,
}

/// The format of a unit, which its initial length gives (section 7.4).
#[derive(Clone, Copy, Debug, PartialEq, Eq)]
pub enum Format {
    /// Initial lengths and section offsets of 4 bytes.
    Dwarf32,
    /// Initial lengths of 12 bytes, of which the first four are ff, and section offsets of 8.
    Dwarf64,
}

impl Format {
    /// The bytes of an initial length: 4 or 12 (section 7.4).
    pub fn length_size(self) -> u8
        ensures { result ≡ length_size_of self }
    {
        match self {
            Format::Dwarf32 => 4,
            Format::Dwarf64 => 12,
        }
    }

    /// The bytes of an offset into a section: 4 or 8 (section 7.4).
    pub fn offset_size(self) -> u8
        ensures { result ≡ offset_size_of self }
    {
        match self {
            Format::Dwarf32 => 4,
            Format::Dwarf64 => 8,
        }
    }
}

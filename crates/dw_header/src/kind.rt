//! Kinds of units.

/// What kind of unit a header begins (section 7.5.1), with the fields that the kind adds. All kinds but
/// `Four` are of version 5.
#[derive(Clone, Copy, Debug, PartialEq, Eq)]
pub enum Kind {
    /// A full compilation unit (`DW_UT_compile`).
    Compile,
    /// A partial unit (`DW_UT_partial`).
    Partial,
    /// A type unit (`DW_UT_type`).
    TypeUnit {
        /// The signature by which the type is found.
        signature: u64,
        /// Where the type's entry begins, from the unit's first byte.
        type_offset: u64,
    },
    /// A skeleton unit (`DW_UT_skeleton`).
    Skeleton {
        /// The identifier of the split unit.
        dwo_id: u64,
    },
    /// A unit of version 4, which has no unit type (section 7.5.1.1 of DWARF 4).
    Four,
}

//! Laws of the definitions of sections and references. They call nothing.
ghost use Rattle.dw_section.specs.Laws.{OneSection, OneFault, NotBoth, SomeAnswer, FaultsStay, NoKindFaults, WrittenIsRead, ReadIsWritten, ReferencesNameEntries};

/// One outcome: bytes are exactly one of a section, spelled in one way, and a first fault, in one section, at
/// one place, for one reason.
pub fn one_outcome()
    ensures section { OneSection }
    ensures fault { OneFault }
    ensures not_both { NotBoth }
    ensures some { SomeAnswer }
{}

/// Outcomes are stable: a fault whose reason isn't `Truncated` stays whatever bytes follow.
pub fn outcomes_are_stable()
    ensures faults { FaultsStay }
{}

/// Items of a version or a unit type that isn't read are kept as their bytes: so `BadVersion` and `BadUnitType` are
/// never why a section is refused.
pub fn no_kind_is_refused()
    ensures faults { NoKindFaults }
{}

/// The round trip: the bytes of a section are read as that section, with every width, where the tables of its
/// units stand; and the bytes that a section was read from are its one spelling, which is what is written of it.
pub fn round_trip()
    ensures written_is_read { WrittenIsRead }
    ensures read_is_written { ReadIsWritten }
{}

/// Whatever a reference names is an entry, and it begins exactly where the reference says (sections 2.2 and
/// 7.5.5): at its offset in the unit or in the section, or at the type offset of the first type unit with its
/// signature.
pub fn references_name_entries()
    ensures entries { ReferencesNameEntries }
{}

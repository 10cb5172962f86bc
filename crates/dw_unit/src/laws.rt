//! Laws of the definitions of units; those of trees stand in `dw_tree`. They call nothing. A clause on units that names
//! no versions speaks of version 5 alone, but for the round trip.
ghost use Rattle.dw_header.specs.declared.versions.Versions.{Versions};
ghost use Rattle.dw_unit.specs.Laws.{OneUnitOver, OneUnitOverUnder, OneBreak, OneBreakUnder, NotUnitAndBreak, NotUnitAndBreakUnder, UnitOrBreak, UnitOrBreakUnder, FrontsStay, FrontsStayUnder, BreaksStay, BreaksStayUnder, FrontsAreCut, FrontsAreCutUnder, UnitsOverSections, UnitsOverSectionsUnder, BreaksAreFaults, BreaksAreFaultsUnder, OneUnit, OneUnitUnder, OneFault, OneFaultUnder, NotBoth, NotBothUnder, SomeAnswer, SomeAnswerUnder, UnitsStay, UnitsStayUnder, FaultsStay, FaultsStayUnder, FrontsAreTruncated, FrontsAreTruncatedUnder, WrittenIsRead, WrittenIsReadUnder, ReadIsWritten, ReadIsWrittenUnder, UnitsAreAccepted, UnitsStandWhereAccepted, UnitsBreakWhereAccepted, UnitsFailWhereAccepted, LentAreSpelled};

/// One spelling: bytes have at most one unit at the front, of one size: over a table that is handed in, and
/// over an abbreviation section.
pub fn one_spelling()
    ensures over_a_table { OneUnitOver }
    ensures units { OneUnit }
    ensures over_a_table_under { (versions : Versions) → OneUnitOverUnder versions }
    ensures units_under { (versions : Versions) → OneUnitUnder versions }
{}

/// One outcome: over a table that is handed in, bytes have exactly one of a unit at the front and a
/// break, at one place for one reason. Over an abbreviation section they have exactly one of a unit at
/// the front and a first fault, in one section, at one place, for one reason.
pub fn one_outcome()
    ensures one_break { OneBreak }
    ensures not_unit_and_break { NotUnitAndBreak }
    ensures unit_or_break { UnitOrBreak }
    ensures fault { OneFault }
    ensures not_both { NotBoth }
    ensures some { SomeAnswer }
    ensures one_break_under { (versions : Versions) → OneBreakUnder versions }
    ensures not_unit_and_break_under { (versions : Versions) → NotUnitAndBreakUnder versions }
    ensures unit_or_break_under { (versions : Versions) → UnitOrBreakUnder versions }
    ensures fault_under { (versions : Versions) → OneFaultUnder versions }
    ensures not_both_under { (versions : Versions) → NotBothUnder versions }
    ensures some_under { (versions : Versions) → SomeAnswerUnder versions }
{}

/// Outcomes are stable: a unit at the front stays whatever bytes follow, and so does a break or a fault
/// whose reason isn't `Truncated`. A proper front of a unit is `Truncated`.
pub fn outcomes_are_stable()
    ensures fronts_stay { FrontsStay }
    ensures breaks { BreaksStay }
    ensures fronts { FrontsAreCut }
    ensures units { UnitsStay }
    ensures faults { FaultsStay }
    ensures truncated { FrontsAreTruncated }
    ensures fronts_stay_under { (versions : Versions) → FrontsStayUnder versions }
    ensures breaks_under { (versions : Versions) → BreaksStayUnder versions }
    ensures fronts_under { (versions : Versions) → FrontsAreCutUnder versions }
    ensures units_under { (versions : Versions) → UnitsStayUnder versions }
    ensures faults_under { (versions : Versions) → FaultsStayUnder versions }
    ensures truncated_under { (versions : Versions) → FrontsAreTruncatedUnder versions }
{}

/// What is accepted judges the version alone: a unit at the front is of a version that is accepted, and it
/// stands there wherever that version is. So what a caller who accepts version 5 alone reads, one who
/// accepts version 4 too reads as well. Behind a header at the front, a break of a unit or a fault is the same
/// wherever the header's version is accepted.
pub fn versions_judge_versions_alone()
    ensures accepted { UnitsAreAccepted }
    ensures stand { UnitsStandWhereAccepted }
    ensures breaks { UnitsBreakWhereAccepted }
    ensures faults { UnitsFailWhereAccepted }
{}

/// Where a header's table stands in the abbreviation section at the header's offset, a unit over that
/// table is one over the section, and a break over that table is the fault over the section.
pub fn tables_of_sections()
    ensures units { UnitsOverSections }
    ensures breaks { BreaksAreFaults }
    ensures units_under { (versions : Versions) → UnitsOverSectionsUnder versions }
    ensures breaks_under { (versions : Versions) → BreaksAreFaultsUnder versions }
{}

/// The round trip: the bytes of a unit are read as that unit with every width, whatever follows, where
/// its table stands; and the bytes that a unit was read from are the unit's one spelling, which is what
/// is written of it.
pub fn round_trip()
    ensures written_is_read { WrittenIsRead }
    ensures read_is_written { ReadIsWritten }
    ensures written_is_read_under { (versions : Versions) → WrittenIsReadUnder versions }
    ensures read_is_written_under { (versions : Versions) → ReadIsWrittenUnder versions }
{}

/// Among the unit's bytes those of an entry that is lent, with all below it, stand from its offset to its end
/// (section 7.5.2).
pub fn entries_are_spelled()
    ensures { LentAreSpelled }
{}

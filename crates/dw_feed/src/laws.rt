//! The laws of the unit's end, and of what a feed holds. They call nothing. A clause that names no versions speaks of
//! version 5 alone.
ghost use Rattle.dw_header.specs.declared.versions.Versions.{Versions};
ghost use Rattle.dw_feed.specs.Laws.{StreamTellsHeld, NoneIsCut, NoneIsCutUnder, FaultsStayInside, FaultsStayInsideUnder, FaultsComeFromInside, FaultsComeFromInsideUnder};

/// Bytes that begin with an initial length and hold all that it announces (sections 7.2.2 and
/// 7.5.1) have no fault `Truncated` in `.debug_info`, and the same fault whatever bytes follow. A
/// unit stays whatever follows (`outcomes_are_stable` of `dw_unit`). So a unit can be read as soon
/// as its own bytes are there.
pub fn units_end_as_their_length_says()
    ensures none_is_cut { NoneIsCut }
    ensures faults_stay { FaultsStayInside }
    ensures faults_come { FaultsComeFromInside }
    ensures none_is_cut_under { (versions : Versions) → NoneIsCutUnder versions }
    ensures faults_stay_under { (versions : Versions) → FaultsStayInsideUnder versions }
    ensures faults_come_under { (versions : Versions) → FaultsComeFromInsideUnder versions }
{}

/// Two feeds of one unit that took the same bytes hold the same, however these were cut into pieces: `held` answers the
/// same numbers for both, each of them, and of the field at their place the same bytes are there.
pub fn held_is_told_by_the_bytes()
    ensures { StreamTellsHeld }
{}

//! The laws of each crate, called.
use dw_abbrev::laws as tables;
use dw_check::laws as checks;
use dw_feed::laws as feeds;
use dw_form::laws as values;
use dw_header::laws as headers;
use dw_leb::laws as numbers;
use dw_section::laws as sections;
use dw_tree::laws as trees;
use dw_unit::laws as units;

#[test]
fn laws_of_numbers_are_called() {
    numbers::one_spelling();
    numbers::one_outcome();
    numbers::outcomes_are_stable();
}

#[test]
fn laws_of_values_are_called() {
    values::one_spelling();
    values::one_outcome();
    values::outcomes_are_stable();
    values::stored_values_stay();
}

#[test]
fn laws_of_tables_are_called() {
    tables::one_spelling();
    tables::one_outcome();
    tables::one_table();
    tables::written_stands();
}

#[test]
fn laws_of_headers_are_called() {
    headers::one_spelling();
    headers::one_outcome();
    headers::outcomes_are_stable();
}

#[test]
fn laws_of_trees_are_called() {
    trees::one_spelling();
    trees::one_outcome();
    trees::outcomes_are_stable();
    trees::entries_are_by_paths();
    trees::offsets_are_distinct();
}

#[test]
fn laws_of_units_are_called() {
    units::one_spelling();
    units::one_outcome();
    units::outcomes_are_stable();
    units::versions_judge_versions_alone();
    units::tables_of_sections();
    units::round_trip();
    units::entries_are_spelled();
}

#[test]
fn laws_of_feeds_are_called() {
    feeds::units_end_as_their_length_says();
    feeds::held_is_told_by_the_bytes();
}

#[test]
fn laws_of_sections_are_called() {
    sections::one_outcome();
    sections::outcomes_are_stable();
    sections::no_kind_is_refused();
    sections::round_trip();
    sections::references_name_entries();
}

#[test]
fn laws_of_findings_are_called() {
    checks::findings_are_in_order();
    checks::findings_are_all_there_are();
}

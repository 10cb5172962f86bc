//! A unit in its section.
use crate::ends::TextEnds;
use dw_section::Section;
use dw_strings::Strings;
use dw_unit::Unit;

/// A unit in its section, beside the sections of texts.
#[derive(Clone, Copy)]
pub(crate) struct Place<'a> {
    pub(crate) section: &'a Section,
    pub(crate) strings: &'a Strings<'a>,
    pub(crate) text_ends: TextEnds,
    /// The number of the item that the unit is.
    pub(crate) item: usize,
    /// Where the unit starts, counted from the section's first byte.
    pub(crate) start: u64,
    pub(crate) unit: &'a Unit,
}

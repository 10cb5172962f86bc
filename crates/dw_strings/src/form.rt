//! The forms of texts that are not in the unit (section 7.5.5).
ghost use Rattle.std.specs.Prelude.{◌≡◌};
ghost use Rattle.dw_form.specs.Form.{at_number};
ghost use Rattle.dw_strings.specs.Text.{stored_forms};

use dw_leb::constants::form::*;

/// Where a text is that its attribute names by a number.
#[derive(Clone, Copy, PartialEq, Eq)]
pub(crate) enum StoredIn {
    /// At an offset of `.debug_str`.
    Str,
    /// At an offset of `.debug_line_str`.
    LineStr,
    /// At an offset of `.debug_str` that is an entry of `.debug_str_offsets`.
    StrOffsets,
    /// In a supplementary file.
    Elsewhere,
}

impl StoredIn {
    /// Where the texts of a form are, where it is one of texts that a number names.
    pub(crate) fn of(form: u64) -> Option<StoredIn>
        ensures { result ≡ at_number form stored_forms }
    {
        match form {
            DW_FORM_STRP => Some(StoredIn::Str),
            DW_FORM_LINE_STRP => Some(StoredIn::LineStr),
            DW_FORM_STRX | DW_FORM_STRX1 | DW_FORM_STRX2 | DW_FORM_STRX3 | DW_FORM_STRX4 => Some(
                StoredIn::StrOffsets,
            ),
            DW_FORM_STRP_SUP | DW_FORM_GNU_STRP_ALT => Some(StoredIn::Elsewhere),
            _ => None,
        }
    }
}

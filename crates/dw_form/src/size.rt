//! How many bytes the values of a form have, where the form alone tells (section 7.5.6).
ghost use Rattle.std.specs.Prelude.{◌≡◌, ◌≤◌, IfSome};
ghost use Rattle.dw_form.specs.FormSize.{told_form, FormSizeFits};

use dw_leb::constants::form::*;

/// How many bytes the values of a form have.
#[derive(Clone, Copy, Debug, PartialEq, Eq)]
pub enum FormSize {
    /// So many in each unit: 0 to 8, or 16.
    Bytes(u8),
    /// As many as an address of the unit.
    Address,
    /// As many as an offset into a section: 4 in the 32-bit format, 8 in the 64-bit format.
    Offset,
}

impl FormSize {
    /// That of a form by its number. None where the values' bytes tell how many they are, where the form is
    /// `implicit_const`, whose values have a constant of their declaration, and for a number that is no form.
    pub fn of(form: u64) -> Option<FormSize>
        ensures told { result ≡ told_form form }
        ensures few { IfSome result FormSizeFits }
    {
        match form {
            DW_FORM_ADDR => Some(FormSize::Address),
            DW_FORM_STRP
            | DW_FORM_REF_ADDR
            | DW_FORM_SEC_OFFSET
            | DW_FORM_STRP_SUP
            | DW_FORM_LINE_STRP
            | DW_FORM_GNU_REF_ALT
            | DW_FORM_GNU_STRP_ALT => Some(FormSize::Offset),
            DW_FORM_FLAG_PRESENT => Some(FormSize::Bytes(0)),
            DW_FORM_DATA1 | DW_FORM_FLAG | DW_FORM_REF1 | DW_FORM_STRX1 | DW_FORM_ADDRX1 => Some(
                FormSize::Bytes(1),
            ),
            DW_FORM_DATA2 | DW_FORM_REF2 | DW_FORM_STRX2 | DW_FORM_ADDRX2 => Some(FormSize::Bytes(
                2,
            )),
            DW_FORM_STRX3 | DW_FORM_ADDRX3 => Some(FormSize::Bytes(3)),
            DW_FORM_DATA4 | DW_FORM_REF4 | DW_FORM_REF_SUP4 | DW_FORM_STRX4 | DW_FORM_ADDRX4 =>
                Some(FormSize::Bytes(4)),
            DW_FORM_DATA8 | DW_FORM_REF8 | DW_FORM_REF_SIG8 | DW_FORM_REF_SUP8 => Some(
                FormSize::Bytes(8),
            ),
            DW_FORM_DATA16 => Some(FormSize::Bytes(16)),
            _ => None,
        }
    }
}

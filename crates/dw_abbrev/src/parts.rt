//! What a value adds to the size of its entry, where its form tells it: bytes, an address or an offset (section 7.5.6).
//! Nearly all forms have low numbers. They are looked up in tables, without a jump that would often be guessed wrong;
//! tables of text, since the compiler makes any other list anew at each look.
ghost use Rattle.std.specs.Prelude.{◌≡◌, ◌<◌, ◌≤◌, Some, None, is_some, IsTrue, IsFalse};
ghost use Rattle.dw_form.specs.declared.size.FormSize.TheVariants.{Offset};
ghost use Rattle.dw_abbrev.specs.Parts.{told_by, bytes_or, addresses_or, offsets_or};

use dw_leb::constants::form::{DW_FORM_GNU_REF_ALT, DW_FORM_GNU_STRP_ALT};

/// How many forms the tables have: those of the standard.
pub(crate) const LOW_FORMS: u64 = 45;

/// For each of them whether its values have bytes, an address or an offset, or it doesn't tell their size.
const KINDS: [u8; 45] = *b"-a---bbb---bb-o-obbbb--o-b--bobobb--bbbbbbbbb";

/// How many bytes.
const BYTES: [u8; 45] =
    *b"\x00\x00\x00\x00\x00\x02\x04\x08\x00\x00\x00\x01\x01\x00\x00\x00\x00\x01\x02\x04\x08\x00\x00\x00\x00\x00\x00\x00\x04\x00\x10\x00\x08\x00\x00\x00\x08\x01\x02\x03\x04\x01\x02\x03\x04";

/// Whether a form tells the size of its values. Those of the form `implicit_const` have no bytes.
#[inline(always)]
pub(crate) fn is_told(form: u64) -> bool
    requires { form < 45 }
    ensures { result ≡ is_some (told_by form) }
{
    KINDS[form as usize] != b'-'
}

/// The bytes of a value of this form, where they are as many in each unit.
#[inline(always)]
pub(crate) fn bytes_of(form: u64) -> u16
    requires { form < 45 }
    ensures bytes { result ≡ bytes_or (told_by form) }
    ensures few { result ≤ 16 }
{
    BYTES[form as usize] as u16
}

/// 1 for a value as long as an address.
#[inline(always)]
pub(crate) fn addresses_of(form: u64) -> u16
    requires { form < 45 }
    ensures addresses { result ≡ addresses_or (told_by form) }
    ensures few { result ≤ 1 }
{
    (KINDS[form as usize] == b'a') as u16
}

/// 1 for a value as long as an offset into a section.
#[inline(always)]
pub(crate) fn offsets_of(form: u64) -> u16
    requires { form < 45 }
    ensures offsets { result ≡ offsets_or (told_by form) }
    ensures few { result ≤ 1 }
{
    (KINDS[form as usize] == b'o') as u16
}

/// Whether the values of a form behind those of the standard are as long as an offset. Else it doesn't tell their size.
#[inline(always)]
pub(crate) fn has_offset(form: u64) -> bool
    requires { 45 ≤ form }
    ensures told { IsTrue result → told_by form ≡ Some Offset }
    ensures untold { IsFalse result → told_by form ≡ None }
{
    match form {
        DW_FORM_GNU_REF_ALT | DW_FORM_GNU_STRP_ALT => true,
        _ => false,
    }
}

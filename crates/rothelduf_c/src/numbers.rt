//! The numbers by which C is told of faults and refusals: those of `rothelduf.h`.
ghost use Rattle.std.specs.Prelude.{◌≡◌};
ghost use Rattle.rothelduf_c.specs.Numbers as numbers;

use dw_ctype::TypeError;
use dw_leb::{Reason, SectionId};
use dw_section::{RefFault, SectionRefusal, SetRefusal};
use dw_strings::StrFault;

/// Of a section: 0 is `.debug_info`, 1 `.debug_abbrev`.
pub(crate) fn of_section(section: SectionId) -> u32
    ensures { result ≡ numbers.section_number section }
{
    match section {
        SectionId::Info => 0,
        SectionId::Abbrev => 1,
    }
}

/// Of the reason of a fault, from 1 on.
pub(crate) fn of_reason(reason: Reason) -> u32
    ensures { result ≡ numbers.reason_number reason }
{
    reason as u8 as u32
}

/// Of a reference that names no entry, from 1 on.
pub(crate) fn of_reference(fault: RefFault) -> u32
    ensures { result ≡ numbers.reference_number fault }
{
    fault as u8 as u32
}

/// Of a text that isn't there, from 1 on.
pub(crate) fn of_text(fault: StrFault) -> u32
    ensures { result ≡ numbers.text_number fault }
{
    fault as u8 as u32
}

/// Of a number that isn't put, from 1 on.
pub(crate) fn of_setting(refusal: SetRefusal) -> u32
    ensures { result ≡ numbers.setting_number refusal }
{
    refusal as u8 as u32
}

/// Of a type that isn't told, from 1 on.
pub(crate) fn of_type(refusal: TypeError) -> u32
    ensures { result ≡ numbers.type_number refusal }
{
    refusal as u8 as u32
}

/// Of a unit that isn't put into a section, from 1 on.
pub(crate) fn of_push(refusal: SectionRefusal) -> u32
    ensures { result ≡ numbers.push_number refusal }
{
    refusal as u8 as u32
}

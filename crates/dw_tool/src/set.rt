//! A number of a section that becomes another one, by the offset of its entry.
ghost use Rattle.std.specs.Prelude.{◌≡◌, Err, IfErr, Ok, OnErr, OnOk};
ghost use Rattle.dw_tool.specs.Set as definition;

use crate::status::Refused;
use dw_section::Section;

/// Puts a number in the place of that of an attribute: of the entry that begins at this offset of the section, the
/// first one of this name.
///
/// Errors: those of `Section::set_number`, and then the section is as it was; `NoEntry` exactly where no entry begins
/// at the offset.
pub(crate) fn set_at(
    section: &mut Section,
    offset: u64,
    name: u64,
    value: i128,
) -> Result<(), Refused>
    ensures set { OnOk result (definition.set_at offset name value section.old ≡ Ok section.new) }
    ensures refused { IfErr result (λ why. definition.set_at offset name value section.old ≡ Err why) }
    ensures unchanged { OnErr result (section.new ≡ section.old) }
{
    let Some(id) = section.find(offset) else {
        return Err(Refused::NoEntry);
    };
    section.set_number(id, name, value)?;
    Ok(())
}

//! What the exports ask the library for.
ghost use Rattle.std.specs.Prelude.{◌≡◌, ◌≢◌, ◌<◌, ◌≤◌, ℕ, Some, None, Ok, length, min, take, map, IfOk, IfErr, IfSome, IfNone, IsSome};
ghost use Rattle.dw_form.specs.Form.{Num};
ghost use Rattle.dw_form.specs.Lent.{attribute_of};
ghost use Rattle.dw_unit.specs.Unit.{WholeUnit};
ghost use Rattle.dw_section.specs.Lookup.{start_of, unit_at};
ghost use Rattle.dw_section.specs.Reads.{IsSectionError};
ghost use Rattle.dw_section.specs.Reference.{named};
ghost use Rattle.dw_section.specs.Section.{SectionFits, section_bytes};
ghost use Rattle.dw_strings.specs.TextView.{sections_of};
ghost use Rattle.dw_ctype.specs.Answer.{answer, IsRefusal};
ghost use Rattle.dw_ctype.specs.View.{source_of};
ghost use Rattle.dw_check.specs.Findings.{findings};
ghost use Rattle.rothelduf_c.specs.Opens.{IsOpened};
ghost use Rattle.rothelduf_c.specs.Seen.{seen_finding, seen_unit};
ghost use Rattle.rothelduf_c.specs.Status as status;
ghost use Rattle.rothelduf_c.specs.Texts.{IsTextOf, IsNoText};

use crate::status::{OK, SHORT};
use crate::structs::{CFinding, CText, CUnit, c_finding, c_unit};
use dw_check::{Finding, check};
use dw_ctype::{TypeError, type_text};
use dw_form::{AttrValue, Value};
use dw_leb::{Order, ReadError, Watched};
use dw_section::{EntryId, RefFault, Section, read_section_as, write_section};
use dw_strings::{StrFault, Strings, TextPlace};
use dw_unit::{AttrRef, Versions};
use std::alloc::Global;

/// The section that is all of these bytes, or its first fault, or that memory was refused.
pub fn opened(
    alloc: Global,
    info: &[u8],
    abbreviations: &[u8],
    order: Order,
    versions: Versions,
) -> Result<Box<Section>, ReadError>
    ensures found { IfOk result (λ b. IsOpened versions order abbreviations.now info.now b.value) }
    ensures broken { IfErr result (IsSectionError versions order abbreviations.now info.now) }
{
    let section = read_all(alloc, info, abbreviations, order, versions)?;
    Ok(Box::new(alloc, section)?)
}

fn read_all(
    alloc: Global,
    info: &[u8],
    abbreviations: &[u8],
    order: Order,
    versions: Versions,
) -> Result<Section, ReadError>
    ensures found { IfOk result (λ s. IsOpened versions order abbreviations.now info.now s) }
    ensures broken { IfErr result (IsSectionError versions order abbreviations.now info.now) }
{
    let mut reader = Watched::new(info);
    read_section_as(alloc, order, versions, abbreviations, &mut reader)
}

/// What is told of the unit that an item is.
pub fn unit_of(section: &Section, item: usize) -> Option<CUnit>
    ensures start { IfSome result (λ c. start_of section.now.items item ≡ Some c.start) }
    ensures unit { (u : WholeUnit) → unit_at section.now.items item ≡ Some u
        → IfSome result (λ c. c ≡ seen_unit c.start u) }
    ensures some { IfSome result (λ c. IsSome (unit_at section.now.items item)) }
    ensures none { IfNone result (unit_at section.now.items item ≡ None) }
{
    let unit = section.unit(item)?;
    let start = section.start(item)?;
    Some(c_unit(unit, start))
}

/// A value of a form that is this number.
fn number_of(form: u64, number: u64) -> AttrRef<'static>
    ensures form { result.form ≡ form }
    ensures value { (attribute_of result.attr).value ≡ Num number }
{
    AttrRef {
        name: 0,
        form,
        offset: 0,
        attr: AttrValue {
            via: None,
            value: Value::Num(number),
        },
    }
}

/// The entry that a number of a form names in the unit of an item, or why there is none.
pub fn resolved(section: &Section, item: usize, form: u64, number: u64) -> Result<EntryId, RefFault>
    requires { IsSome (unit_at section.now.items item) }
    ensures { (u : WholeUnit) → unit_at section.now.items item ≡ Some u
        → result ≡ named section.now.items item u form (Num number) }
{
    section.resolve(EntryId { item, offset: 0 }, &number_of(form, number))
}

/// Where the text is that a number of a form names in the unit of an item, or why there is none.
pub fn text_of<'a>(
    section: &'a Section,
    strings: &Strings<'a>,
    item: usize,
    form: u64,
    number: u64,
) -> Result<CText, StrFault>
    requires { IsSome (unit_at section.now.items item) }
    ensures found { (u : WholeUnit) → unit_at section.now.items item ≡ Some u
        → IfOk result (IsTextOf (sections_of strings.now) u form number) }
    ensures none { (u : WholeUnit) → unit_at section.now.items item ≡ Some u
        → IfErr result (IsNoText (sections_of strings.now) u form number) }
{
    let place = strings.place(
        section,
        EntryId { item, offset: 0 },
        &number_of(form, number),
    )?;
    let length = strings.text_at(place)?.len();
    match place {
        // (a number is never a text of its own)
        TextPlace::Own(_) => Ok(CText {
            section: 0,
            offset: 0,
            length,
        }),
        TextPlace::Str(offset) => Ok(CText {
            section: 1,
            offset,
            length,
        }),
        TextPlace::LineStr(offset) => Ok(CText {
            section: 2,
            offset,
            length,
        }),
    }
}

/// The type of an entry with a name, as a declaration in C.
pub fn typed<'a>(
    alloc: Global,
    section: &'a Section,
    strings: &Strings<'a>,
    id: EntryId,
    name: &[u8],
) -> Result<Vec<u8>, TypeError>
    ensures found { IfOk result (λ v. answer (source_of section.now strings.now) id name.now ≡ Ok v.items) }
    ensures refused { IfErr result (IsRefusal (answer (source_of section.now strings.now) id name.now) 0) }
{
    let mut text = Vec::new(alloc);
    type_text(alloc, section, strings, id, name, &mut text)?;
    Ok(text)
}

/// Fills the front of `out` with what is wrong, as much as there is room for, and answers how much there is; None
/// where memory was refused.
pub fn checked<'a>(
    alloc: Global,
    section: &'a Section,
    strings: &'a Strings<'a>,
    out: &mut [CFinding],
) -> Option<usize>
    ensures count { IfSome result (λ n. n ≡ length (findings (sections_of strings.now) section.now)) }
    ensures filled { IfSome result (λ n. take (min (length out.old) n) out.new
        ≡ map seen_finding (take (min (length out.old) n) (findings (sections_of strings.now) section.now))) }
    ensures memory { IfNone result ((item : ℕ) × IsSome (unit_at section.now.items item)) }
    ensures kept { IfNone result (out.new ≡ out.old) }
{
    let Ok(found) = check(alloc, section, strings) else {
        return None;
    };
    let _filled = fill_findings(found.as_slice(), out);
    Some(found.len())
}

/// Fills the front of `out` with findings, as many as there is room for, and answers how many.
fn fill_findings(found: &[Finding], out: &mut [CFinding]) -> usize
    ensures count { result ≡ min (length out.old) (length found.now) }
    ensures filled { take result out.new ≡ map seen_finding (take result found.now) }
{
    let mut n = 0;
    for finding in found {
        if n >= out.len() {
            break;
        }
        out[n] = c_finding(finding);
        n += 1;
    }
    n
}

/// The bytes of a section; None where memory was refused.
pub fn written(alloc: Global, section: &Section) -> Option<Vec<u8>>
    ensures found { IfSome result (λ v. v.items ≡ section_bytes section.now) }
    ensures fits { SectionFits section.now }
    ensures memory { IfNone result (0 < length (section_bytes section.now)) }
{
    if section.size() == 0 {
        return Some(Vec::new(alloc));
    }
    let mut writer = Watched::new(Vec::new(alloc));
    match write_section(section, &mut writer) {
        Ok(()) => Some(writer.into_inner()),
        Err(_) => None,
    }
}

/// Copies the bytes to the front of `out`, where there is room for them.
pub fn copied(bytes: &[u8], out: &mut [u8]) -> u32
    ensures copied { result ≡ status.OK → take (length bytes.now) out.new ≡ bytes.now }
    ensures room { result ≡ status.OK → length bytes.now ≤ length out.old }
    ensures short { result ≢ status.OK → (result ≡ status.SHORT) × (length out.old < length bytes.now) }
    ensures kept { result ≢ status.OK → out.new ≡ out.old }
{
    if bytes.len() > out.len() {
        return SHORT;
    }
    out[..bytes.len()].copy_from_slice(bytes);
    OK
}

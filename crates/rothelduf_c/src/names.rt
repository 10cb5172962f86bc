//! What values name: entries, texts and types.
ghost use Rattle.std.specs.Prelude.{◌≡◌, ◌≢◌, ◌≤◌, length, take, Some, None, Ok, Err};
ghost use Rattle.dw_form.specs.Form.{Num};
ghost use Rattle.dw_unit.specs.Unit.{WholeUnit};
ghost use Rattle.dw_section.specs.Lookup.{unit_at};
ghost use Rattle.dw_section.specs.Reference.{named};
ghost use Rattle.dw_section.specs.Section.{WholeSection};
ghost use Rattle.dw_section.specs.declared.id.RefFault.{RefFault};
ghost use Rattle.dw_strings.specs.declared.fault.StrFault.{StrFault};
ghost use Rattle.dw_ctype.specs.Answer.{IsRefusal};
ghost use Rattle.dw_ctype.specs.declared.fault.TypeError.{TypeError};
ghost use Rattle.dw_ctype.specs.declared.fault.TypeError.TheVariants.{NoMemory};
ghost use Rattle.rothelduf_c.specs.Numbers.{reference_number, text_number, type_number};
ghost use Rattle.rothelduf_c.specs.Seen.{id_of};
ghost use Rattle.rothelduf_c.specs.Status as status;
ghost use Rattle.rothelduf_c.specs.Texts.{IsLonger, IsNoText, IsTextOf, strings_of, type_of};

use crate::ask::{copied, resolved, text_of, typed};
use crate::handle::{Slot, put, taken};
use crate::status::{CLOSED, NO_MEMORY, NOTHING, OK, REFUSED};
use crate::structs::{CId, CText, c_id};
use crate::{numbers, structs};
use dw_ctype::TypeError;
use dw_strings::Strings;
use std::alloc::Global;

/// The entry that a number of a form names in the unit of an item.
#[unsafe(no_mangle)]
pub extern "C" fn rothelduf_resolve(
    alloc: Global,
    s: &mut Slot,
    item: usize,
    form: u64,
    number: u64,
    out: &mut CId,
    why: &mut u32,
) -> u32
    ensures same { s.new.handle.value ≡ s.old.handle.value }
    ensures named { (x : WholeSection) (u : WholeUnit) → s.old.handle.value ≡ Some x → unit_at x.items item ≡ Some u
        → result ≡ status.OK → named x.items item u form (Num number) ≡ Ok (id_of out.new) }
    ensures refused { (x : WholeSection) (u : WholeUnit) → s.old.handle.value ≡ Some x → unit_at x.items item ≡ Some u
        → result ≢ status.OK → (result ≡ status.REFUSED)
        × ((w : RefFault) × (named x.items item u form (Num number) ≡ Err w) × (why.new ≡ reference_number w)) }
    ensures nothing { (x : WholeSection) → s.old.handle.value ≡ Some x → unit_at x.items item ≡ None
        → result ≡ status.NOTHING }
    ensures closed { s.old.handle.value ≡ None → result ≡ status.CLOSED }
    ensures kept { result ≢ status.OK → out.new ≡ out.old }
    ensures untold { result ≢ status.REFUSED → why.new ≡ why.old }
{
    match taken(alloc, s) {
        Some(section) => {
            let answer = match section.unit(item) {
                Some(_) => match resolved(&section, item, form, number) {
                    Ok(to) => {
                        *out = c_id(to);
                        OK
                    }
                    Err(fault) => {
                        *why = numbers::of_reference(fault);
                        REFUSED
                    }
                },
                None => NOTHING,
            };
            put(s, section);
            answer
        }
        None => CLOSED,
    }
}

/// Where the text is that a number of a form names in the unit of an item.
#[unsafe(no_mangle)]
pub extern "C" fn rothelduf_text(
    alloc: Global,
    s: &mut Slot,
    item: usize,
    form: u64,
    number: u64,
    str: &[u8],
    line_str: &[u8],
    str_offsets: &[u8],
    out: &mut CText,
    why: &mut u32,
) -> u32
    ensures same { s.new.handle.value ≡ s.old.handle.value }
    ensures text { (x : WholeSection) (u : WholeUnit) → s.old.handle.value ≡ Some x → unit_at x.items item ≡ Some u
        → result ≡ status.OK → IsTextOf (strings_of str.now line_str.now str_offsets.now) u form number out.new }
    ensures refused { (x : WholeSection) (u : WholeUnit) → s.old.handle.value ≡ Some x → unit_at x.items item ≡ Some u
        → result ≢ status.OK → (result ≡ status.REFUSED)
        × ((w : StrFault) × IsNoText (strings_of str.now line_str.now str_offsets.now) u form number w
        × (why.new ≡ text_number w)) }
    ensures nothing { (x : WholeSection) → s.old.handle.value ≡ Some x → unit_at x.items item ≡ None
        → result ≡ status.NOTHING }
    ensures closed { s.old.handle.value ≡ None → result ≡ status.CLOSED }
    ensures kept { result ≢ status.OK → out.new ≡ out.old }
    ensures untold { result ≢ status.REFUSED → why.new ≡ why.old }
{
    let strings = Strings {
        str,
        line_str,
        str_offsets,
    };
    match taken(alloc, s) {
        Some(section) => {
            let answer = match section.unit(item) {
                Some(_) => match text_of(&section, &strings, item, form, number) {
                    Ok(text) => {
                        *out = text;
                        OK
                    }
                    Err(fault) => {
                        *why = numbers::of_text(fault);
                        REFUSED
                    }
                },
                None => NOTHING,
            };
            put(s, section);
            answer
        }
        None => CLOSED,
    }
}

/// Writes the type of an entry to the front of `out`, as the declaration of this name in C. `count` is then how many
/// bytes it has: no more than `out` has room for at `OK`, and more than that at `SHORT`.
#[unsafe(no_mangle)]
pub extern "C" fn rothelduf_type(
    alloc: Global,
    s: &mut Slot,
    id: &CId,
    name: &[u8],
    str: &[u8],
    line_str: &[u8],
    str_offsets: &[u8],
    out: &mut [u8],
    count: &mut usize,
    why: &mut u32,
) -> u32
    ensures same { s.new.handle.value ≡ s.old.handle.value }
    ensures text { (x : WholeSection) → s.old.handle.value ≡ Some x → result ≡ status.OK
        → type_of x (strings_of str.now line_str.now str_offsets.now) (id_of id.now) name.now
        ≡ Ok (take count.new out.new) }
    ensures room { result ≡ status.OK → count.new ≤ length out.old }
    ensures short { (x : WholeSection) → s.old.handle.value ≡ Some x → result ≡ status.SHORT
        → IsLonger (type_of x (strings_of str.now line_str.now str_offsets.now) (id_of id.now) name.now)
        (length out.old) count.new }
    ensures refused { (x : WholeSection) → s.old.handle.value ≡ Some x → result ≡ status.REFUSED
        → (w : TypeError)
        × (type_of x (strings_of str.now line_str.now str_offsets.now) (id_of id.now) name.now ≡ Err w)
        × (why.new ≡ type_number w) }
    ensures memory { (x : WholeSection) → s.old.handle.value ≡ Some x → result ≢ status.OK → result ≢ status.SHORT
        → result ≢ status.REFUSED → (result ≡ status.NO_MEMORY)
        × IsRefusal (type_of x (strings_of str.now line_str.now str_offsets.now) (id_of id.now) name.now) 0 NoMemory }
    ensures closed { s.old.handle.value ≡ None → result ≡ status.CLOSED }
    ensures kept { result ≢ status.OK → out.new ≡ out.old }
    ensures untold { result ≢ status.REFUSED → why.new ≡ why.old }
    ensures uncounted { result ≢ status.OK → result ≢ status.SHORT → count.new ≡ count.old }
{
    let strings = Strings {
        str,
        line_str,
        str_offsets,
    };
    match taken(alloc, s) {
        Some(section) => {
            let answer = typed(alloc, &section, &strings, structs::id_of(id), name);
            put(s, section);
            match answer {
                Ok(text) => {
                    *count = text.len();
                    copied(text.as_slice(), out)
                }
                Err(TypeError::NoMemory) => NO_MEMORY,
                Err(refusal) => {
                    *why = numbers::of_type(refusal);
                    REFUSED
                }
            }
        }
        None => CLOSED,
    }
}

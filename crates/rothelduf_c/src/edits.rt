//! What is wrong, and numbers that are changed.
ghost use Rattle.std.specs.Prelude.{◌≡◌, ◌≢◌, ℕ, length, min, take, map, Some, None, IsSome};
ghost use Rattle.dw_section.specs.Lookup.{unit_at};
ghost use Rattle.dw_section.specs.Section.{WholeSection};
ghost use Rattle.dw_section.specs.SetNumber.{edited, set_refusal};
ghost use Rattle.dw_section.specs.declared.set_refusal.SetRefusal.{SetRefusal};
ghost use Rattle.dw_check.specs.Findings.{findings};
ghost use Rattle.rothelduf_c.specs.Numbers.{setting_number};
ghost use Rattle.rothelduf_c.specs.Seen.{id_of, seen_finding, signed_by};
ghost use Rattle.rothelduf_c.specs.Status as status;
ghost use Rattle.rothelduf_c.specs.Texts.{strings_of};

use crate::ask::checked;
use crate::handle::{Slot, put, taken};
use crate::status::{CLOSED, NO_MEMORY, OK, REFUSED};
use crate::structs::{CFinding, CId, signed};
use crate::{numbers, structs};
use dw_strings::Strings;
use std::alloc::Global;

/// Fills `out` with what is wrong in the section, as much as there is room for, and `count` with how much that is.
#[unsafe(no_mangle)]
pub extern "C" fn rothelduf_check(
    alloc: Global,
    s: &mut Slot,
    str: &[u8],
    line_str: &[u8],
    str_offsets: &[u8],
    out: &mut [CFinding],
    count: &mut usize,
) -> u32
    ensures same { s.new.handle.value ≡ s.old.handle.value }
    ensures count { (x : WholeSection) → s.old.handle.value ≡ Some x → result ≡ status.OK
        → count.new ≡ length (findings (strings_of str.now line_str.now str_offsets.now) x) }
    ensures filled { (x : WholeSection) → s.old.handle.value ≡ Some x → result ≡ status.OK
        → take (min (length out.old) count.new) out.new
        ≡ map seen_finding (take (min (length out.old) count.new)
        (findings (strings_of str.now line_str.now str_offsets.now) x)) }
    ensures memory { (x : WholeSection) → s.old.handle.value ≡ Some x → result ≢ status.OK
        → (result ≡ status.NO_MEMORY) × ((item : ℕ) × IsSome (unit_at x.items item)) }
    ensures closed { s.old.handle.value ≡ None → result ≡ status.CLOSED }
    ensures kept { result ≢ status.OK → out.new ≡ out.old }
    ensures uncounted { result ≢ status.OK → count.new ≡ count.old }
{
    let strings = Strings {
        str,
        line_str,
        str_offsets,
    };
    match taken(alloc, s) {
        Some(section) => {
            let answer = checked(alloc, &section, &strings, out);
            put(s, section);
            match answer {
                Some(found) => {
                    *count = found;
                    OK
                }
                None => NO_MEMORY,
            }
        }
        None => CLOSED,
    }
}

/// Puts a number in the place of that of the first attribute of a name. `minus` asks for the negative of `size`.
#[unsafe(no_mangle)]
pub extern "C" fn rothelduf_set_number(
    alloc: Global,
    s: &mut Slot,
    id: &CId,
    name: u64,
    minus: bool,
    size: u64,
    why: &mut u32,
) -> u32
    ensures set { (x : WholeSection) → s.old.handle.value ≡ Some x → result ≡ status.OK
        → s.new.handle.value ≡ Some (edited x (id_of id.now) name (signed_by minus size)) }
    ensures allowed { (x : WholeSection) → s.old.handle.value ≡ Some x → result ≡ status.OK
        → set_refusal x (id_of id.now) name (signed_by minus size) ≡ None }
    ensures refused { (x : WholeSection) → s.old.handle.value ≡ Some x → result ≢ status.OK
        → (result ≡ status.REFUSED)
        × ((w : SetRefusal) × (set_refusal x (id_of id.now) name (signed_by minus size) ≡ Some w)
        × (why.new ≡ setting_number w)) }
    ensures kept { result ≢ status.OK → s.new.handle.value ≡ s.old.handle.value }
    ensures untold { result ≢ status.REFUSED → why.new ≡ why.old }
    ensures closed { s.old.handle.value ≡ None → result ≡ status.CLOSED }
{
    match taken(alloc, s) {
        Some(mut section) => {
            let answer = section.set_number(structs::id_of(id), name, signed(minus, size));
            put(s, section);
            match answer {
                Ok(()) => OK,
                Err(refusal) => {
                    *why = numbers::of_setting(refusal);
                    REFUSED
                }
            }
        }
        None => CLOSED,
    }
}

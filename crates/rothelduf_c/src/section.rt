//! A section that is opened, and what it is as a whole.
ghost use Rattle.std.specs.Prelude.{◌≡◌, ◌≢◌, ◌<◌, length, take, Some, None};
ghost use Rattle.dw_unit.specs.Unit.{WholeUnit};
ghost use Rattle.dw_section.specs.Lookup.{start_of, unit_at};
ghost use Rattle.dw_section.specs.Section.{WholeSection, section_bytes};
ghost use Rattle.rothelduf_c.specs.Opens.{IsOpened, IsFaultOf, order_of, versions_of};
ghost use Rattle.rothelduf_c.specs.Places.{ContentsStand};
ghost use Rattle.rothelduf_c.specs.Seen.{seen_unit};
ghost use Rattle.rothelduf_c.specs.Status as status;

use crate::ask::{copied, opened, unit_of, written};
use crate::handle::{Slot, put, taken};
use crate::status::{CLOSED, FAULT, NO_MEMORY, NOTHING, OK};
use crate::structs;
use crate::structs::{CFault, CUnit, c_fault};
use dw_leb::ReadError;
use std::alloc::Global;

/// Reads a section. What was open is closed before. After an error nothing is open.
#[unsafe(no_mangle)]
pub extern "C" fn rothelduf_open(
    alloc: Global,
    s: &mut Slot,
    info: &[u8],
    abbreviations: &[u8],
    big: bool,
    four: bool,
    fault: &mut CFault,
) -> u32
    ensures opened { result ≡ status.OK → (x : WholeSection) × (s.new.handle.value ≡ Some x)
        × IsOpened (versions_of four) (order_of big) abbreviations.now info.now x }
    ensures contents { (x : WholeSection) → s.new.handle.value ≡ Some x → ContentsStand info.now x }
    ensures refused { result ≡ status.FAULT
        → IsFaultOf (versions_of four) (order_of big) abbreviations.now info.now fault.new }
    ensures memory { result ≢ status.OK → result ≢ status.FAULT → result ≡ status.NO_MEMORY }
    ensures closed { result ≢ status.OK → s.new.handle.value ≡ None }
    ensures kept { result ≢ status.FAULT → fault.new ≡ fault.old }
{
    rothelduf_close(alloc, s);
    match opened(
        alloc,
        info,
        abbreviations,
        structs::order_of(big),
        structs::versions_of(four),
    ) {
        Ok(section) => {
            put(s, section);
            OK
        }
        Err(ReadError::Fault(found)) => {
            *fault = c_fault(found);
            FAULT
        }
        Err(_) => NO_MEMORY,
    }
}

/// Frees the section, where one is open.
#[unsafe(no_mangle)]
pub extern "C" fn rothelduf_close(alloc: Global, s: &mut Slot)
    ensures { s.new.handle.value ≡ None }
{
    if let Some(section) = taken(alloc, s) {
        drop(section);
    }
}

/// How many items the section has: 0 where none is open.
#[unsafe(no_mangle)]
pub extern "C" fn rothelduf_items(alloc: Global, s: &mut Slot) -> usize
    ensures same { s.new.handle.value ≡ s.old.handle.value }
    ensures count { (x : WholeSection) → s.old.handle.value ≡ Some x → result ≡ length x.items }
    ensures closed { s.old.handle.value ≡ None → result ≡ 0 }
{
    match taken(alloc, s) {
        Some(section) => {
            let count = section.items().len();
            put(s, section);
            count
        }
        None => 0,
    }
}

/// Tells of the unit that an item is.
#[unsafe(no_mangle)]
pub extern "C" fn rothelduf_unit(alloc: Global, s: &mut Slot, item: usize, out: &mut CUnit) -> u32
    ensures same { s.new.handle.value ≡ s.old.handle.value }
    ensures start { (x : WholeSection) → s.old.handle.value ≡ Some x → result ≡ status.OK
        → start_of x.items item ≡ Some out.new.start }
    ensures unit { (x : WholeSection) (u : WholeUnit) → s.old.handle.value ≡ Some x → unit_at x.items item ≡ Some u
        → (result ≡ status.OK) × (out.new ≡ seen_unit out.new.start u) }
    ensures nothing { (x : WholeSection) → s.old.handle.value ≡ Some x → unit_at x.items item ≡ None
        → result ≡ status.NOTHING }
    ensures closed { s.old.handle.value ≡ None → result ≡ status.CLOSED }
    ensures kept { result ≢ status.OK → out.new ≡ out.old }
{
    match taken(alloc, s) {
        Some(section) => {
            let answer = match unit_of(&section, item) {
                Some(unit) => {
                    *out = unit;
                    OK
                }
                None => NOTHING,
            };
            put(s, section);
            answer
        }
        None => CLOSED,
    }
}

/// The count of the section's bytes: 0 where none is open.
#[unsafe(no_mangle)]
pub extern "C" fn rothelduf_size(alloc: Global, s: &mut Slot) -> u64
    ensures same { s.new.handle.value ≡ s.old.handle.value }
    ensures size { (x : WholeSection) → s.old.handle.value ≡ Some x → result ≡ length (section_bytes x) }
    ensures closed { s.old.handle.value ≡ None → result ≡ 0 }
{
    match taken(alloc, s) {
        Some(section) => {
            let size = section.size();
            put(s, section);
            size
        }
        None => 0,
    }
}

/// Writes the section's bytes to the front of `out`.
#[unsafe(no_mangle)]
#[tactic(auto, using(crate::proofs::Places::contents_of_written))]
pub extern "C" fn rothelduf_write(alloc: Global, s: &mut Slot, out: &mut [u8]) -> u32
    ensures same { s.new.handle.value ≡ s.old.handle.value }
    ensures written { (x : WholeSection) → s.old.handle.value ≡ Some x → result ≡ status.OK
        → take (length (section_bytes x)) out.new ≡ section_bytes x }
    ensures contents { (x : WholeSection) → s.old.handle.value ≡ Some x → result ≡ status.OK
        → ContentsStand out.new x }
    ensures short { (x : WholeSection) → s.old.handle.value ≡ Some x → result ≡ status.SHORT
        → length out.old < length (section_bytes x) }
    ensures memory { (x : WholeSection) → s.old.handle.value ≡ Some x → result ≢ status.OK → result ≢ status.SHORT
        → (result ≡ status.NO_MEMORY) × (0 < length (section_bytes x)) }
    ensures closed { s.old.handle.value ≡ None → result ≡ status.CLOSED }
    ensures kept { result ≢ status.OK → out.new ≡ out.old }
{
    match taken(alloc, s) {
        Some(section) => {
            let answer = written(alloc, &section);
            put(s, section);
            match answer {
                Some(bytes) => copied(bytes.as_slice(), out),
                None => NO_MEMORY,
            }
        }
        None => CLOSED,
    }
}

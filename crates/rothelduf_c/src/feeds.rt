//! A unit that is pushed in pieces, and put into a section.
ghost use Rattle.std.specs.Prelude.{◌≡◌, ◌≢◌, ◌≤◌, [], length, Some, None};
ghost use Rattle.dw_feed.specs.HeadFeed.{Reading};
ghost use Rattle.dw_section.specs.Section.{WholeSection};
ghost use Rattle.rothelduf_c.specs.Feeds.{IsEnded, IsHeldWithin, IsPushed, IsTabled, IsTaken, IsWanted, held_in, pushed_in};
ghost use Rattle.rothelduf_c.specs.Seen.{seen_held};
ghost use Rattle.rothelduf_c.specs.Opens.{order_of, versions_of};
ghost use Rattle.rothelduf_c.specs.Status as status;
ghost use Rattle.rothelduf_c.specs.declared.feeding.Feeding.{Feeding as TheFeeding};
ghost use Rattle.rothelduf_c.specs.declared.feeding.Feeding.TheVariants.{Head};

use crate::feed_handle::FeedSlot;
use crate::handle::Slot;
use crate::pushing::{end, hand_in, held, of_header, push, take, wants};
use crate::section::rothelduf_close;
use crate::status::{CLOSED, NO_MEMORY, OK};
use crate::structs::{CFault, CHeld};
use crate::{feed_handle, handle, structs};
use dw_leb::Order;
use dw_section::Section;
use dw_unit::Versions;
use std::alloc::Global;

/// Opens a section without items. What was open is closed before.
#[unsafe(no_mangle)]
pub extern "C" fn rothelduf_begin(alloc: Global, s: &mut Slot, big: bool, four: bool) -> u32
    ensures begun { result ≡ status.OK → s.new.handle.value
        ≡ Some (record { order = order_of big; versions = versions_of four; items = [] }) }
    ensures memory { result ≢ status.OK → (result ≡ status.NO_MEMORY) × (s.new.handle.value ≡ None) }
{
    rothelduf_close(alloc, s);
    let section = Section::new_as(alloc, structs::order_of(big), structs::versions_of(four));
    match Box::new(alloc, section) {
        Ok(section) => {
            handle::put(s, section);
            OK
        }
        Err(_) => NO_MEMORY,
    }
}

/// Opens a feed. What was open is closed before.
#[unsafe(no_mangle)]
pub extern "C" fn rothelduf_feed_open(alloc: Global, f: &mut FeedSlot, big: bool, four: bool) -> u32
    ensures opened { result ≡ status.OK → f.new.handle.value
        ≡ Some (Head (record { order = order_of big; versions = versions_of four; state = Reading [] })) }
    ensures memory { result ≢ status.OK → (result ≡ status.NO_MEMORY) × (f.new.handle.value ≡ None) }
{
    rothelduf_feed_close(alloc, f);
    let feeding = of_header(structs::order_of(big), structs::versions_of(four));
    match Box::new(alloc, feeding) {
        Ok(feeding) => {
            feed_handle::put(f, feeding);
            OK
        }
        Err(_) => NO_MEMORY,
    }
}

/// Frees the feed, where one is open.
#[unsafe(no_mangle)]
pub extern "C" fn rothelduf_feed_close(alloc: Global, f: &mut FeedSlot)
    ensures { f.new.handle.value ≡ None }
{
    if let Some(feeding) = feed_handle::taken(alloc, f) {
        drop(feeding);
    }
}

/// Takes bytes of a piece, and answers what they show together with those before; `count` is how many were taken.
#[unsafe(no_mangle)]
pub extern "C" fn rothelduf_feed_push(
    alloc: Global,
    f: &mut FeedSlot,
    piece: &[u8],
    count: &mut usize,
    fault: &mut CFault,
) -> u32
    ensures pushed { (old : TheFeeding) → f.old.handle.value ≡ Some old
        → (new : TheFeeding) × (f.new.handle.value ≡ Some new)
        × IsPushed old piece.now result count.new fault.new new }
    ensures room { f.old.handle.value ≢ None → count.new ≤ length piece.now }
    ensures untold { result ≢ status.FAULT → fault.new ≡ fault.old }
    ensures closed { f.old.handle.value ≡ None → (result ≡ status.CLOSED) × (f.new.handle.value ≡ None)
        × (count.new ≡ count.old) }
{
    match feed_handle::taken(alloc, f) {
        Some(mut feeding) => {
            let (answer, taken) = push(&mut feeding, piece, fault);
            feed_handle::put(f, feeding);
            *count = taken;
            answer
        }
        None => CLOSED,
    }
}

/// Hands in the bytes of `.debug_abbrev` where a header came: what follows it is read over the table that it names.
#[unsafe(no_mangle)]
pub extern "C" fn rothelduf_feed_table(
    alloc: Global,
    f: &mut FeedSlot,
    abbreviations: &[u8],
    fault: &mut CFault,
) -> u32
    ensures tabled { (old : TheFeeding) → f.old.handle.value ≡ Some old
        → (new : TheFeeding) × (f.new.handle.value ≡ Some new)
        × IsTabled old abbreviations.now result fault.new new }
    ensures untold { result ≢ status.FAULT → fault.new ≡ fault.old }
    ensures closed { f.old.handle.value ≡ None → (result ≡ status.CLOSED) × (f.new.handle.value ≡ None) }
{
    match feed_handle::taken(alloc, f) {
        Some(mut feeding) => {
            let answer = hand_in(alloc, &mut feeding, abbreviations, fault);
            feed_handle::put(f, feeding);
            answer
        }
        None => CLOSED,
    }
}

/// How many bytes of a header are needed at the least before a push can answer; 0 where no header is pushed.
#[unsafe(no_mangle)]
pub extern "C" fn rothelduf_feed_wants(alloc: Global, f: &mut FeedSlot) -> usize
    ensures same { f.new.handle.value ≡ f.old.handle.value }
    ensures wanted { (x : TheFeeding) → f.old.handle.value ≡ Some x → IsWanted x result }
    ensures closed { f.old.handle.value ≡ None → result ≡ 0 }
{
    match feed_handle::taken(alloc, f) {
        Some(feeding) => {
            let count = wants(&feeding);
            feed_handle::put(f, feeding);
            count
        }
        None => 0,
    }
}

/// Tells what the feed holds of a unit behind its header.
#[unsafe(no_mangle)]
pub extern "C" fn rothelduf_feed_held(alloc: Global, f: &mut FeedSlot, out: &mut CHeld) -> u32
    ensures same { f.new.handle.value ≡ f.old.handle.value }
    ensures held { (x : TheFeeding) → f.old.handle.value ≡ Some x
        → (result ≡ status.OK) × (out.new ≡ seen_held (held_in x)) }
    ensures within { (x : TheFeeding) → f.old.handle.value ≡ Some x → IsHeldWithin (pushed_in x) out.new }
    ensures closed { f.old.handle.value ≡ None → (result ≡ status.CLOSED) × (out.new ≡ out.old) }
{
    match feed_handle::taken(alloc, f) {
        Some(feeding) => {
            *out = held(&feeding);
            feed_handle::put(f, feeding);
            OK
        }
        None => CLOSED,
    }
}

/// The end of the input: what is missing, the fault that was answered, or that the unit has no room for a root. The feed
/// is closed.
#[unsafe(no_mangle)]
pub extern "C" fn rothelduf_feed_end(alloc: Global, f: &mut FeedSlot, fault: &mut CFault) -> u32
    ensures ended { (x : TheFeeding) → f.old.handle.value ≡ Some x → IsEnded x result fault.new }
    ensures untold { result ≢ status.FAULT → fault.new ≡ fault.old }
    ensures closed { f.old.handle.value ≡ None → result ≡ status.CLOSED }
    ensures after { f.new.handle.value ≡ None }
{
    match feed_handle::taken(alloc, f) {
        Some(mut feeding) => {
            let none = of_header(Order::Little, Versions::Five);
            end(std::mem::replace(&mut *feeding, none), fault)
        }
        None => CLOSED,
    }
}

/// Puts the unit that came behind the items of a section. The feed then takes the next header, as the section's
/// units have.
#[unsafe(no_mangle)]
pub extern "C" fn rothelduf_feed_take(
    alloc: Global,
    f: &mut FeedSlot,
    s: &mut Slot,
    why: &mut u32,
) -> u32
    ensures taken { (old : TheFeeding) (x : WholeSection) → f.old.handle.value ≡ Some old → s.old.handle.value ≡ Some x
        → (new : TheFeeding) × (y : WholeSection) × (f.new.handle.value ≡ Some new) × (s.new.handle.value ≡ Some y)
        × IsTaken old x result why.new new y }
    ensures untold { result ≢ status.REFUSED → why.new ≡ why.old }
    ensures closed { f.old.handle.value ≡ None → (result ≡ status.CLOSED) × (f.new.handle.value ≡ None)
        × (s.new.handle.value ≡ s.old.handle.value) }
    ensures no_section { s.old.handle.value ≡ None → (result ≡ status.CLOSED) × (s.new.handle.value ≡ None)
        × (f.new.handle.value ≡ f.old.handle.value) }
{
    let Some(mut feeding) = feed_handle::taken(alloc, f) else {
        return CLOSED;
    };
    let answer = match handle::taken(alloc, s) {
        Some(mut section) => {
            let answer = take(&mut feeding, &mut section, why);
            handle::put(s, section);
            answer
        }
        None => CLOSED,
    };
    feed_handle::put(f, feeding);
    answer
}

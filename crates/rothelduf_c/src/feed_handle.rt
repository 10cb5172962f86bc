//! What C holds of a feed, as `handle` of a section.
ghost use Rattle.std.specs.Prelude.{◌≡◌, Some, None, IsSome, is_some, option_map};
ghost use Rattle.rothelduf_c.specs.FeedOwned.{held_value, held_coded, held_owns};

use crate::feeding::Feeding;
use crate::parts::Parts;
use std::alloc::Global;
use std::marker::Model;

/// The pointer, and what it owns: a feed, or nothing.
#[repr(C)]
#[derive(Drop)]
pub struct FeedHandle {
    at: *mut (),
    alloc: Global,
    pub ghost value: { held_value } by { held_coded },
}

impl Model for FeedHandle {
    ghost also_owns = { λ h. held_owns h.alloc h.at h.value };
}

impl FeedHandle {
    fn of_parts(parts: Parts<Feeding, Global>) -> FeedHandle
        ensures { result.value ≡ Some parts.value }
    {
        let Parts { ptr, alloc } = parts;
        FeedHandle {
            at: ptr as *mut (),
            alloc,
        }
    }

    fn into_parts(self) -> Parts<Feeding, Global>
        requires { IsSome self.value }
        ensures { self.value ≡ Some result.value }
    {
        let FeedHandle { at, alloc } = self;
        Parts {
            ptr: at as *mut Feeding,
            alloc,
        }
    }

    fn empty(at: *mut (), alloc: Global) -> FeedHandle
        ensures { result.value ≡ None }
    {
        FeedHandle { at, alloc }
    }

    /// Of no feed. It takes no memory.
    fn none(alloc: Global) -> FeedHandle
        ensures { result.value ≡ None }
    {
        let at: *mut () = std::ptr::null_mut();
        FeedHandle::empty(at, alloc)
    }

    /// Of the feed in this box.
    fn of(b: Box<Feeding>) -> FeedHandle
        ensures { result.value ≡ Some b.value }
    {
        FeedHandle::of_parts(Parts::of(b))
    }

    /// The box again.
    fn into_box(self) -> Box<Feeding>
        requires { IsSome self.value }
        ensures { self.value ≡ Some result.value }
    {
        self.into_parts().into_box()
    }
}

/// What C passes: whether it holds a feed, and which. All zero bytes are one of no feed.
#[repr(C)]
#[derive(Drop)]
pub struct FeedSlot {
    pub is_open: bool,
    pub handle: FeedHandle,
    ghost agrees: { is_some handle.value ≡ is_open },
}

/// Takes the feed out, where there is one.
pub fn taken(alloc: Global, s: &mut FeedSlot) -> Option<Box<Feeding>>
    ensures out { option_map (λ b. b.value) result ≡ s.old.handle.value }
    ensures after { s.new.handle.value ≡ None }
{
    if !s.is_open {
        return None;
    }
    let none = FeedSlot {
        is_open: false,
        handle: FeedHandle::none(alloc),
    };
    let old = std::mem::replace(s, none);
    Some(old.handle.into_box())
}

/// Puts one in.
pub fn put(s: &mut FeedSlot, b: Box<Feeding>)
    requires { s.old.handle.value ≡ None }
    ensures { s.new.handle.value ≡ Some b.value }
{
    *s = FeedSlot {
        is_open: true,
        handle: FeedHandle::of(b),
    };
}

//! Reading values.
ghost use Rattle.std.specs.Prelude.{◌≡◌, ◌≤◌, ◌++◌, ℕ, length, take, vec_len, vec_capacity, Err, IfOk, IfErr, OnErr, MatchResult, option_map};
ghost use Rattle.dw_leb.specs.Part.{Taken};
ghost use Rattle.dw_leb.specs.View.{sleb_of};
ghost use Rattle.dw_form.specs.Form.{Attribute, attribute, IsContext};
ghost use Rattle.dw_form.specs.StoredView.{content, bytes_in, StoredFits};
ghost use Rattle.dw_form.specs.Pieces.{HasSpelling, spelling};
ghost use Rattle.dw_form.specs.ValueErrors.{IsValueError, LacksRoom};
ghost use Rattle.dw_form.specs.declared.read.ValueError.TheVariants.{Bad, NoMemory};
ghost use Rattle.dw_leb.specs.declared.errors.Reason.{Reason};

use crate::lend::lend_value;
use crate::shape::Ctx;
use crate::stored::Stored;
use dw_leb::{Reason, Sleb};
use std::alloc::{AllocError, Global};
use thiserror::Error;

/// Why no value was read.
#[derive(Clone, Copy, Debug, PartialEq, Eq, Error)]
pub enum ValueError {
    /// The bytes are refused, for this reason.
    #[error("{0}")]
    Bad(Reason),
    /// The pool could not grow by the bytes of the text or block.
    #[error("memory")]
    NoMemory,
}

impl From<Reason> for ValueError {
    ghost from_gives = { λ reason out. out ≡ Bad reason };

    fn from(reason: Reason) -> ValueError {
        ValueError::Bad(reason)
    }
}

impl From<AllocError> for ValueError {
    ghost from_gives = { λ _ out. out ≡ NoMemory };

    fn from(_error: AllocError) -> ValueError {
        ValueError::NoMemory
    }
}

/// Reads the value of form `form` at the front of `b`, where `lim` bytes are left to the unit's
/// end, and gives it and the count of its bytes. Its text or block goes to the end of `pool`; any
/// other value leaves the pool as it was.
///
/// `implicit` and the reasons of `Bad` are those of `lend_value`. `NoMemory` is returned only for a
/// value that is there and whose text or block has no room in the pool. On an error the pool holds
/// what it held; where the bytes are refused it isn't touched at all, so nothing grows by a length
/// that was only announced.
pub fn read_value(
    _alloc: Global,
    ctx: Ctx,
    form: u64,
    implicit: Option<Sleb>,
    b: &[u8],
    lim: u64,
    pool: &mut Vec<u8>,
) -> Result<(Stored, usize), ValueError>
    requires { IsContext ctx }
    ensures found { IfOk result (λ x.
        Taken (attribute ctx form (option_map sleb_of implicit)) b.now lim
        (content pool.new.items x.0) x.1) }
    ensures only { (x : Attribute) (size : ℕ)
        → Taken (attribute ctx form (option_map sleb_of implicit)) b.now lim x size
        → MatchResult result (λ y. (content pool.new.items y.0 ≡ x) × (y.1 ≡ size)) (λ e. e ≡ NoMemory) }
    ensures spelled { IfOk result (λ x. HasSpelling ctx form (content pool.new.items x.0)) }
    ensures bytes { IfOk result (λ x.
        spelling ctx form (content pool.new.items x.0) ≡ take x.1 b.now) }
    ensures broken { IfErr result
        (IsValueError (attribute ctx form (option_map sleb_of implicit)) b.now lim) }
    ensures pool { IfOk result (λ x.
        pool.new.items ≡ pool.old.items ++ bytes_in (content pool.new.items x.0)) }
    ensures fits { IfOk result (λ x. StoredFits (vec_len pool.new) x.0) }
    ensures full { IfErr result
        (LacksRoom (attribute ctx form (option_map sleb_of implicit)) b.now lim
        (vec_len pool.old) (vec_capacity pool.old)) }
    ensures untouched { (reason : Reason) → result ≡ Err (Bad reason) → pool.new ≡ pool.old }
    ensures unchanged { OnErr result (pool.new.items ≡ pool.old.items) }
    ensures room { IfOk result (λ x. (x.1 ≤ length b.now) × (x.1 ≤ lim)) }
{
    let (value, size) = lend_value(ctx, form, implicit, b, lim)?;
    let stored = Stored::keep(&value, pool)?;
    Ok((stored, size))
}

//! Values of attributes, stored over a pool of bytes.
ghost use Rattle.std.specs.Prelude.{◌≡◌, ◌≤◌, ◌<◌, ◌+◌, ◌*◌, ◌^◌, ◌++◌, length, drop, vec_len, vec_capacity, option_map, IfOk, IfSome, OnErr};
ghost use Rattle.dw_leb.specs.View.{uleb_of};
ghost use Rattle.dw_form.specs.Lent.{attribute_of};
ghost use Rattle.dw_form.specs.StoredView.{content, bytes_in, text_or_block, via_form, StoredFits, NamesForm};

use crate::span::Span;
use crate::value::{AttrValue, Value};
use crate::via::Via;
use dw_leb::{Sleb, Uleb};
use std::alloc::AllocError;

/// A value whose text or block is a span of a pool of bytes. It is of use with that pool alone, to
/// which bytes may have been appended. It has 24 bytes, as a unit's list has one for each of
/// its values.
#[derive(Clone, Copy, Debug)]
pub struct Stored {
    kept: Kept,
}

/// Each value with its indirect form first, so that this lies in the bytes before the words.
#[derive(Clone, Copy, Debug)]
enum Kept {
    Num(Option<Via>, u64),
    /// The lower and the upper eight bytes.
    Wide(Option<Via>, u64, u64),
    Uleb(Option<Via>, Uleb),
    Sleb(Option<Via>, Sleb),
    /// The width of its length first.
    Block(u8, Option<Via>, Span),
    Text(Option<Via>, Span),
    Present(Option<Via>),
    Implicit(Option<Via>, Sleb),
}

impl Stored {
    /// Stores a value, its text or block being copied to the end of the pool. The error says that
    /// the pool had no room for them and could not grow; it holds then what it held.
    ///
    /// An indirect value names a form by a number of 16 bits, as every value that has a spelling
    /// does.
    #[inline(always)]
    pub fn keep(value: &AttrValue<'_>, pool: &mut Vec<u8>) -> Result<Stored, AllocError>
        requires { NamesForm (attribute_of value.now) }
        ensures pool { IfOk result (λ _.
            pool.new.items ≡ pool.old.items ++ bytes_in (attribute_of value.now)) }
        ensures content { IfOk result (λ s. content pool.new.items s ≡ attribute_of value.now) }
        ensures fits { IfOk result (λ s. StoredFits (vec_len pool.new) s) }
        ensures err { OnErr result (pool.new.items ≡ pool.old.items) }
        ensures full { OnErr result
            (vec_capacity pool.old
            < vec_len pool.old + length (bytes_in (attribute_of value.now))) }
    {
        let via = named(value.via);
        let kept = match value.value {
            Value::Num(x) => Kept::Num(via, x),
            Value::Wide(x) => {
                let (low, high) = halves(x);
                Kept::Wide(via, low, high)
            }
            Value::Uleb(x) => Kept::Uleb(via, x),
            Value::Sleb(x) => Kept::Sleb(via, x),
            Value::Block { width, bytes } => Kept::Block(width, via, Span::append(pool, bytes)?),
            Value::Text(bytes) => Kept::Text(via, Span::append(pool, bytes)?),
            Value::Present => Kept::Present(via),
            Value::Implicit(x) => Kept::Implicit(via, x),
        };
        Ok(Stored { kept })
    }

    /// Stores a text, or a block whose length field has `width` bytes, that is already in the
    /// pool: its bytes are those from `start` to the pool's end.
    ///
    /// An indirect value names a form by a number of 16 bits.
    pub fn of_end(via: Option<Uleb>, width: Option<u8>, start: usize, pool: &[u8]) -> Stored
        requires names { IfSome via (λ u. u.value < 2 ^ 16) }
        requires within { start ≤ length pool.now }
        ensures content { content pool.now result
            ≡ record { via = option_map uleb_of via; value = text_or_block width (drop start pool.now) } }
        ensures fits { StoredFits (length pool.now) result }
    {
        let via = named(via);
        let span = Span::end_of(pool, start);
        let kept = match width {
            Some(width) => Kept::Block(width, via, span),
            None => Kept::Text(via, span),
        };
        Stored { kept }
    }

    /// The value, with its bytes borrowed from the pool in which it was stored, or from one that
    /// begins with it.
    #[inline(always)]
    pub fn lend<'a>(&self, pool: &'a [u8]) -> AttrValue<'a>
        requires { StoredFits (length pool.now) self.now }
        ensures { attribute_of result ≡ content pool.now self.now }
    {
        let (via, value) = match self.kept {
            Kept::Num(via, x) => (via, Value::Num(x)),
            Kept::Wide(via, low, high) => (via, Value::Wide(whole(low, high))),
            Kept::Uleb(via, x) => (via, Value::Uleb(x)),
            Kept::Sleb(via, x) => (via, Value::Sleb(x)),
            Kept::Block(width, via, span) => {
                let bytes = span.of(pool);
                (via, Value::Block { width, bytes })
            }
            Kept::Text(via, span) => (via, Value::Text(span.of(pool))),
            Kept::Present(via) => (via, Value::Present),
            Kept::Implicit(via, x) => (via, Value::Implicit(x)),
        };
        let via = match via {
            Some(via) => Some(via.number()),
            None => None,
        };
        AttrValue { via, value }
    }
}

/// The form that an indirect value names, as it is kept.
#[inline(always)]
fn named(form: Option<Uleb>) -> Option<Via>
    requires { IfSome form (λ u. u.value < 2 ^ 16) }
    ensures { option_map via_form result ≡ option_map uleb_of form }
{
    match form {
        Some(form) => Some(Via::new(form)),
        None => None,
    }
}

/// The lower and the upper eight bytes of a number of sixteen.
fn halves(x: u128) -> (u64, u64)
    ensures { result.0 + 2 ^ 64 * result.1 ≡ x }
{
    ((x % (1 << 64)) as u64, (x / (1 << 64)) as u64)
}

/// The number of which these are the lower and the upper eight bytes.
fn whole(low: u64, high: u64) -> u128
    ensures { result ≡ low + 2 ^ 64 * high }
{
    low as u128 + (1 << 64) * high as u128
}

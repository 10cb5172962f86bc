//! Values at the place of a unit under construction, and the forms that indirect values name (section 7.5.3).
ghost use Rattle.std.specs.Prelude.{◌≡◌, ◌≤◌, ◌<◌, ◌↔◌, ◌++◌, length, drop, IsTrue, IsSomeAnd, IfOk, None, Some};
ghost use Rattle.dw_leb.specs.Part.{Taken, judged};
ghost use Rattle.dw_leb.specs.Number.{uleb};
ghost use Rattle.dw_leb.specs.View.{uleb_of, sleb_of};
ghost use Rattle.dw_leb.specs.Reader.{checked, outcome_of};
ghost use Rattle.dw_leb.specs.ReadNumber.{read_uleb, read_sleb};
ghost use Rattle.dw_form.specs.Form.{IsContext, attribute, bad_inner};
ghost use Rattle.dw_form.specs.Lent.{attribute_of, lent_outcome};
ghost use Rattle.dw_form.specs.ReadForm.{read_attribute};
ghost use Rattle.dw_abbrev.specs.PairView.{pair_of};
ghost use Rattle.dw_feed.specs.PlainValues.{PlainAt, told_size};
ghost use Rattle.dw_feed.specs.PlainSizes.{IfWhole};
ghost use Rattle.dw_feed.specs.FirstValues.{FirstsAreTold};

use crate::code::number;
use arrayvec::ArrayVec;
use dw_abbrev::{Decl, Pair};
use dw_form::{AttrValue, Ctx, Shape, lend_value};
use dw_leb::constants::form::{DW_FORM_IMPLICIT_CONST, DW_FORM_INDIRECT};
use dw_leb::{Reason, Sleb, Uleb};

/// The value of this pair at the front of `b`, of which `lim` bytes are left to the unit's end.
pub(crate) fn value_at<'a>(
    context: Ctx,
    pair: &Pair,
    b: &'a [u8],
    lim: u64,
) -> Result<(AttrValue<'a>, usize), Reason>
    requires { IsContext context }
    ensures exact { read_attribute context (pair_of pair.now).form.value (pair_of pair.now).constant b.now lim
        ≡ lent_outcome attribute_of result }
    ensures found { IfOk result
        (λ x.
        Taken (attribute context (pair_of pair.now).form.value (pair_of pair.now).constant) b.now lim
        (attribute_of x.0) x.1) }
    ensures room { IfOk result (λ x. (x.1 ≤ length b.now) × (x.1 ≤ lim)) }
{
    lend_value(context, pair.form.value, pair.constant, b, lim)
}

/// How many bytes the value of this pair has, where its form alone tells (section 7.5.6).
#[inline(always)]
pub(crate) fn told_size(context: Ctx, pair: &Pair) -> Option<usize>
    requires { IsContext context }
    ensures { result ≡ told_size context (pair_of pair.now) }
{
    match Shape::of(pair.form.value, context.address_size, context.format)? {
        Shape::Fixed(size) => Some(size as usize),
        Shape::Present => Some(0),
        Shape::Implicit => match pair.constant {
            Some(_) => Some(0),
            None => None,
        },
        _ => None,
    }
}

/// What is known of a value's size before it is read.
#[derive(Clone, Copy)]
pub(crate) enum PlainSize {
    /// It is no text or block, and stands whole at the front, with so many bytes.
    Whole(usize),
    /// It has no bytes: it is a flag that is present, or a constant of its declaration.
    NoBytes,
    /// It is no text or block, and doesn't stand whole there, or is refused.
    Cut,
    /// Its form doesn't tell.
    Untold,
}

/// How many bytes the value of this pair has, where it is no text or block and at the front of `b`, of which `lim`
/// bytes are left to the unit's end. The form is looked at once, and a number in LEB128 read once.
#[inline(always)]
pub(crate) fn plain_size(context: Ctx, pair: &Pair, b: &[u8], lim: u64) -> PlainSize
    requires { IsContext context }
    ensures plain { IfWhole result (PlainAt context (pair_of pair.now) b.now lim) }
    ensures room { IfWhole result (λ n. n ≤ length b.now) }
{
    match Shape::of(pair.form.value, context.address_size, context.format) {
        Some(Shape::Fixed(size)) => {
            if size as usize <= b.len() && size as u64 <= lim {
                PlainSize::Whole(size as usize)
            } else {
                PlainSize::Cut
            }
        }
        Some(Shape::Present) => PlainSize::NoBytes,
        Some(Shape::Implicit) => match pair.constant {
            Some(_) => PlainSize::NoBytes,
            None => PlainSize::Untold,
        },
        Some(Shape::Uleb) => match number(b, lim) {
            Ok(number) => PlainSize::Whole(number.width as usize),
            Err(_) => PlainSize::Cut,
        },
        Some(Shape::Sleb) => match signed(b, lim) {
            Ok(number) => PlainSize::Whole(number.width as usize),
            Err(_) => PlainSize::Cut,
        },
        _ => PlainSize::Untold,
    }
}

/// A signed number, as the plain reader's outcome.
fn signed(b: &[u8], lim: u64) -> Result<Sleb, Reason>
    ensures exact { read_sleb b.now lim ≡ outcome_of sleb_of (λ x. x.width) result }
    ensures room { IfOk result (λ x. (x.width ≤ length b.now) × (x.width ≤ lim)) }
{
    Sleb::read(b, lim)
}

/// Whether a value has so many bytes, and fewer are there, where the unit has them.
#[inline(always)]
pub(crate) fn is_short(told: Option<usize>, count: usize, lim: u64) -> bool
    ensures { IsTrue result ↔ IsSomeAnd told (λ size. (count < size) × (size ≤ lim)) }
{
    match told {
        Some(size) => count < size && size as u64 <= lim,
        None => false,
    }
}

/// The first values of an entry: how many they are, and how many bytes they have in all.
#[derive(Clone, Copy)]
pub(crate) struct FirstValues {
    pub(crate) count: usize,
    pub(crate) size: usize,
}

/// The first values of an entry of this declaration, as many as have sizes that their forms tell (section 7.5.6),
/// where there are as many bytes, of which `lim` are left to the unit's end. Else none.
#[inline(always)]
pub(crate) fn first_values(context: Ctx, decl: &Decl, bytes: usize, lim: u64) -> FirstValues
    ensures told { FirstsAreTold context decl.now.pairs result.count result.size }
    ensures there { result.size ≤ bytes }
    ensures within { result.size ≤ lim }
{
    let prefix = decl.prefix();
    let size = prefix.size(context.address_size, context.format.offset_size());
    if size <= bytes && size as u64 <= lim {
        FirstValues {
            count: prefix.count as usize,
            size,
        }
    } else {
        FirstValues { count: 0, size: 0 }
    }
}

/// The form that an indirect value names, at the front of `b`, of which `lim` bytes are left to the unit's
/// end.
pub(crate) fn form_at(b: &[u8], lim: u64) -> Result<Uleb, Reason>
    ensures exact { checked read_uleb bad_inner b.now lim ≡ outcome_of uleb_of (λ x. x.width) result }
    ensures found { IfOk result (λ x. Taken (judged uleb bad_inner) b.now lim (uleb_of x) x.width) }
    ensures room { IfOk result (λ x. (x.width ≤ length b.now) × (x.width ≤ lim)) }
{
    inner_form(b, lim)
}

/// The same, as the plain reader's outcome.
fn inner_form(b: &[u8], lim: u64) -> Result<Uleb, Reason>
    ensures exact { checked read_uleb bad_inner b.now lim ≡ outcome_of uleb_of (λ x. x.width) result }
    ensures room { IfOk result (λ x. (x.width ≤ length b.now) × (x.width ≤ lim)) }
{
    let form = number(b, lim)?;
    if form.value == DW_FORM_INDIRECT || form.value == DW_FORM_IMPLICIT_CONST {
        return Err(Reason::BadIndirect);
    }
    Ok(form)
}

/// Two lists of bytes, one behind the other.
pub(crate) fn joined(a: &[u8], b: &[u8]) -> ArrayVec<u8, 32>
    requires first { length a.now ≤ 16 }
    requires second { length b.now ≤ 16 }
    ensures { result.items ≡ a.now ++ b.now }
{
    let mut all = ArrayVec::new();
    let _first = all.try_extend_from_slice(a);
    let _second = all.try_extend_from_slice(b);
    all
}

/// The bytes without the first `count`.
pub(crate) fn without_front(bytes: &[u8], count: usize) -> ArrayVec<u8, 16>
    requires few { length bytes.now ≤ 16 }
    requires there { count ≤ length bytes.now }
    ensures { result.items ≡ drop count bytes.now }
{
    let mut rest = ArrayVec::new();
    let _all = rest.try_extend_from_slice(&bytes[count..]);
    rest
}

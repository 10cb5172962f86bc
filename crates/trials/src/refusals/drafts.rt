//! A unit that is made step by step. A caller tests what each step asks for by the draft's own observers.
ghost use Rattle.std.specs.Prelude.{◌≡◌, ◌<◌, ◌+◌, ◌∷◌, [], IsTrue, None, Some, false, length};
ghost use Rattle.dw_form.specs.declared.shape.Ctx.{Ctx as TheCtx};
ghost use Rattle.dw_form.specs.Lent.{attribute_of};
ghost use Rattle.dw_abbrev.specs.Table.{declared};
ghost use Rattle.dw_header.specs.Header.{context_of};
ghost use Rattle.dw_tree.specs.Steps.{NextFits, SpellsFirst, partial_in};
ghost use Rattle.dw_tree.specs.Tree.{nesting};
ghost use Rattle.dw_unit.specs.Draft.{IsOnlyRoot, PartialFits, PartialShort, passes_limit, value_bytes};

use crate::refusals::samples::{header, table};
use crate::refusals::told;
use dw_form::{fits, size_of};
use rothelduf::constants::form::DW_FORM_DATA1;
use rothelduf::{AttrValue, Decl, Draft, ReadError, Uleb, Value};
use std::alloc::{AllocError, Global};

/// What of a draft is seen from outside.
#[derive(Clone, Copy, PartialEq, Eq)]
struct Seen {
    size: u64,
    depth: usize,
    is_empty: bool,
    is_read: bool,
    is_partial: bool,
}

fn seen_of(draft: &Draft) -> Seen {
    Seen {
        size: draft.size(),
        depth: draft.depth(),
        is_empty: draft.is_empty(),
        is_read: draft.next_pair().is_some(),
        is_partial: draft.partial_value().is_some(),
    }
}

/// Tells that a step was refused memory, and whether the draft isn't what it was.
fn tell_refused(
    draft: &Draft,
    before: Seen,
    call: &str,
    text: &mut String,
) -> Result<(), AllocError> {
    told::refused(text, call)?;
    if seen_of(draft) == before {
        Ok(())
    } else {
        told::changed(text, call)
    }
}

/// A root whose name comes in pieces, with twenty children, one of them taken back first, and a null of padding. The
/// last ten begin with their values.
pub(crate) fn tell(alloc: Global, text: &mut String) -> Result<(), ReadError> {
    let mut draft = Draft::new(alloc, header()?, table(alloc)?);
    fill(&mut draft, text)?;
    if draft.next_pair().is_some() || draft.depth() != 0 || draft.is_empty() {
        return Ok(text.push_str("draft FAILED\n")?);
    }
    Ok(told::unit(alloc, text, &draft.finish())?)
}

fn fill(draft: &mut Draft, text: &mut String) -> Result<(), AllocError> {
    begin(draft, 1, text)?;
    start(draft, text)?;
    for _ in 0..8 {
        lengthen(draft, b"generated", text)?;
    }
    end(draft, text)?;
    begin(draft, 2, text)?;
    if draft.next_pair().is_some() {
        draft.undo();
    }
    for size in 0..10 {
        begin(draft, 2, text)?;
        give(draft, AttrValue::from(Value::Num(size)), text)?;
    }
    for _ in 0..10 {
        begin_with(draft, Uleb::least(2), text)?;
    }
    close(draft, 2, text)?;
    pad(draft, 1, text)
}

/// An entry of this code begins, where one can.
pub(crate) fn begin(draft: &mut Draft, code: u64, text: &mut String) -> Result<(), AllocError> {
    let code = Uleb::least(code);
    let is_second_root = draft.depth() == 0 && !draft.is_empty();
    if draft.next_pair().is_some() || is_second_root || !draft.has_level() {
        return text.push_str("begin FAILED\n");
    }
    if code.value == 0 || draft.table().get(code.value).is_none() {
        return text.push_str("begin FAILED\n");
    }
    if draft.is_too_long(code.width as u64) {
        return text.push_str("begin FAILED\n");
    }
    let before = seen_of(draft);
    if draft.begin(code).is_err() {
        tell_refused(draft, before, "begin", text)?;
        draft.begin(code)?;
    }
    told::taken(text, "begin")
}

/// An entry of this code begins with its value, where one can.
fn begin_with(draft: &mut Draft, code: Uleb, text: &mut String) -> Result<(), AllocError> {
    let table = draft.share_table()?;
    match table.get(code.value) {
        Some(decl) => begin_declared(draft, code, decl, text),
        None => text.push_str("begin_with FAILED\n"),
    }
}

fn begin_declared(
    draft: &mut Draft,
    code: Uleb,
    decl: &Decl,
    text: &mut String,
) -> Result<(), AllocError>
    requires { declared draft.old.table code.value ≡ Some decl.now }
{
    if draft.next_pair().is_some() || draft.depth() == 0 || !draft.has_level() {
        return text.push_str("begin_with FAILED\n");
    }
    if code.value == 0 || !takes_a_byte(decl) || draft.is_too_long(code.width as u64 + 1) {
        return text.push_str("begin_with FAILED\n");
    }
    begin_with_byte(draft, code, decl, text)
}

/// Whether the first value of its entries is a byte.
fn takes_a_byte(decl: &Decl) -> bool
    ensures { IsTrue result → (k : TheCtx) → SpellsFirst k decl.now.pairs 1 (7 ∷ []) }
{
    match decl.pairs().split_first() {
        Some((pair, _)) => pair.form.value == DW_FORM_DATA1,
        None => false,
    }
}

/// The same where it is, by that byte.
fn begin_with_byte(
    draft: &mut Draft,
    code: Uleb,
    decl: &Decl,
    text: &mut String,
) -> Result<(), AllocError>
    requires some { 0 < code.value }
    requires known { declared draft.old.table code.value ≡ Some decl.now }
    requires free { draft.old.place.unfinished ≡ None }
    requires level { length draft.old.place.spot.above < nesting }
    requires only { IsOnlyRoot draft.old.place.spot }
    requires spelled { SpellsFirst (context_of draft.old.header) decl.now.pairs 1 (7 ∷ []) }
    requires short { passes_limit draft.old (code.width + 1) ≡ false }
{
    let before = seen_of(draft);
    match draft.begin_with(code, decl, &[7], 1, 1) {
        Ok(is_given) => tell_begun(draft, is_given, text),
        Err(_) => {
            tell_refused(draft, before, "begin_with", text)?;
            let is_given = draft.begin_with(code, decl, &[7], 1, 1)?;
            tell_begun(draft, is_given, text)
        }
    }
}

/// The entry has its value, or waits for it where that was refused memory, and is given it now.
fn tell_begun(draft: &mut Draft, is_given: bool, text: &mut String) -> Result<(), AllocError> {
    told::taken(text, "begin_with")?;
    if is_given {
        return told::taken(text, "value");
    }
    told::refused(text, "begin_with")?;
    give(draft, AttrValue::from(Value::Num(7)), text)
}

/// The unfinished entry is given a value that fits.
pub(crate) fn give(
    draft: &mut Draft,
    value: AttrValue<'_>,
    text: &mut String,
) -> Result<(), AllocError> {
    if draft.partial_value().is_some() {
        return text.push_str("value FAILED\n");
    }
    let Some(pair) = draft.next_pair() else {
        return text.push_str("value FAILED\n");
    };
    let ctx = draft.header().context();
    if !fits(ctx, pair.form.value, pair.constant, &value) {
        return text.push_str("value FAILED\n");
    }
    if draft.is_too_long(size_of(ctx, pair.form.value, &value)) {
        return text.push_str("value FAILED\n");
    }
    give_fitting(draft, &value, text)
}

/// The same, where it fits.
fn give_fitting(
    draft: &mut Draft,
    value: &AttrValue<'_>,
    text: &mut String,
) -> Result<(), AllocError>
    requires between { partial_in draft.old.place.unfinished ≡ None }
    requires fits { NextFits (context_of draft.old.header) draft.old.table draft.old.place.unfinished
        (attribute_of value.now) }
    requires short { passes_limit draft.old (length (value_bytes draft.old (attribute_of value.now))) ≡ false }
{
    let before = seen_of(draft);
    if draft.value(value).is_err() {
        tell_refused(draft, before, "value", text)?;
        draft.value(value)?;
    }
    told::taken(text, "value")
}

/// A text begins as the next value of the unfinished entry.
pub(crate) fn start(draft: &mut Draft, text: &mut String) -> Result<(), AllocError> {
    if draft.next_pair().is_none() || draft.partial_value().is_some() {
        return text.push_str("start FAILED\n");
    }
    let before = seen_of(draft);
    if draft.start(None, None).is_err() {
        tell_refused(draft, before, "start", text)?;
        draft.start(None, None)?;
    }
    told::taken(text, "start")
}

/// The partial text is given more of its bytes.
pub(crate) fn lengthen(
    draft: &mut Draft,
    piece: &[u8],
    text: &mut String,
) -> Result<(), AllocError> {
    if draft.partial_value().is_none() {
        return text.push_str("bytes FAILED\n");
    }
    let before = seen_of(draft);
    if draft.bytes(piece).is_err() {
        tell_refused(draft, before, "bytes", text)?;
        draft.bytes(piece)?;
    }
    told::taken(text, "bytes")
}

/// Whether the partial text fits as it is.
fn can_end(draft: &Draft) -> bool
    ensures { IsTrue result → (PartialFits draft.now × PartialShort draft.now) }
{
    let Some(pair) = draft.next_pair() else {
        return false;
    };
    let Some(partial) = draft.partial_value() else {
        return false;
    };
    let ctx = draft.header().context();
    if !fits(ctx, pair.form.value, pair.constant, &partial) {
        return false;
    }
    !draft.is_too_long(size_of(ctx, pair.form.value, &partial))
}

/// The partial text has all its bytes.
pub(crate) fn end(draft: &mut Draft, text: &mut String) -> Result<(), AllocError> {
    if !can_end(draft) {
        return text.push_str("end_value FAILED\n");
    }
    draft.end_value();
    told::taken(text, "end_value")
}

/// The innermost open entry is closed, where one is open.
pub(crate) fn close(draft: &mut Draft, width: u8, text: &mut String) -> Result<(), AllocError> {
    if draft.next_pair().is_some() || draft.depth() == 0 {
        return text.push_str("close FAILED\n");
    }
    if width < 1 || width > 16 || draft.is_too_long(width as u64) {
        return text.push_str("close FAILED\n");
    }
    let before = seen_of(draft);
    if draft.close(width).is_err() {
        tell_refused(draft, before, "close", text)?;
        draft.close(width)?;
    }
    told::taken(text, "close")
}

/// One more null of the padding, where the root is closed.
fn pad(draft: &mut Draft, width: u8, text: &mut String) -> Result<(), AllocError> {
    if draft.next_pair().is_some() || draft.depth() != 0 || draft.is_empty() {
        return text.push_str("pad FAILED\n");
    }
    if width < 1 || width > 16 || draft.is_too_long(width as u64) {
        return text.push_str("pad FAILED\n");
    }
    let before = seen_of(draft);
    if draft.pad(width).is_err() {
        tell_refused(draft, before, "pad", text)?;
        draft.pad(width)?;
    }
    told::taken(text, "pad")
}

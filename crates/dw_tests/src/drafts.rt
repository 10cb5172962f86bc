//! What no clause says of drafts: each call once with memory to spare, by a caller that tests what a
//! call asks for with the draft's own observers, and makes it again where memory is refused; an entry
//! taken back. The same unit of a builder is a case of `library_cases`.
ghost use Rattle.std.specs.Prelude.{IsTrue};
ghost use Rattle.dw_unit.specs.Draft.{PartialFits, PartialShort};

use crate::common::{PADDED, TYPED, same, writes};
use dw_abbrev::Tables;
use dw_form::{AttrValue, Value, fits, size_of};
use dw_leb::{Format, Order, Uleb};
use dw_unit::{Draft, Header, Kind, Unit};
use std::alloc::Global;
use std::process::Abort;
use std::test::Fail;

/// A draft of a compile unit over the table of a root and a child.
fn drafted(alloc: Global) -> Result<Draft, Fail> {
    let header = Header::new(Order::Little, Format::Dwarf32, Kind::Compile, 8, 0).ok_or(
        "no header",
    )?;
    let table = Tables::new(alloc, &TYPED).get(0)?;
    Ok(Draft::new(alloc, header, table))
}

fn name() -> AttrValue<'static> {
    AttrValue::from(Value::Text(&[0x61]))
}

fn four() -> AttrValue<'static> {
    AttrValue::from(Value::Num(4))
}

/// The code 1 in two bytes.
fn wide_one() -> Result<Uleb, Fail> {
    Ok(Uleb::with_width(1, 2).ok_or("no such width")?)
}

/// An entry of this code begins, where one can.
fn begun(draft: &mut Draft, code: Uleb) -> Result<(), Fail> {
    if draft.next_pair().is_some() {
        return Err("an entry is read".into());
    }
    if code.value == 0 || draft.table().get(code.value).is_none() {
        return Err("an unknown code".into());
    }
    let depth = draft.depth();
    let is_second_root = depth == 0 && !draft.is_empty();
    if !draft.has_level() || is_second_root || draft.is_too_long(code.width as u64) {
        return Err("no place".into());
    }
    if draft.begin(code).is_err() {
        draft.begin(code)?;
    }
    Ok(())
}

/// The unfinished entry is given a value that fits.
fn given(draft: &mut Draft, value: AttrValue<'_>) -> Result<(), Fail> {
    if draft.partial_value().is_some() {
        return Err("a value is partial".into());
    }
    let Some(pair) = draft.next_pair() else {
        return Err("no entry is read".into());
    };
    let ctx = draft.header().context();
    if !fits(ctx, pair.form.value, pair.constant, &value) {
        return Err("a wrong value".into());
    }
    if draft.is_too_long(size_of(ctx, pair.form.value, &value)) {
        return Err("too long".into());
    }
    if let Err(_) = draft.value(&value) {
        draft.value(&value)?;
    }
    Ok(())
}

/// A text begins as the next value of the unfinished entry.
fn started(draft: &mut Draft) -> Result<(), Fail> {
    if draft.next_pair().is_none() || draft.partial_value().is_some() {
        return Err("no value can begin".into());
    }
    if draft.start(None, None).is_err() {
        draft.start(None, None)?;
    }
    Ok(())
}

/// The partial text is given more of its bytes.
fn lengthened(draft: &mut Draft, piece: &[u8]) -> Result<(), Fail> {
    if draft.partial_value().is_none() {
        return Err("no value is partial".into());
    }
    if draft.bytes(piece).is_err() {
        draft.bytes(piece)?;
    }
    Ok(())
}

/// Whether the partial text fits as it is.
fn can_end(draft: &Draft) -> bool
    ensures { IsTrue result → (PartialFits draft.now × PartialShort draft.now) }
{
    let Some(pair) = draft.next_pair() else {
        return false;
    };
    let Some(partial) = draft.partial_value() else {
        return false;
    };
    let ctx = draft.header().context();
    if !fits(ctx, pair.form.value, pair.constant, &partial) {
        return false;
    }
    !draft.is_too_long(size_of(ctx, pair.form.value, &partial))
}

/// The partial text has all its bytes.
fn ended(draft: &mut Draft) -> Result<(), Fail> {
    if !can_end(draft) {
        return Err("a wrong text".into());
    }
    draft.end_value();
    Ok(())
}

/// The innermost open entry is closed, where one is open.
fn closed(draft: &mut Draft, width: u8) -> Result<(), Fail> {
    if draft.next_pair().is_some() || draft.depth() == 0 {
        return Err("no entry to close".into());
    }
    if width < 1 || width > 16 || draft.is_too_long(width as u64) {
        return Err("no null".into());
    }
    if draft.close(width).is_err() {
        draft.close(width)?;
    }
    Ok(())
}

/// One more null of the padding, where the root is closed.
fn padded(draft: &mut Draft, width: u8) -> Result<(), Fail> {
    if draft.next_pair().is_some() || draft.depth() != 0 || draft.is_empty() {
        return Err("no closed root".into());
    }
    if width < 1 || width > 16 || draft.is_too_long(width as u64) {
        return Err("no null".into());
    }
    if draft.pad(width).is_err() {
        draft.pad(width)?;
    }
    Ok(())
}

fn whole(draft: Draft) -> Result<Unit, Fail> {
    if draft.next_pair().is_some() || draft.depth() != 0 || draft.is_empty() {
        return Err("no closed root".into());
    }
    Ok(draft.finish())
}

/// Behind the root's name, its child of the size 4, their null in two bytes, and nulls of one and two bytes.
fn child_and_padding(draft: &mut Draft) -> Result<(), Fail> {
    begun(draft, Uleb::least(2))?;
    given(draft, four())?;
    closed(draft, 2)?;
    padded(draft, 1)?;
    padded(draft, 2)
}

/// The draft is whole, and its unit is the padded one.
fn is_the_padded(rt: &impl Abort, alloc: Global, draft: Draft) -> Result<(), Fail> {
    let unit = whole(draft)?;
    assert!(rt; unit.size() == 23);
    Ok(writes(rt, alloc, &unit, &PADDED)?)
}

/// The draft has so many bytes, and no entry yet.
fn is_empty_of(rt: &impl Abort, draft: &Draft, size: u64) {
    assert!(rt; draft.size() == size);
    assert!(rt; draft.is_empty() == true);
}

/// A table that is shared by few is shared once more: a draft that refused it would only be slower, which no clause
/// excludes.
fn shares_its_table(rt: &impl Abort, draft: &Draft) {
    assert!(rt; draft.share_table().is_ok());
}

/// A root and its child begin, with the depth after each step.
fn goes_down(rt: &impl Abort, draft: &mut Draft) -> Result<(), Fail> {
    is_empty_of(rt, draft, 12);
    shares_its_table(rt, draft);
    begun(draft, wide_one()?)?;
    is_empty_of(rt, draft, 14);
    given(draft, name())?;
    assert!(rt; draft.depth() == 1);
    begun(draft, Uleb::least(2))?;
    given(draft, four())?;
    assert!(rt; draft.depth() == 1);
    Ok(())
}

/// The root is closed, and padded.
fn comes_up(rt: &impl Abort, draft: &mut Draft) -> Result<(), Fail> {
    closed(draft, 2)?;
    assert!(rt; draft.depth() == 0);
    assert!(rt; draft.is_empty() == false);
    padded(draft, 1)?;
    padded(draft, 2)?;
    assert!(rt; draft.size() == 23);
    Ok(())
}

#[test]
fn a_unit_step_by_step(rt: HostRuntime) -> Result<(), Fail> {
    let mut draft = drafted(rt.alloc())?;
    goes_down(&rt, &mut draft)?;
    comes_up(&rt, &mut draft)?;
    is_the_padded(&rt, rt.alloc(), draft)
}

/// The root's name is given in two pieces, of which the first is empty.
fn is_named_in_pieces(rt: &impl Abort, draft: &mut Draft) -> Result<(), Fail> {
    begun(draft, wide_one()?)?;
    started(draft)?;
    lengthened(draft, &[])?;
    same(rt, draft.content(), &[]);
    lengthened(draft, &[0x61])?;
    same(rt, draft.content(), &[0x61]);
    let text = draft
        .partial_value()
        .map(|partial| partial.value == Value::Text(&[0x61]));
    assert!(rt; text == Some(true));
    assert!(rt; draft.size() == 14);
    ended(draft)?;
    assert!(rt; draft.partial_value().is_none() == true);
    assert!(rt; draft.size() == 16);
    Ok(())
}

/// An entry is taken back in the middle of its name, of which nothing is kept.
fn takes_a_name_back(rt: &impl Abort, draft: &mut Draft) -> Result<(), Fail> {
    begun(draft, Uleb::least(1))?;
    started(draft)?;
    lengthened(draft, &[0x62, 0x63])?;
    draft.undo();
    same(rt, draft.content(), &[0x61]);
    Ok(())
}

#[test]
fn a_name_in_pieces(rt: HostRuntime) -> Result<(), Fail> {
    let mut draft = drafted(rt.alloc())?;
    is_named_in_pieces(&rt, &mut draft)?;
    takes_a_name_back(&rt, &mut draft)?;
    child_and_padding(&mut draft)?;
    is_the_padded(&rt, rt.alloc(), draft)
}

fn cannot_end(rt: &impl Abort, draft: &mut Draft) -> Result<(), Fail> {
    begun(draft, Uleb::least(1))?;
    started(draft)?;
    lengthened(draft, &[0x61, 0])?;
    assert!(rt; !can_end(draft));
    same(rt, draft.content(), &[0x61, 0]);
    Ok(())
}

/// A text that holds a zero byte doesn't fit.
#[test]
fn a_wrong_name_in_pieces(rt: HostRuntime) -> Result<(), Fail> {
    let mut draft = drafted(rt.alloc())?;
    cannot_end(&rt, &mut draft)
}

/// The root begins and is taken back before its name.
fn takes_the_root_back(rt: &impl Abort, draft: &mut Draft) -> Result<(), Fail> {
    begun(draft, Uleb::least(1))?;
    let pair = draft.next_pair().ok_or("no entry is read")?;
    assert!(rt; pair.form.value == 0x08);
    draft.undo();
    assert!(rt; draft.size() == 12);
    assert!(rt; draft.next_pair() == None);
    Ok(())
}

/// The root, and an entry in its child's place that is taken back.
fn takes_a_child_back(draft: &mut Draft) -> Result<(), Fail> {
    begun(draft, wide_one()?)?;
    given(draft, name())?;
    begun(draft, Uleb::least(1))?;
    draft.undo();
    Ok(())
}

#[test]
fn an_entry_is_taken_back(rt: HostRuntime) -> Result<(), Fail> {
    let mut draft = drafted(rt.alloc())?;
    takes_the_root_back(&rt, &mut draft)?;
    takes_a_child_back(&mut draft)?;
    child_and_padding(&mut draft)?;
    is_the_padded(&rt, rt.alloc(), draft)
}

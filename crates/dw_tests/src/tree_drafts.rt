//! What no clause of `dw_tree` says: trees built by hand over tables whose bytes come from the standard, each call
//! once with memory to spare, and a writer that fails. What trees lend are cases of `library_cases`.
ghost use Rattle.std.specs.Prelude.{◌≡◌, ◌≢◌, ◌≤◌, ◌<◌, [], length, None, IfOk, OnOk};
ghost use Rattle.dw_leb.specs.View.{uleb_of};
ghost use Rattle.dw_tree.specs.Steps.{closed_at, end_of};
ghost use Rattle.dw_tests.specs.Samples.{two_codes as two_codes_table, bare_code as bare_code_table, little, with_name, with_size};

use crate::common::{BARE, TYPED, same};
use dw_abbrev::{Table, Tables};
use dw_form::{AttrValue, Ctx, Value};
use dw_leb::devices::Stepped;
use dw_leb::{Format, Order, Uleb, Watched, WriteError};
use dw_tree::{EntryRef, EntryTree, TreeDraft, write_null};
use std::alloc::Global;
use std::io::ErrorKind;
use std::process::Abort;
use std::rc::Rc;
use std::test::Fail;

fn two_codes(alloc: Global) -> Result<Rc<Table>, Fail>
    ensures { IfOk result (λ t. t.value ≡ two_codes_table) }
{
    let mut tables = Tables::new(alloc, &TYPED);
    Ok(tables.get(0)?)
}

fn bare_code(alloc: Global) -> Result<Rc<Table>, Fail>
    ensures { IfOk result (λ t. t.value ≡ bare_code_table) }
{
    let mut tables = Tables::new(alloc, &BARE);
    Ok(tables.get(0)?)
}

fn context() -> Ctx
    ensures { result ≡ little }
{
    Ctx {
        order: Order::Little,
        format: Format::Dwarf32,
        address_size: 8,
    }
}

fn in_width(value: u64, width: u8) -> Result<Uleb, Fail>
    ensures { IfOk result (λ u. uleb_of u ≡ record { value = value; width = width }) }
{
    Ok(Uleb::with_width(value, width).ok_or("no such width")?)
}

/// The next byte stands near the beginning.
fn near(draft: &TreeDraft) -> Result<(), Fail>
    ensures { OnOk result (end_of draft.now ≤ 16384) }
{
    if draft.end() > 16384 {
        return Err("too far".into());
    }
    Ok(())
}

/// An entry "a" of the code 1, which is written in this width, begins.
fn named(draft: &mut TreeDraft, width: u8) -> Result<(), Fail>
    requires context { draft.old.context ≡ little }
    requires table { draft.old.table ≡ two_codes_table }
    requires free { draft.old.place.unfinished ≡ None }
    requires level { length draft.old.place.spot.above < 10 }
    ensures { OnOk result (draft.new ≡ with_name width draft.old) }
{
    near(draft)?;
    draft.begin(in_width(1, width)?)?;
    near(draft)?;
    let name = AttrValue {
        via: None,
        value: Value::Text(&[0x61]),
    };
    draft.value(&name, &[], 2)?;
    Ok(())
}

/// The same, its name in two pieces, of which the first is empty.
fn named_in_pieces(draft: &mut TreeDraft) -> Result<(), Fail>
    requires context { draft.old.context ≡ little }
    requires table { draft.old.table ≡ two_codes_table }
    requires free { draft.old.place.unfinished ≡ None }
    requires level { length draft.old.place.spot.above < 10 }
    ensures { OnOk result (draft.new ≡ with_name 1 draft.old) }
{
    near(draft)?;
    draft.begin(in_width(1, 1)?)?;
    draft.start(None, None)?;
    draft.bytes(&[])?;
    draft.bytes(&[0x61])?;
    near(draft)?;
    draft.end_value(&[], 2);
    Ok(())
}

/// An entry of the size 4 and the code 2, which is written in this width.
fn sized(draft: &mut TreeDraft, width: u8) -> Result<(), Fail>
    requires context { draft.old.context ≡ little }
    requires table { draft.old.table ≡ two_codes_table }
    requires free { draft.old.place.unfinished ≡ None }
    requires level { length draft.old.place.spot.above < 10 }
    ensures { OnOk result (draft.new ≡ with_size width draft.old) }
{
    near(draft)?;
    draft.begin(in_width(2, width)?)?;
    near(draft)?;
    draft.plain_value(&[4])?;
    Ok(())
}

/// The innermost open entry is closed by a null of this width.
fn closed(draft: &mut TreeDraft, width: u8) -> Result<(), Fail>
    requires inside { draft.old.place.spot.above ≢ [] }
    requires free { draft.old.place.unfinished ≡ None }
    ensures { OnOk result (draft.new ≡ closed_at width draft.old) }
{
    near(draft)?;
    draft.close(in_width(0, width)?)?;
    Ok(())
}

/// A child of the size 4, and behind it a null of this width.
fn last_child(draft: &mut TreeDraft, null: u8) -> Result<(), Fail>
    requires context { draft.old.context ≡ little }
    requires table { draft.old.table ≡ two_codes_table }
    requires free { draft.old.place.unfinished ≡ None }
    requires inside { draft.old.place.spot.above ≢ [] }
    requires level { length draft.old.place.spot.above < 10 }
    ensures { OnOk result (draft.new ≡ closed_at null (with_size 1 draft.old)) }
{
    sized(draft, 1)?;
    closed(draft, null)
}

/// An entry "a" in its place is begun and taken back.
#[tactic(auto, unfolding(dw_tree::specs::Tree::nesting))]
fn taken_back(draft: &mut TreeDraft) -> Result<(), Fail>
    requires context { draft.old.context ≡ little }
    requires table { draft.old.table ≡ two_codes_table }
    requires free { draft.old.place.unfinished ≡ None }
    requires level { length draft.old.place.spot.above < 10 }
    ensures { OnOk result (draft.new ≡ draft.old) }
{
    near(draft)?;
    draft.begin(in_width(1, 2)?)?;
    draft.undo();
    Ok(())
}

/// The root "a" with a child of the size 4; the root's code and its null in these widths.
fn root_with_child(alloc: Global, code: u8, null: u8) -> Result<EntryTree, Fail> {
    let mut draft = TreeDraft::new(alloc, context(), two_codes(alloc)?, 12);
    named(&mut draft, code)?;
    last_child(&mut draft, null)?;
    Ok(draft.finish())
}

/// The same, after an entry in the child's place was taken back.
fn child_begun_twice(alloc: Global) -> Result<EntryTree, Fail> {
    let mut draft = TreeDraft::new(alloc, context(), two_codes(alloc)?, 12);
    named(&mut draft, 1)?;
    taken_back(&mut draft)?;
    last_child(&mut draft, 1)?;
    Ok(draft.finish())
}

/// The same, the root's name in pieces.
fn root_in_pieces(alloc: Global) -> Result<EntryTree, Fail> {
    let mut draft = TreeDraft::new(alloc, context(), two_codes(alloc)?, 12);
    named_in_pieces(&mut draft)?;
    last_child(&mut draft, 1)?;
    Ok(draft.finish())
}

/// Three levels, and an entry behind the inner two.
fn three_levels(alloc: Global) -> Result<EntryTree, Fail> {
    let mut draft = TreeDraft::new(alloc, context(), two_codes(alloc)?, 12);
    named(&mut draft, 1)?;
    named(&mut draft, 1)?;
    last_child(&mut draft, 1)?;
    last_child(&mut draft, 1)?;
    Ok(draft.finish())
}

/// 4,096 entries, each the only child of the one before.
fn nested(alloc: Global) -> Result<EntryTree, Fail> {
    let mut draft = TreeDraft::new(alloc, context(), bare_code(alloc)?, 12);
    let code = in_width(1, 1)?;
    let mut begun = 0u16;
    while begun < 4096 {
        near(&draft)?;
        draft.begin(code)?;
        begun += 1;
    }
    let mut ended = 0u16;
    while ended < 4096 {
        closed(&mut draft, 1)?;
        ended += 1;
    }
    Ok(draft.finish())
}

fn written(alloc: Global, tree: &EntryTree) -> Result<Vec<u8>, WriteError> {
    let mut writer = Watched::new(Vec::new(alloc));
    tree.write(&mut writer)?;
    Ok(writer.into_inner())
}

/// The tree is written as these bytes.
fn writes(rt: &impl Abort, alloc: Global, tree: &EntryTree, want: &[u8]) -> Result<(), WriteError> {
    let bytes = written(alloc, tree)?;
    same(rt, bytes.as_slice(), want);
    Ok(())
}

/// Where an entry begins and ends, its level and its tag.
type Place = (u64, u64, u64, u64);

fn place(entry: &EntryRef<'_>) -> Place {
    (
        entry.offset(),
        entry.end_offset(),
        entry.depth(),
        entry.tag(),
    )
}

/// An entry stands there. An assertion of a place where it is made costs the prover more.
fn stands(rt: &impl Abort, entry: &EntryRef<'_>, want: Place) {
    assert!(rt; place(entry) == want);
}

/// A root with a child, as it is written.
const WITH_A_CHILD: [u8; 6] = [0x01, 0x61, 0, 0x02, 0x04, 0];

#[test]
fn a_name_in_pieces(rt: HostRuntime) -> Result<(), Fail> {
    let tree = root_in_pieces(rt.alloc())?;
    stands(&rt, &tree.root(), (12, 18, 1, 0x11));
    Ok(writes(&rt, rt.alloc(), &tree, &WITH_A_CHILD)?)
}

/// A draft keeps the bytes of its one text, and no longer those of a text in an entry that is taken back.
#[tactic(auto, unfolding(dw_tree::specs::Tree::nesting))]
fn keeps_its_text(rt: &impl Abort, draft: &mut TreeDraft) -> Result<(), Fail>
    requires context { draft.old.context ≡ little }
    requires table { draft.old.table ≡ two_codes_table }
    requires free { draft.old.place.unfinished ≡ None }
    requires level { length draft.old.place.spot.above < 10 }
{
    same(rt, draft.content(), &[0x61]);
    near(draft)?;
    draft.begin(in_width(1, 1)?)?;
    draft.start(None, None)?;
    draft.bytes(&[0x62, 0x63])?;
    same(rt, draft.content(), &[0x61, 0x62, 0x63]);
    draft.undo();
    same(rt, draft.content(), &[0x61]);
    Ok(())
}

#[test]
fn keeps_the_bytes_of_texts_alone(rt: HostRuntime) -> Result<(), Fail> {
    let alloc = rt.alloc();
    let mut draft = TreeDraft::new(alloc, context(), two_codes(alloc)?, 12);
    named(&mut draft, 1)?;
    sized(&mut draft, 1)?;
    keeps_its_text(&rt, &mut draft)
}

#[test]
fn writes_three_levels(rt: HostRuntime) -> Result<(), Fail> {
    let tree = three_levels(rt.alloc())?;
    let bytes = [0x01, 0x61, 0, 0x01, 0x61, 0, 0x02, 0x04, 0, 0x02, 0x04, 0];
    Ok(writes(&rt, rt.alloc(), &tree, &bytes)?)
}

/// The same, the root's code and its null in two bytes each.
const PADDED: [u8; 8] = [0x81, 0, 0x61, 0, 0x02, 0x04, 0x80, 0];

/// The root with a child, of these widths, is written as these bytes.
fn writes_widths(
    rt: &impl Abort,
    alloc: Global,
    (code, null): (u8, u8),
    want: &[u8],
) -> Result<(), Fail> {
    let tree = root_with_child(alloc, code, null)?;
    Ok(writes(rt, alloc, &tree, want)?)
}

#[test]
fn writes_each_width(rt: HostRuntime) -> Result<(), Fail> {
    writes_widths(&rt, rt.alloc(), (1, 1), &WITH_A_CHILD)?;
    writes_widths(&rt, rt.alloc(), (2, 2), &PADDED)
}

#[test]
fn takes_an_entry_back(rt: HostRuntime) -> Result<(), Fail> {
    let tree = child_begun_twice(rt.alloc())?;
    stands(&rt, &tree.root(), (12, 18, 1, 0x11));
    Ok(writes(&rt, rt.alloc(), &tree, &WITH_A_CHILD)?)
}

/// Each of the entries stands a byte and a level behind the one before.
fn has_4096_levels(rt: &impl Abort, tree: &EntryTree) -> Result<(), Fail> {
    let mut entries = tree.entries();
    for offset in 12..4108u64 {
        let entry = entries.next().ok_or("too few entries")?;
        assert!(rt; (entry.offset(), entry.depth()) == (offset, offset - 11));
    }
    assert!(rt; entries.next().is_none());
    Ok(())
}

/// These are 4,096 codes and as many nulls.
fn are_codes_and_nulls(rt: &impl Abort, bytes: &[u8]) {
    assert!(rt; bytes.len() == 8192);
    for (at, byte) in bytes.iter().enumerate() {
        let code = if at < 4096 { 1 } else { 0 };
        assert_eq!(rt; *byte, code, "at {at}");
    }
}

fn writes_codes_and_nulls(
    rt: &impl Abort,
    alloc: Global,
    tree: &EntryTree,
) -> Result<(), WriteError> {
    let bytes = written(alloc, tree)?;
    are_codes_and_nulls(rt, bytes.as_slice());
    Ok(())
}

#[test]
fn the_deepest_tree(rt: HostRuntime) -> Result<(), Fail> {
    let tree = nested(rt.alloc())?;
    has_4096_levels(&rt, &tree)?;
    Ok(writes_codes_and_nulls(&rt, rt.alloc(), &tree)?)
}

/// A writer that fails behind four bytes gets these, and its error is told.
fn fails_behind_four(rt: &impl Abort, alloc: Global, tree: &EntryTree) {
    let device = Stepped::failing(Vec::new(alloc), 1, 4, ErrorKind::Other);
    let mut writer = Watched::new(device);
    let answer = tree.write(&mut writer);
    assert!(rt; answer == Err(WriteError::Io(ErrorKind::Other)));
    assert!(rt; writer.fault() == Some(ErrorKind::Other));
    let device = writer.into_inner();
    same(rt, device.inner().as_slice(), &[0x01, 0x61, 0, 0x02]);
}

#[test]
fn keeps_a_writers_fault(rt: HostRuntime) -> Result<(), Fail> {
    let tree = root_with_child(rt.alloc(), 1, 1)?;
    fails_behind_four(&rt, rt.alloc(), &tree);
    Ok(())
}

#[test]
fn writes_a_null(rt: HostRuntime) -> Result<(), Fail> {
    let mut writer = Watched::new(Vec::new(rt.alloc()));
    write_null(3, &mut writer)?;
    let bytes = writer.into_inner();
    same(&rt, bytes.as_slice(), &[0x80, 0x80, 0]);
    Ok(())
}

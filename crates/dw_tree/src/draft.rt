//! A tree under construction.
ghost use Rattle.std.specs.Prelude.{◌≡◌, ◌≢◌, ◌+◌, ◌++◌, ◌<◌, ◌≤◌, ◌^◌, ◌-◌, ◌*◌, [], List, length, take, map, option_map, IfOk, IfSome, None, Some, is_some, IsSome, false, true, OnOk, OnErr, vec_len, vec_capacity};
ghost use Rattle.dw_leb.specs.Number.{uleb};
ghost use Rattle.dw_leb.specs.View.{uleb_of};
ghost use Rattle.dw_form.specs.Form.{IsContext, Attribute};
ghost use Rattle.dw_form.specs.Lent.{attribute_of};
ghost use Rattle.dw_abbrev.specs.PairView.{pair_of};
ghost use Rattle.dw_abbrev.specs.Table.{declared, zero_of};
ghost use Rattle.dw_tree.specs.Tree.{nesting, unit_tree};
ghost use Rattle.dw_tree.specs.Place.{rows_before};
ghost use Rattle.dw_tree.specs.DraftView.{partial_of};
ghost use Rattle.dw_tree.specs.Flat.{with_end as row_ending};
ghost use Rattle.dw_tree.specs.PoolBytes.{held_in, partial_bytes};
ghost use Rattle.dw_tree.specs.RowHeads.{heads_in};
ghost use Rattle.dw_tree.specs.Counts.{entries_counted, values_counted};
ghost use Rattle.dw_tree.specs.Emptiness.{is_bare};
ghost use Rattle.dw_tree.specs.declared.row.RowKind.TheVariants.{Null};
ghost use Rattle.dw_tree.specs.Completed.{one_given, row_with, settled_rows, settled_open, settled_unfinished};
ghost use Rattle.dw_tree.specs.FirstGiven.{given_if};
ghost use Rattle.dw_tree.specs.Steps.{begun_at, with_value, partial_in, partial_attribute, started, extended, ended, closed_at, undone, end_of, NextFits, IsPlainNext, SpellsPlain, ArePlain, SpellsFirst, with_values, next_bytes, next_front, next_pair, next_pairs, finished, nothing_grown};

use crate::row::{PartialValue, Row, RowKind, Unfinished};
use crate::tree::EntryTree;
use dw_abbrev::{Decl, Pair, Table};
use dw_form::{AttrValue, Ctx, Value, put_found, put_head};
use dw_leb::Uleb;
use std::alloc::{AllocError, Global};
use std::marker::Model;
use std::rc::Rc;

/// A tree of entries that grows at one open place: below the entry that was begun last and isn't
/// closed yet, or at the root's (section 2.3).
///
/// What a call's `requires` asks for its caller has tested. So an error says only that memory was
/// refused, and the draft then holds what it held.
#[derive(Debug, Drop)]
pub struct TreeDraft {
    context: Ctx,
    table: Rc<Table>,
    start: u64,
    /// Where the next byte stands.
    here: u64,
    rows: Vec<Row>,
    /// The heads of the values that were given, and the bytes of their texts and blocks.
    heads: Vec<u8>,
    pool: Vec<u8>,
    /// The rows of the open entries, the outermost first.
    nested: Vec<usize>,
    unfinished: Option<Unfinished>,
    partial: Option<PartialValue>,
    /// Its entries, an unfinished one included.
    entries: usize,
    /// The values that their declarations ask for. An entry may have 1,024 without a byte, so they may outnumber
    /// the bytes of a unit.
    asked: u128,
}

impl Model for TreeDraft {
    ghost use Rattle.dw_tree.specs.Steps.{Growing, growing_code};

    ghost Value = { Growing };

    ghost coded = { growing_code };

    ghost use Rattle.dw_tree.specs.DraftView.{growing, IsDraft};

    ghost view = { growing };

    ghost invariant = { IsDraft };
}

impl TreeDraft {
    /// A draft without entries, over the table of their declarations. The root will begin at the
    /// offset `start`, counted from the unit's first byte.
    pub fn new(alloc: Global, context: Ctx, table: Rc<Table>, start: u64) -> TreeDraft
        requires context { IsContext context }
        requires near { start < 2 ^ 63 }
        ensures { result ≡ nothing_grown context table.value start }
    {
        TreeDraft {
            context,
            table,
            start,
            here: start,
            rows: Vec::new(alloc),
            heads: Vec::new(alloc),
            pool: Vec::new(alloc),
            nested: Vec::new(alloc),
            unfinished: None,
            partial: None,
            entries: 0,
            asked: 0,
        }
    }

    /// An entry of this code begins. Where its declaration asks for no values it is complete.
    #[inline(always)]
    pub fn begin(&mut self, code: Uleb) -> Result<(), AllocError>
        requires some { 0 < code.value }
        requires known { IsSome (declared self.old.table code.value) }
        requires free { self.old.place.unfinished ≡ None }
        requires level { length self.old.place.spot.above < nesting }
        requires near { end_of self.old + code.width < 2 ^ 63 }
        ensures ok { OnOk result (self.new ≡ begun_at (uleb_of code) self.old) }
        ensures err { OnErr result (self.new ≡ self.old) }
    {
        if let Some(decl) = self.table.get(code.value) {
            let children = decl.has_children();
            make_row(&mut self.rows, children)?;
            make_place(&mut self.nested, children)?;
            let unfinished = Unfinished {
                code,
                offset: self.here,
                first: self.heads.len(),
                given: 0,
                count: decl.pairs().len(),
                children,
                pool: self.pool.len(),
            };
            self.table.pairs_are_few();
            self.entries += 1;
            self.asked += unfinished.count as u128;
            self.here += code.width as u64;
            self.unfinished = settle(&mut self.rows, &mut self.nested, unfinished);
        }
        Ok(())
    }

    /// The unfinished entry is given its next value, which has `size` bytes. `front` are those of them
    /// that come before the bytes of a text or block, or of any other value all. With its last value
    /// the entry is complete: closed where its declaration has no children, else open.
    #[inline(always)]
    pub fn value(
        &mut self,
        value: &AttrValue<'_>,
        front: &[u8],
        size: u64,
    ) -> Result<(), AllocError>
        requires between { partial_in self.old.place.unfinished ≡ None }
        requires fits { NextFits self.old.context self.old.table self.old.place.unfinished (attribute_of value.now) }
        requires front { front.now ≡ next_front self.old.context self.old.table self.old.place.unfinished
            (attribute_of value.now) }
        requires size { size
            ≡ length (next_bytes self.old.context self.old.table self.old.place.unfinished (attribute_of value.now)) }
        requires near { end_of self.old + size < 2 ^ 63 }
        ensures ok { OnOk result (self.new ≡ with_value (attribute_of value.now) self.old) }
        ensures err { OnErr result (self.new ≡ self.old) }
    {
        if let Some(_unfinished) = self.unfinished {
            put_head(value, front, &mut self.heads, &mut self.pool)?;
            self.here += size;
            count_value(&mut self.rows, &mut self.nested, &mut self.unfinished);
        }
        Ok(())
    }

    /// The unfinished entry is given its next value, no text or block, by the bytes that spell it.
    #[inline(always)]
    pub fn plain_value(&mut self, spelling: &[u8]) -> Result<(), AllocError>
        requires between { partial_in self.old.place.unfinished ≡ None }
        requires spelled { SpellsPlain self.old.context self.old.table self.old.place.unfinished spelling.now }
        requires near { end_of self.old + length spelling.now < 2 ^ 63 }
        ensures ok { (v : Attribute) → IsPlainNext self.old.context self.old.table self.old.place.unfinished v
            spelling.now
            → OnOk result (self.new ≡ with_value v self.old) }
        ensures err { OnErr result (self.new ≡ self.old) }
    {
        if let Some(_unfinished) = self.unfinished {
            append_few(&mut self.heads, spelling)?;
            self.here += spelling.len() as u64;
            count_value(&mut self.rows, &mut self.nested, &mut self.unfinished);
        }
        Ok(())
    }

    /// An entry of this code begins, which `decl` declares, and is given its first values, `count` of them and none a
    /// text or block, by the bytes that spell them one behind the other: the first `size` of these. With all its values
    /// the entry is complete. It is what `begin` and as many calls of `plain_value` do, and `true` is answered.
    ///
    /// Where the growth by the values is refused, it is what `begin` does alone: the entry waits for all its values,
    /// and `false` is answered. `AllocError` where a growth by one entry is refused, and nothing is changed.
    #[inline(always)]
    pub fn begin_with(
        &mut self,
        code: Uleb,
        decl: &Decl,
        bytes: &[u8],
        size: usize,
        count: usize,
    ) -> Result<bool, AllocError>
        requires some { 0 < code.value }
        requires known { declared self.old.table code.value ≡ Some decl.now }
        requires free { self.old.place.unfinished ≡ None }
        requires level { length self.old.place.spot.above < nesting }
        requires within { size ≤ length bytes.now }
        requires spelled { SpellsFirst self.old.context decl.now.pairs count (take size bytes.now) }
        requires near { end_of self.old + (code.width + size) < 2 ^ 63 }
        ensures ok { (vs : List Attribute) → length vs ≡ count
            → ArePlain self.old.context decl.now.pairs vs (take size bytes.now)
            → IfOk result (λ all. self.new ≡ with_values (given_if all vs) (begun_at (uleb_of code) self.old)) }
        ensures err { OnErr result (self.new ≡ self.old) }
    {
        let children = decl.has_children();
        self.rows.reserve(1)?;
        make_place(&mut self.nested, children)?;
        let first = self.heads.len();
        if let Err(_refused) = append_front(&mut self.heads, bytes, size) {
            return self.begin_alone(code);
        }
        let unfinished = Unfinished {
            code,
            offset: self.here,
            first,
            given: count,
            count: decl.pairs().len(),
            children,
            pool: self.pool.len(),
        };
        self.table.pairs_are_few();
        self.entries += 1;
        self.asked += unfinished.count as u128;
        self.here += code.width as u64 + size as u64;
        let left = settle(&mut self.rows, &mut self.nested, unfinished);
        leave(&mut self.unfinished, left);
        Ok(true)
    }

    /// The same where there is no memory for the values. For the entry itself there is room already, so none is asked
    /// for.
    fn begin_alone(&mut self, code: Uleb) -> Result<bool, AllocError>
        requires some { 0 < code.value }
        requires known { IsSome (declared self.old.table code.value) }
        requires free { self.old.place.unfinished ≡ None }
        requires level { length self.old.place.spot.above < nesting }
        requires near { end_of self.old + code.width < 2 ^ 63 }
        ensures ok { IfOk result (λ all. (all ≡ false) × (self.new ≡ begun_at (uleb_of code) self.old)) }
        ensures err { OnErr result (self.new ≡ self.old) }
    {
        self.begin(code)?;
        Ok(false)
    }

    /// A text, or a block whose length field has `width` bytes, begins as the next value of the
    /// entry that is read. Its bytes come with `bytes`.
    pub fn start(&mut self, via: Option<Uleb>, width: Option<u8>) -> Result<(), AllocError>
        requires unfinished { IsSome self.old.place.unfinished }
        requires between { partial_in self.old.place.unfinished ≡ None }
        ensures ok { OnOk result (self.new ≡ started (option_map uleb_of via) width self.old) }
        ensures err { OnErr result (self.new ≡ self.old) }
    {
        self.heads.reserve(48)?;
        let pool = self.pool.len();
        self.partial = Some(PartialValue { via, width, pool });
        Ok(())
    }

    /// The partial text or block is given its next bytes.
    pub fn bytes(&mut self, piece: &[u8]) -> Result<(), AllocError>
        requires partial { IsSome (partial_in self.old.place.unfinished) }
        ensures ok { OnOk result (self.new ≡ extended piece.now self.old) }
        ensures err { OnErr result (self.new ≡ self.old) }
    {
        self.pool.extend_from_slice(piece)
    }

    /// The partial text or block has all its bytes. As the next value of the unfinished entry
    /// it has `size` bytes, those of its form, its length and its end included, of which `front` come
    /// before its own.
    pub fn end_value(&mut self, front: &[u8], size: u64)
        requires fits { IfSome (partial_in self.old.place.unfinished)
            (λ b. NextFits self.old.context self.old.table self.old.place.unfinished (partial_attribute b)) }
        requires front { IfSome (partial_in self.old.place.unfinished)
            (λ b.
            front.now ≡ next_front self.old.context self.old.table self.old.place.unfinished (partial_attribute b)) }
        requires short { length front.now ≤ 32 }
        requires size { IfSome (partial_in self.old.place.unfinished)
            (λ b.
            size
            ≡ length (next_bytes self.old.context self.old.table self.old.place.unfinished (partial_attribute b))) }
        requires near { end_of self.old + size < 2 ^ 63 }
        ensures { self.new ≡ ended self.old }
    {
        if let (Some(unfinished), Some(partial)) = (self.unfinished, self.partial) {
            let value = so_far(&partial, &self.pool);
            put_found(&value, front, partial.pool, &mut self.heads);
            self.here += size;
            self.partial = None;
            let given = unfinished.given + 1;
            let unfinished = Unfinished {
                given,
                ..unfinished
            };
            self.unfinished = settle(&mut self.rows, &mut self.nested, unfinished);
        }
    }

    /// The unfinished entry is taken back, with the values that it was given.
    pub fn undo(&mut self)
        ensures { self.new ≡ undone self.old }
    {
        if let Some(unfinished) = self.unfinished {
            self.heads.truncate(unfinished.first);
            self.pool.truncate(unfinished.pool);
            self.here = unfinished.offset;
            self.entries -= 1;
            self.asked -= unfinished.count as u128;
            self.unfinished = None;
            self.partial = None;
        }
    }

    /// The innermost open entry is closed by a null of this width.
    #[inline(always)]
    pub fn close(&mut self, null: Uleb) -> Result<(), AllocError>
        requires zero { null.value ≡ 0 }
        requires inside { self.old.place.spot.above ≢ [] }
        requires free { self.old.place.unfinished ≡ None }
        requires near { end_of self.old + null.width < 2 ^ 63 }
        ensures ok { OnOk result (self.new ≡ closed_at null.width self.old) }
        ensures err { OnErr result (self.new ≡ self.old) }
    {
        self.rows.reserve(1)?;
        let depth = self.nested.len() as u16 + 1;
        if let Some(at) = self.nested.pop() {
            let end = self.rows.len() + 1;
            let row = self.rows[at];
            self.rows[at] = with_end(row, end);
            self.rows
                .push_reserved(null_row(null, self.here, end, depth));
            self.here += null.width as u64;
        }
        Ok(())
    }

    /// Where the next byte stands, counted from the unit's first byte, the bytes of a partial
    /// value not counted.
    pub fn end(&self) -> u64
        ensures { result ≡ end_of self.now }
    {
        self.here
    }

    /// The partial text or block, with its bytes so far.
    pub fn partial_value(&self) -> Option<AttrValue<'_>>
        ensures { option_map attribute_of result ≡ option_map partial_attribute (partial_in self.now.place.unfinished) }
    {
        match &self.partial {
            Some(partial) => Some(so_far(partial, &self.pool)),
            None => None,
        }
    }

    /// The bytes of its texts and blocks, those of a partial one included, in the order in which
    /// they were given. It keeps no others.
    pub fn content(&self) -> &[u8]
        ensures exact { result.now ≡ held_in self.now.place }
        ensures short { length result.now
            ≤ end_of self.now - self.now.start + length (partial_bytes (partial_in self.now.place.unfinished)) }
    {
        &self.pool
    }

    /// The heads of the values that were given, in that order: of each one what of its spelling is no
    /// content, and what finds the content. It keeps no others.
    pub fn heads(&self) -> &[u8]
        ensures exact { result.now ≡ heads_in self.now.context self.now.table self.now.place }
        ensures short { length result.now ≤ 16 * (end_of self.now - self.now.start) }
    {
        &self.heads
    }

    /// The count of its rows: one for each entry that has all its values, and one for each null. A row
    /// is kept in 40 bytes.
    pub fn row_count(&self) -> usize
        ensures exact { result ≡ length (rows_before self.now.place.spot.above self.now.place.spot.left) }
        ensures short { result ≤ end_of self.now - self.now.start }
    {
        self.rows.len()
    }

    /// How many entries it has, an unfinished one included, and how many values that are whole. In constant time.
    pub fn counts(&self) -> (usize, u128)
        ensures entries { result.0 ≡ entries_counted self.now.place }
        ensures values { result.1 ≡ values_counted self.now.place }
    {
        match &self.unfinished {
            Some(unfinished) => {
                let left = unfinished.count - unfinished.given;
                (self.entries, self.asked - left as u128)
            }
            None => (self.entries, self.asked),
        }
    }

    /// The table of its entries' declarations.
    pub fn table(&self) -> &Table
        ensures { result.now ≡ self.now.table }
    {
        &self.table
    }

    /// The pair whose value the unfinished entry is given next (section 7.5.3). None exactly where
    /// no entry is read.
    #[inline(always)]
    pub fn next_pair(&self) -> Option<Pair>
        ensures pair { option_map pair_of result ≡ next_pair self.now.table self.now.place.unfinished }
        ensures unfinished { is_some result ≡ is_some self.now.place.unfinished }
    {
        let unfinished = self.unfinished?;
        let decl = self.table.get(unfinished.code.value)?;
        Some(decl.pairs()[unfinished.given])
    }

    /// The same table, shared. `AllocError` where it is shared as often as it can be.
    pub fn share_table(&self) -> Result<Rc<Table>, AllocError>
        ensures { IfOk result (λ t. t.value ≡ self.now.table) }
    {
        self.table.clone()
    }

    /// The pairs whose values the unfinished entry is still to be given (section 7.5.3), out of the table of
    /// its entries' declarations. None where no entry is read.
    pub fn next_pairs<'a>(&self, table: &'a Table) -> &'a [Pair]
        requires { table.now ≡ self.now.table }
        ensures some { IfSome self.now.place.unfinished (λ r. map pair_of result.now ≡ next_pairs self.now.table r) }
        ensures none { self.now.place.unfinished ≡ None → result.now ≡ [] }
    {
        let Some(unfinished) = self.unfinished else {
            return &[];
        };
        match table.get(unfinished.code.value) {
            Some(decl) => &decl.pairs()[unfinished.given..],
            None => &[],
        }
    }

    /// How many entries are open.
    pub fn depth(&self) -> usize
        ensures { result ≡ length self.now.place.spot.above }
    {
        self.nested.len()
    }

    /// Whether an entry waits for values.
    #[inline(always)]
    pub fn is_unfinished(&self) -> bool
        ensures { result ≡ is_some self.now.place.unfinished }
    {
        self.unfinished.is_some()
    }

    /// Whether there is no entry, besides an unfinished one.
    pub fn is_empty(&self) -> bool
        ensures { result ≡ is_bare self.now.place.spot }
    {
        self.rows.len() == 0
    }

    /// The tree, once its root is closed.
    pub fn finish(self) -> EntryTree
        requires { IsSome (finished self) }
        ensures whole { finished self ≡ Some result }
        ensures fits { (unit_tree result.context result.table).Fits result.root }
        ensures size { end_of self ≡ result.start + length ((unit_tree result.context result.table).spell result.root) }
    {
        let TreeDraft {
            context,
            table,
            start,
            here,
            rows,
            heads,
            pool,
            nested: _,
            unfinished: _,
            partial: _,
            entries: _,
            asked: _,
        } = self;
        EntryTree {
            context,
            table,
            start,
            end: here,
            rows,
            heads,
            pool,
        }
    }
}

/// The partial text or block, with its bytes so far, which are the pool's last.
fn so_far<'a>(partial: &PartialValue, pool: &'a [u8]) -> AttrValue<'a>
    requires { partial.now.pool ≤ length pool.now }
    ensures value { attribute_of result ≡ partial_attribute (partial_of pool.now partial.now) }
    ensures small { length pool.now < 2 ^ 64 }
{
    let _bounded = pool.len();
    let bytes = &pool[partial.pool..];
    let value = match partial.width {
        Some(width) => Value::Block { width, bytes },
        None => Value::Text(bytes),
    };
    AttrValue {
        via: partial.via,
        value,
    }
}

/// The row with this end.
fn with_end(row: Row, end: usize) -> Row
    ensures { result ≡ row_ending row end }
{
    Row {
        offset: row.offset,
        end,
        first: row.first,
        code: row.code,
        width: row.width,
        depth: row.depth,
        kind: row.kind,
    }
}

/// The row of an entry, of this kind, end and level.
fn entry_row(unfinished: Unfinished, kind: RowKind, end: usize, depth: u16) -> Row
    ensures { result ≡ row_with unfinished kind end depth }
{
    Row {
        offset: unfinished.offset,
        end,
        first: unfinished.first,
        code: unfinished.code.value,
        width: unfinished.code.width,
        depth,
        kind,
    }
}

/// The row of a null.
fn null_row(null: Uleb, offset: u64, end: usize, depth: u16) -> Row
    ensures kind { result.kind ≡ Null }
    ensures width { result.width ≡ null.width }
    ensures offset { result.offset ≡ offset }
    ensures depth { result.depth ≡ depth }
{
    Row {
        offset,
        end,
        first: 0,
        code: null.value,
        width: null.width,
        depth,
        kind: RowKind::Null,
    }
}

/// Appends bytes. A few are moved at once, as those of a number.
#[inline(always)]
fn append_few(list: &mut Vec<u8>, bytes: &[u8]) -> Result<(), AllocError>
    ensures items { OnOk result (list.new.items ≡ list.old.items ++ bytes.now) }
    ensures err { OnErr result (list.new.items ≡ list.old.items) }
{
    match bytes.len() {
        0 => Ok(()),
        1 => list.extend_from_slice(&bytes[..1]),
        2 => list.extend_from_slice(&bytes[..2]),
        4 => list.extend_from_slice(&bytes[..4]),
        8 => list.extend_from_slice(&bytes[..8]),
        _ => list.extend_from_slice(bytes),
    }
}

/// As many bytes as most entries have at most, which are moved at once.
const AT_ONCE: usize = 32;

/// Appends the first `size` bytes. Where there are few of them, and enough behind them and in the list, more are moved
/// at once, and cut off.
#[inline(always)]
fn append_front(list: &mut Vec<u8>, bytes: &[u8], size: usize) -> Result<(), AllocError>
    requires { size ≤ length bytes.now }
    ensures items { OnOk result (list.new.items ≡ list.old.items ++ take size bytes.now) }
    ensures err { OnErr result (list.new.items ≡ list.old.items) }
{
    if size == 0 {
        return Ok(());
    }
    let before = list.len();
    if size > AT_ONCE || bytes.len() < AT_ONCE || list.capacity() < before + AT_ONCE {
        return list.extend_from_slice(&bytes[..size]);
    }
    list.extend_from_slice(&bytes[..AT_ONCE])?;
    list.truncate(before + size);
    Ok(())
}

/// Room for the row of an entry. That of a root without children is the tree's only one: then there is room for no
/// other.
fn make_row(rows: &mut Vec<Row>, children: bool) -> Result<(), AllocError>
    ensures items { rows.new.items ≡ rows.old.items }
    ensures len { vec_len rows.new ≡ vec_len rows.old }
    ensures room { OnOk result (vec_len rows.new < vec_capacity rows.new) }
{
    if children || rows.len() > 0 {
        rows.reserve(1)
    } else {
        rows.reserve_exact(1)
    }
}

/// Room for one more open entry, where an entry has children.
#[inline(always)]
fn make_place(nested: &mut Vec<usize>, children: bool) -> Result<(), AllocError>
    ensures items { nested.new.items ≡ nested.old.items }
    ensures len { vec_len nested.new ≡ vec_len nested.old }
    ensures room { OnOk result (children ≡ true → vec_len nested.new < vec_capacity nested.new) }
{
    if children { nested.reserve(1) } else { Ok(()) }
}

/// The unfinished entry has one value more. Where it has all then, its row is put; else it is read on, and
/// nothing else of it is touched.
#[inline(always)]
fn count_value(rows: &mut Vec<Row>, nested: &mut Vec<usize>, unfinished: &mut Option<Unfinished>)
    requires short { IfSome unfinished.old (λ r. r.given < r.count) }
    requires row { vec_len rows.old < vec_capacity rows.old }
    requires place { IfSome unfinished.old (λ r. r.children ≡ true → vec_len nested.old < vec_capacity nested.old) }
    requires level { vec_len nested.old < 2 ^ 15 }
    ensures rows { IfSome unfinished.old (λ r. rows.new.items
        ≡ settled_rows (one_given r) (vec_len nested.old + 1) rows.old.items) }
    ensures nested { IfSome unfinished.old (λ r. nested.new.items
        ≡ settled_open (one_given r) (vec_len rows.old) nested.old.items) }
    ensures unfinished { IfSome unfinished.old (λ r. unfinished.new ≡ settled_unfinished (one_given r)) }
    ensures room { IsSome unfinished.new → (vec_len rows.new < vec_capacity rows.new) }
    ensures open_room { IfSome unfinished.new (λ r. r.children ≡ true → vec_len nested.new < vec_capacity nested.new) }
{
    if let Some(entry) = unfinished {
        let count = entry.count;
        entry.given += 1;
        if entry.given == count {
            *unfinished = settle(rows, nested, *entry);
        }
    }
}

/// What is left of an entry stands as the unfinished one, where there was none. Of most entries nothing is, and then
/// nothing is stored.
#[inline(always)]
fn leave(unfinished: &mut Option<Unfinished>, left: Option<Unfinished>)
    requires { unfinished.old ≡ None }
    ensures { unfinished.new ≡ left }
{
    if left.is_some() {
        *unfinished = left;
    }
}

/// Where an entry has all its values, its row is put; else it is read on.
#[inline(always)]
fn settle(
    rows: &mut Vec<Row>,
    nested: &mut Vec<usize>,
    unfinished: Unfinished,
) -> Option<Unfinished>
    requires row { vec_len rows.old < vec_capacity rows.old }
    requires place { unfinished.children ≡ true → vec_len nested.old < vec_capacity nested.old }
    requires level { vec_len nested.old < 2 ^ 15 }
    ensures rows { rows.new.items ≡ settled_rows unfinished (vec_len nested.old + 1) rows.old.items }
    ensures nested { nested.new.items ≡ settled_open unfinished (vec_len rows.old) nested.old.items }
    ensures unfinished { result ≡ settled_unfinished unfinished }
    ensures room { IsSome result → (vec_len rows.new < vec_capacity rows.new) }
    ensures open_room { IfSome result (λ r. r.children ≡ true → vec_len nested.new < vec_capacity nested.new) }
{
    if unfinished.given != unfinished.count {
        return Some(unfinished);
    }
    let at = rows.len();
    let depth = nested.len() as u16 + 1;
    let (kind, end) = if unfinished.children {
        nested.push_reserved(at);
        (RowKind::Branch, 0)
    } else {
        (RowKind::Leaf, at + 1)
    };
    rows.push_reserved(entry_row(unfinished, kind, end, depth));
    None
}

//! Units under construction, step by step (sections 2.3 and 7.5).
ghost use Rattle.std.specs.Prelude.{◌≡◌, ◌≢◌, ◌≤◌, ◌<◌, ◌+◌, ◌↔◌, [], List, length, take, IsTrue, true, false, None, Some, is_some, IsSome, IfSome, option_map, map, IfOk, OnOk, OnErr};
ghost use Rattle.dw_leb.specs.View.{uleb_of};
ghost use Rattle.dw_form.specs.Form.{Attribute};
ghost use Rattle.dw_form.specs.HeadFront.{front_bytes};
ghost use Rattle.dw_form.specs.Lent.{attribute_of};
ghost use Rattle.dw_abbrev.specs.Build.{is_width};
ghost use Rattle.dw_abbrev.specs.PairView.{pair_of};
ghost use Rattle.dw_abbrev.specs.Table.{declared, zero_of};
ghost use Rattle.dw_tree.specs.Tree.{nesting};
ghost use Rattle.dw_tree.specs.PoolBytes.{held_in};
ghost use Rattle.dw_tree.specs.Emptiness.{is_bare};
ghost use Rattle.dw_tree.specs.FirstGiven.{given_if, size_if};
ghost use Rattle.dw_tree.specs.Steps.{partial_in, NextFits, IsPlainNext, SpellsPlain, ArePlain, SpellsFirst, next_pair, next_pairs};
ghost use Rattle.dw_header.specs.Header.{context_of};
ghost use Rattle.dw_unit.specs.Unit.{UnitFits, bytes_of};
ghost use Rattle.dw_header.specs.HeaderPlace.{header_size};
ghost use Rattle.dw_unit.specs.Draft.{drafted_size, tree_in, empty, begun, given, given_each, started, extended, ended, closed, padded, undone, finished, size_limit as limit_of, passes_limit, IsOnlyRoot, value_bytes, partial_of, PartialFits, PartialShort};

use crate::body::Body;
use crate::unit::Unit;
use arrayvec::ArrayVec;
use dw_abbrev::{Decl, Pair, Table};
use dw_form::{AttrValue, front_len, size_of, value_front};
use dw_header::Header;
use dw_leb::{Format, Uleb};
use dw_tree::TreeDraft;
use std::alloc::{AllocError, Global};
use std::marker::Model;
use std::rc::Rc;

/// The most levels of a unit's tree, that of the root included.
pub(crate) const NESTING: usize = 4096;

/// The most levels that the tree of a unit may have, that of the root included: 4,096. The standard has no
/// bound. With one, what a program does for each level of a hostile input is bounded too.
#[tactic(auto, unfolding(dw_tree::specs::Tree::nesting))]
pub fn most_levels() -> usize
    ensures { result ≡ nesting }
{
    NESTING
}

/// A unit under construction, step by step: a header with its table, a tree that grows at one open
/// place, and the nulls behind its root (section 7.5).
///
/// What a call's `requires` asks for its caller has tested, by the draft's observers or because it
/// knows what it did. So an error says only that memory was refused, and then the draft holds what it
/// held. What is finished can be written.
#[derive(Debug, Drop)]
pub struct Draft {
    header: Header,
    tree: TreeDraft,
    /// The widths of the nulls behind the root.
    padding: Vec<u8>,
    /// The count of their bytes.
    padded: u64,
}

impl Model for Draft {
    ghost use Rattle.dw_unit.specs.Draft.{Drafted, drafted_code, IsDrafted};

    ghost Value = { Drafted };

    ghost coded = { drafted_code };

    ghost view = { λ a. record {
      header = a.header;
      table = a.tree.table;
      place = a.tree.place;
      padding = a.padding.items;
    } };

    ghost invariant = { λ a.
        IsDrafted
        (record { header = a.header; table = a.tree.table; place = a.tree.place; padding = a.padding.items }) a.tree
        a.padded };
}

impl Draft {
    /// A unit of this header without entries, over the table of their declarations. It takes no
    /// memory.
    pub fn new(alloc: Global, header: Header, table: Rc<Table>) -> Draft
        ensures { result ≡ empty header table.value }
    {
        Draft {
            header,
            tree: TreeDraft::new(alloc, header.context(), table, header.size()),
            padding: Vec::new(alloc),
            padded: 0,
        }
    }

    /// An entry of this code begins, the root or one below the innermost open entry (sections 7.5.2
    /// and 7.5.3). Where its declaration asks for no values it is complete. `AllocError` where a
    /// growth by one entry is refused.
    #[inline(always)]
    pub fn begin(&mut self, code: Uleb) -> Result<(), AllocError>
        requires some { 0 < code.value }
        requires known { IsSome (declared self.old.table code.value) }
        requires free { self.old.place.unfinished ≡ None }
        requires level { length self.old.place.spot.above < nesting }
        requires only { IsOnlyRoot self.old.place.spot }
        requires short { passes_limit self.old code.width ≡ false }
        ensures ok { OnOk result (self.new ≡ begun (uleb_of code) self.old) }
        ensures size { OnOk result (drafted_size self.new ≡ drafted_size self.old + code.width) }
        ensures err { OnErr result (self.new ≡ self.old) }
    {
        self.tree.begin(code)
    }

    /// An entry of this code begins, which `decl` declares, and is given its first values, `count` of them and none a
    /// text or block, by the bytes that spell them one behind the other (sections 7.5.2 and 7.5.5): the first `size` of
    /// these, by a caller that has read them. It is what `begin` and as many calls of `plain_value` do, and `true` is
    /// answered.
    ///
    /// Where the growth by the values is refused, it is what `begin` does alone: the entry waits for all its values,
    /// and `false` is answered. `AllocError` where a growth by one entry is refused, and nothing is changed.
    #[inline(always)]
    pub fn begin_with(
        &mut self,
        code: Uleb,
        decl: &Decl,
        bytes: &[u8],
        size: usize,
        count: usize,
    ) -> Result<bool, AllocError>
        requires some { 0 < code.value }
        requires known { declared self.old.table code.value ≡ Some decl.now }
        requires free { self.old.place.unfinished ≡ None }
        requires level { length self.old.place.spot.above < nesting }
        requires only { IsOnlyRoot self.old.place.spot }
        requires within { size ≤ length bytes.now }
        requires spelled { SpellsFirst (context_of self.old.header) decl.now.pairs count (take size bytes.now) }
        requires short { passes_limit self.old (code.width + size) ≡ false }
        ensures ok { (vs : List Attribute) → length vs ≡ count
            → ArePlain (context_of self.old.header) decl.now.pairs vs (take size bytes.now)
            → IfOk result (λ all. self.new ≡ given_each (given_if all vs) (begun (uleb_of code) self.old)) }
        ensures size { IfOk result (λ all. drafted_size self.new
            ≡ drafted_size self.old + (code.width + size_if all size)) }
        ensures err { OnErr result (self.new ≡ self.old) }
    {
        self.tree.begin_with(code, decl, bytes, size, count)
    }

    /// The unfinished entry is given its next value (section 7.5.3). With its last value it is
    /// complete: closed where its declaration has no children, else open. `AllocError` where a growth
    /// by the value is refused.
    pub fn value(&mut self, value: &AttrValue<'_>) -> Result<(), AllocError>
        requires between { partial_in self.old.place.unfinished ≡ None }
        requires fits { NextFits (context_of self.old.header) self.old.table self.old.place.unfinished
            (attribute_of value.now) }
        requires short { passes_limit self.old (length (value_bytes self.old (attribute_of value.now))) ≡ false }
        ensures ok { OnOk result (self.new ≡ given (attribute_of value.now) self.old) }
        ensures size { OnOk result
            (drafted_size self.new ≡ drafted_size self.old + length (value_bytes self.old (attribute_of value.now))) }
        ensures err { OnErr result (self.new ≡ self.old) }
    {
        match self.next_pair() {
            Some(pair) => {
                let context = self.header.context();
                let size = size_of(context, pair.form.value, value);
                let front = value_front(context, pair.form.value, value);
                self.put_value(value, front.as_slice(), size)
            }
            None => unreachable!(),
        }
    }

    /// The same with the bytes that spell the value (section 7.5.5), by a caller that has read them.
    #[inline(always)]
    pub fn spelled_value(
        &mut self,
        value: &AttrValue<'_>,
        spelling: &[u8],
    ) -> Result<(), AllocError>
        requires between { partial_in self.old.place.unfinished ≡ None }
        requires fits { NextFits (context_of self.old.header) self.old.table self.old.place.unfinished
            (attribute_of value.now) }
        requires spelled { spelling.now ≡ value_bytes self.old (attribute_of value.now) }
        requires short { passes_limit self.old (length (value_bytes self.old (attribute_of value.now))) ≡ false }
        ensures ok { OnOk result (self.new ≡ given (attribute_of value.now) self.old) }
        ensures size { OnOk result
            (drafted_size self.new ≡ drafted_size self.old + length (value_bytes self.old (attribute_of value.now))) }
        ensures err { OnErr result (self.new ≡ self.old) }
    {
        let front = &spelling[..front_len(value, spelling.len())];
        self.put_value(value, front, spelling.len() as u64)
    }

    /// The unfinished entry is given its next value, no text or block, by the bytes that spell it
    /// (section 7.5.5), by a caller that has read them. `AllocError` where a growth by the value is refused.
    #[inline(always)]
    pub fn plain_value(&mut self, spelling: &[u8]) -> Result<(), AllocError>
        requires between { partial_in self.old.place.unfinished ≡ None }
        requires spelled { SpellsPlain (context_of self.old.header) self.old.table
            self.old.place.unfinished spelling.now }
        requires short { passes_limit self.old (length spelling.now) ≡ false }
        ensures ok { (v : Attribute)
            → IsPlainNext (context_of self.old.header) self.old.table self.old.place.unfinished v spelling.now
            → OnOk result (self.new ≡ given v self.old) }
        ensures size { OnOk result (drafted_size self.new ≡ drafted_size self.old + length spelling.now) }
        ensures err { OnErr result (self.new ≡ self.old) }
    {
        self.tree.plain_value(spelling)
    }

    /// The same with the count of the value's bytes, and those that come before its own text or block.
    #[inline(always)]
    fn put_value(
        &mut self,
        value: &AttrValue<'_>,
        front: &[u8],
        size: u64,
    ) -> Result<(), AllocError>
        requires between { partial_in self.old.place.unfinished ≡ None }
        requires fits { NextFits (context_of self.old.header) self.old.table self.old.place.unfinished
            (attribute_of value.now) }
        requires front { front.now ≡ front_bytes (attribute_of value.now)
            (value_bytes self.old (attribute_of value.now)) }
        requires size { size ≡ length (value_bytes self.old (attribute_of value.now)) }
        requires short { passes_limit self.old (length (value_bytes self.old (attribute_of value.now))) ≡ false }
        ensures ok { OnOk result (self.new ≡ given (attribute_of value.now) self.old) }
        ensures size { OnOk result
            (drafted_size self.new ≡ drafted_size self.old + length (value_bytes self.old (attribute_of value.now))) }
        ensures err { OnErr result (self.new ≡ self.old) }
    {
        self.tree.value(value, front, size)
    }

    /// A text, or a block whose length field has `width` bytes, begins as the next value of the unfinished entry
    ///  (section 7.5.5). `via` is the form that an indirect value names. The bytes come
    /// with `bytes`, and `end_value` ends it. `AllocError` where the growth that its end needs is
    /// refused.
    pub fn start(&mut self, via: Option<Uleb>, width: Option<u8>) -> Result<(), AllocError>
        requires unfinished { IsSome self.old.place.unfinished }
        requires between { partial_in self.old.place.unfinished ≡ None }
        ensures ok { OnOk result (self.new ≡ started (option_map uleb_of via) width self.old) }
        ensures size { OnOk result (drafted_size self.new ≡ drafted_size self.old) }
        ensures err { OnErr result (self.new ≡ self.old) }
    {
        self.tree.start(via, width)
    }

    /// The partial text or block is given its next bytes. `AllocError` where a growth by them is
    /// refused.
    pub fn bytes(&mut self, piece: &[u8]) -> Result<(), AllocError>
        requires partial { IsSome (partial_in self.old.place.unfinished) }
        ensures ok { OnOk result (self.new ≡ extended piece.now self.old) }
        ensures size { OnOk result (drafted_size self.new ≡ drafted_size self.old) }
        ensures err { OnErr result (self.new ≡ self.old) }
    {
        self.tree.bytes(piece)
    }

    /// The partial text or block has all its bytes. It takes no memory.
    pub fn end_value(&mut self)
        requires fits { PartialFits self.old }
        requires short { PartialShort self.old }
        ensures ended { self.new ≡ ended self.old }
        ensures size { IfSome (partial_of self.old)
            (λ v. drafted_size self.new ≡ drafted_size self.old + length (value_bytes self.old v)) }
    {
        if let Some((front, size)) = self.partial_size() {
            self.tree.end_value(front.as_slice(), size);
        }
    }

    /// The bytes of the partial text or block that come before its own, and the count of all.
    fn partial_size(&self) -> Option<(ArrayVec<u8, 32>, u64)>
        requires { PartialFits self.now }
        ensures front { option_map (λ x. x.0.items) result
            ≡ option_map (λ v. front_bytes v (value_bytes self.now v)) (partial_of self.now) }
        ensures size { option_map (λ x. x.1) result
            ≡ option_map (λ v. length (value_bytes self.now v)) (partial_of self.now) }
    {
        let partial = self.partial_value()?;
        match self.next_pair() {
            Some(pair) => {
                let context = self.header.context();
                let size = size_of(context, pair.form.value, &partial);
                Some((value_front(context, pair.form.value, &partial), size))
            }
            None => unreachable!(),
        }
    }

    /// The innermost open entry is closed: a null of `width` bytes, 1 to 16, ends its children
    /// (section 2.3). `AllocError` where a growth by the null is refused.
    #[inline(always)]
    pub fn close(&mut self, width: u8) -> Result<(), AllocError>
        requires width { is_width width ≡ true }
        requires inside { self.old.place.spot.above ≢ [] }
        requires free { self.old.place.unfinished ≡ None }
        requires short { passes_limit self.old width ≡ false }
        ensures ok { OnOk result (self.new ≡ closed width self.old) }
        ensures size { OnOk result (drafted_size self.new ≡ drafted_size self.old + width) }
        ensures err { OnErr result (self.new ≡ self.old) }
    {
        self.tree.close(null(width))
    }

    /// One more null of `width` bytes, 1 to 16, stands behind the root, as padding (section 7.5).
    /// `AllocError` where a growth by the null is refused.
    pub fn pad(&mut self, width: u8) -> Result<(), AllocError>
        requires width { is_width width ≡ true }
        requires root { is_bare self.old.place.spot ≡ false }
        requires whole { self.old.place.spot.above ≡ [] }
        requires free { self.old.place.unfinished ≡ None }
        requires short { passes_limit self.old width ≡ false }
        ensures ok { OnOk result (self.new ≡ padded width self.old) }
        ensures size { OnOk result (drafted_size self.new ≡ drafted_size self.old + width) }
        ensures err { OnErr result (self.new ≡ self.old) }
    {
        self.padding.push(width)?;
        self.padded += width as u64;
        Ok(())
    }

    /// The unfinished entry is taken back, with the values that it was given. It takes no memory.
    pub fn undo(&mut self)
        ensures { self.new ≡ undone self.old }
    {
        self.tree.undo();
    }

    /// The unit, once its root is closed. It can be written, in as many bytes as the draft had. It takes
    /// no memory.
    pub fn finish(self) -> Unit
        requires root { is_bare self.place.spot ≡ false }
        requires whole { self.place.spot.above ≡ [] }
        requires free { self.place.unfinished ≡ None }
        ensures unit { finished self ≡ Some result }
        ensures fits { UnitFits result }
        ensures size { length (bytes_of result) ≡ drafted_size self }
    {
        let size = self.size();
        let Draft {
            header,
            tree,
            padding,
            padded: _,
        } = self;
        let tree = tree.finish();
        Unit::of(header, Body { tree, padding }, size)
    }

    /// The header.
    pub fn header(&self) -> Header
        ensures { result ≡ self.now.header }
    {
        self.header
    }

    /// The table of its entries' declarations.
    pub fn table(&self) -> &Table
        ensures { result.now ≡ self.now.table }
    {
        self.tree.table()
    }

    /// The same table, shared. `AllocError` where it is shared as often as it can be.
    pub fn share_table(&self) -> Result<Rc<Table>, AllocError>
        ensures { IfOk result (λ t. t.value ≡ self.now.table) }
    {
        self.tree.share_table()
    }

    /// The count of its bytes so far, with those of the initial length and of the unfinished entry,
    /// but not those of a partial value. It is less than 2^32 - 12 in the 32-bit format, and less
    /// than 2^63 in the 64-bit format.
    pub fn size(&self) -> u64
        ensures size { result ≡ drafted_size self.now }
        ensures short { result < limit_of self.now.header.format }
    {
        self.tree.end() + self.padded
    }

    /// The pair whose value the unfinished entry is given next (section 7.5.3). None exactly where
    /// no entry is read.
    #[inline(always)]
    pub fn next_pair(&self) -> Option<Pair>
        ensures pair { option_map pair_of result ≡ next_pair self.now.table self.now.place.unfinished }
        ensures unfinished { is_some result ≡ is_some self.now.place.unfinished }
    {
        self.tree.next_pair()
    }

    /// The pairs whose values the unfinished entry is still to be given (section 7.5.3), out of the table of
    /// its entries' declarations. None where no entry is read.
    pub fn next_pairs<'a>(&self, table: &'a Table) -> &'a [Pair]
        requires { table.now ≡ self.now.table }
        ensures some { IfSome self.now.place.unfinished (λ r. map pair_of result.now ≡ next_pairs self.now.table r) }
        ensures none { self.now.place.unfinished ≡ None → result.now ≡ [] }
    {
        self.tree.next_pairs(table)
    }

    /// The partial text or block, with its bytes so far.
    pub fn partial_value(&self) -> Option<AttrValue<'_>>
        ensures { option_map attribute_of result ≡ partial_of self.now }
    {
        self.tree.partial_value()
    }

    /// The bytes of its texts and blocks, those of a partial one included, in the order in which
    /// they were given. It keeps no others.
    pub fn content(&self) -> &[u8]
        ensures { result.now ≡ held_in self.now.place }
    {
        self.tree.content()
    }

    /// The tree that grows. What a draft takes in memory are its lists, whose lengths the tree tells:
    /// `row_count`, `heads` and `content`. It tells how many entries and values it has, too (`counts`).
    pub fn tree(&self) -> &TreeDraft
        ensures { result.now ≡ tree_in self.now }
    {
        &self.tree
    }

    /// How many entries are open.
    pub fn depth(&self) -> usize
        ensures { result ≡ length self.now.place.spot.above }
    {
        self.tree.depth()
    }

    /// Whether an entry may begin below the innermost open one: whether the tree has a level left, of the
    /// `most_levels` that it may have.
    #[tactic(auto, unfolding(dw_tree::specs::Tree::nesting))]
    pub fn has_level(&self) -> bool
        ensures { IsTrue result ↔ (length self.now.place.spot.above < nesting) }
    {
        self.depth() < NESTING
    }

    /// Whether an entry waits for values (section 7.5.3).
    #[inline(always)]
    pub fn is_unfinished(&self) -> bool
        ensures { result ≡ is_some self.now.place.unfinished }
    {
        self.tree.is_unfinished()
    }

    /// Whether there is no entry, besides an unfinished one.
    pub fn is_empty(&self) -> bool
        ensures { result ≡ is_bare self.now.place.spot }
    {
        self.tree.is_empty()
    }

    /// Whether the unit is too long with so many bytes more: its unit_length would reach 0xfffffff0 in
    /// the 32-bit format, or it would pass 2^63 - 1 bytes (sections 7.2.2 and 7.4).
    pub fn is_too_long(&self, more: u64) -> bool
        ensures { result ≡ passes_limit self.now more }
    {
        more >= size_limit(self.header.format()) - self.size()
    }
}

/// The least count of bytes that no unit of the format has (sections 7.2.2 and 7.4).
pub(crate) fn size_limit(format: Format) -> u64
    ensures { result ≡ limit_of format }
{
    match format {
        Format::Dwarf32 => 4 + 0xffff_fff0,
        Format::Dwarf64 => 1 << 63,
    }
}

/// A null of so many bytes.
fn null(width: u8) -> Uleb
    requires { is_width width ≡ true }
    ensures { uleb_of result ≡ zero_of width }
{
    match Uleb::with_width(0, width) {
        Some(null) => null,
        None => unreachable!(),
    }
}

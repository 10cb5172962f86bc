//! The fields that stand whole in a piece, below an open entry (sections 7.5.2 and 7.5.3).
ghost use Rattle.std.specs.Prelude.{◌≡◌, ◌≤◌, ◌<◌, [], None, Some, length, drop, true, false, IfOk, IfSome};
ghost use Rattle.dw_leb.specs.Reader.{Found};
ghost use Rattle.dw_leb.specs.ReadNumber.{read_uleb};
ghost use Rattle.dw_leb.specs.View.{uleb_of};
ghost use Rattle.dw_abbrev.specs.PairView.{pair_of};
ghost use Rattle.dw_abbrev.specs.Table.{declared};
ghost use Rattle.dw_tree.specs.Steps.{next_pair, partial_in};
ghost use Rattle.dw_feed.specs.BodyFeed.{part};
ghost use Rattle.dw_feed.specs.FeedInvariant.{Keeps, context as context_in, frames_of, left as left_of};
ghost use Rattle.dw_feed.specs.FieldSteps.{Standing, HasPart};
ghost use Rattle.dw_feed.specs.EntrySteps.{NoneKept, NextSays, TakesOn, EntrySays};
ghost use Rattle.dw_feed.specs.PlainValues.{PlainAt};

use crate::code::number;
use crate::unit_in_parts::UnitInParts;
use crate::value::{PlainSize, first_values, plain_size, value_at};
use dw_abbrev::{Decl, Pair, Table};
use dw_form::Ctx;
use dw_leb::Uleb;
use std::alloc::AllocError;

impl UnitInParts {
    /// The fields that stand whole in the piece, where the table is at hand. The result is what is left of
    /// the piece. `AllocError` where a growth by an entry or by a null was refused.
    pub(crate) fn fields_at_once<'a>(
        &mut self,
        table: Option<&Table>,
        b: &'a [u8],
    ) -> Result<&'a [u8], AllocError>
        requires over { IfSome table (λ t. t.now ≡ self.old.table) }
        requires stands { Keeps self.old }
        requires has { HasPart self.old }
        requires none_kept { NoneKept self.old }
        requires between { partial_in self.old.place.unfinished ≡ None }
        ensures { IfOk result (λ rest. TakesOn self.old b.now self.new rest.now) }
    {
        match table {
            Some(table) => self.fields(table, b),
            None => Ok(b),
        }
    }

    /// The same: first the values of the unfinished entry, then the entries behind it.
    fn fields<'a>(&mut self, table: &Table, b: &'a [u8]) -> Result<&'a [u8], AllocError>
        requires over { table.now ≡ self.old.table }
        requires stands { Keeps self.old }
        requires has { HasPart self.old }
        requires none_kept { NoneKept self.old }
        requires between { partial_in self.old.place.unfinished ≡ None }
        ensures { IfOk result (λ rest. TakesOn self.old b.now self.new rest.now) }
    {
        let mut rest = b;
        loop {
            rest = self.values(table, rest);
            match self.next_entry(table, rest)? {
                Some(size) => rest = behind(rest, size),
                None => return Ok(rest),
            }
        }
    }

    /// Below an open entry and where no values are still to come, takes the null at the front of `b`, or the
    /// code there and the first values of the entry that it begins: without them, where the growth by them is
    /// refused. The count of its bytes is answered. Where it isn't whole there or is refused, nothing is
    /// changed; the same for a null that closes the root. `AllocError` where a growth by the entry or by the
    /// null was refused.
    #[inline(always)]
    fn next_entry(&mut self, table: &Table, b: &[u8]) -> Result<Option<usize>, AllocError>
        requires over { table.now ≡ self.old.table }
        requires stands { Keeps self.old }
        requires has { HasPart self.old }
        requires none_there { part self.old ≡ [] }
        ensures { IfOk result (λ size. EntrySays self.old b.now size self.new) }
    {
        if b.is_empty() || self.draft.depth() == 0 || self.draft.is_unfinished() {
            return Ok(None);
        }
        let lim = self.left();
        match number(b, lim) {
            Ok(code) => self.next_coded(table, code, b, lim),
            Err(_) => Ok(None),
        }
    }

    /// The same of a code or null that was read, where `lim` bytes are left to the unit's end.
    #[inline(always)]
    fn next_coded(
        &mut self,
        table: &Table,
        code: Uleb,
        b: &[u8],
        lim: u64,
    ) -> Result<Option<usize>, AllocError>
        requires over { table.now ≡ self.old.table }
        requires stands { Keeps self.old }
        requires has { HasPart self.old }
        requires none_there { part self.old ≡ [] }
        requires free { self.old.place.unfinished ≡ None }
        requires inside { 0 < length (frames_of self.old) }
        requires read { read_uleb b.now (left_of self.old) ≡ Found (uleb_of code) code.width }
        requires room { code.width ≤ length b.now }
        requires within { code.width ≤ left_of self.old }
        requires lim { lim ≡ left_of self.old }
        ensures { IfOk result (λ size. EntrySays self.old b.now size self.new) }
    {
        if code.value == 0 {
            return self.next_null(code, b);
        }
        match table.get(code.value) {
            Some(decl) => self.next_begun(decl, code, b, lim),
            None => Ok(None),
        }
    }

    /// The same of a null.
    #[inline(always)]
    fn next_null(&mut self, null: Uleb, _b: &[u8]) -> Result<Option<usize>, AllocError>
        requires stands { Keeps self.old }
        requires has { HasPart self.old }
        requires none_there { part self.old ≡ [] }
        requires free { self.old.place.unfinished ≡ None }
        requires inside { 0 < length (frames_of self.old) }
        requires read { read_uleb _b.now (left_of self.old) ≡ Found (uleb_of null) null.width }
        requires room { null.width ≤ length _b.now }
        requires within { null.width ≤ left_of self.old }
        requires zero { null.value ≡ 0 }
        ensures { IfOk result (λ size. EntrySays self.old _b.now size self.new) }
    {
        if self.draft.depth() == 1 {
            return Ok(None);
        }
        self.draft.close(null.width)?;
        Ok(Some(null.width as usize))
    }

    /// The same of a code that is declared.
    #[inline(always)]
    fn next_begun(
        &mut self,
        decl: &Decl,
        code: Uleb,
        b: &[u8],
        lim: u64,
    ) -> Result<Option<usize>, AllocError>
        requires stands { Keeps self.old }
        requires has { HasPart self.old }
        requires none_there { part self.old ≡ [] }
        requires free { self.old.place.unfinished ≡ None }
        requires inside { 0 < length (frames_of self.old) }
        requires read { read_uleb b.now (left_of self.old) ≡ Found (uleb_of code) code.width }
        requires room { code.width ≤ length b.now }
        requires within { code.width ≤ left_of self.old }
        requires some { 0 < code.value }
        requires known { declared self.old.table code.value ≡ Some decl.now }
        requires lim { lim ≡ left_of self.old }
        ensures { IfOk result (λ size. EntrySays self.old b.now size self.new) }
    {
        if !self.draft.has_level() {
            return Ok(None);
        }
        let context = self.draft.header().context();
        let rest = behind(b, code.width as usize);
        let first = first_values(context, decl, rest.len(), lim - code.width as u64);
        let all = self
            .draft
            .begin_with(code, decl, rest, first.size, first.count)?;
        if !all {
            return Ok(Some(code.width as usize));
        }
        Ok(Some(code.width as usize + first.size))
    }

    /// Below an open entry, takes the values of the unfinished one that stand whole at the front of `b`, one
    /// behind the other, up to the first that doesn't. The result is what is left of `b`.
    #[inline(always)]
    fn values<'a>(&mut self, table: &Table, b: &'a [u8]) -> &'a [u8]
        requires over { table.now ≡ self.old.table }
        requires stands { Keeps self.old }
        requires has { HasPart self.old }
        requires none_kept { NoneKept self.old }
        requires between { partial_in self.old.place.unfinished ≡ None }
        ensures { TakesOn self.old b.now self.new result.now }
    {
        if self.draft.depth() == 0 {
            return b;
        }
        let context = self.draft.header().context();
        let mut lim = self.left();
        let mut rest = b;
        for pair in self.draft.next_pairs(table) {
            match self.next_value(context, pair, rest, lim) {
                Some(size) => {
                    rest = behind(rest, size);
                    lim -= size as u64;
                }
                None => return rest,
            }
        }
        rest
    }

    /// The value at the front of these bytes, of which `lim` are left to the unit's end, goes to the draft, and
    /// the count of its bytes is answered. Where it isn't whole there, or there is no memory for it, nothing is
    /// changed.
    #[inline(always)]
    fn next_value(&mut self, context: Ctx, pair: &Pair, bytes: &[u8], lim: u64) -> Option<usize>
        requires next { next_pair self.old.table self.old.place.unfinished ≡ Some (pair_of pair.now) }
        requires stands { Standing self.old }
        requires none_kept { NoneKept self.old }
        requires between { partial_in self.old.place.unfinished ≡ None }
        requires context { context ≡ context_in self.old }
        requires lim { lim ≡ left_of self.old }
        ensures { NextSays self.old bytes.now result self.new }
    {
        match plain_size(context, pair, bytes, lim) {
            PlainSize::Whole(size) => self.next_plain(pair, bytes, size),
            PlainSize::NoBytes => self.next_plain(pair, bytes, 0),
            PlainSize::Cut => None,
            PlainSize::Untold => self.next_read(context, pair, bytes, lim),
        }
    }

    /// The same of a value whose form told its size.
    #[inline(always)]
    fn next_plain(&mut self, _pair: &Pair, bytes: &[u8], size: usize) -> Option<usize>
        requires next { next_pair self.old.table self.old.place.unfinished ≡ Some (pair_of _pair.now) }
        requires stands { Standing self.old }
        requires none_kept { NoneKept self.old }
        requires between { partial_in self.old.place.unfinished ≡ None }
        requires plain { PlainAt (context_in self.old) (pair_of _pair.now) bytes.now (left_of self.old) size }
        requires room { size ≤ length bytes.now }
        ensures { NextSays self.old bytes.now result self.new }
    {
        match self.draft.plain_value(&bytes[..size]) {
            Ok(()) => Some(size),
            Err(_) => None,
        }
    }

    /// The same of any value.
    fn next_read(&mut self, context: Ctx, pair: &Pair, bytes: &[u8], lim: u64) -> Option<usize>
        requires next { next_pair self.old.table self.old.place.unfinished ≡ Some (pair_of pair.now) }
        requires stands { Standing self.old }
        requires none_kept { NoneKept self.old }
        requires between { partial_in self.old.place.unfinished ≡ None }
        requires context { context ≡ context_in self.old }
        requires lim { lim ≡ left_of self.old }
        ensures { NextSays self.old bytes.now result self.new }
    {
        // None of these has no bytes.
        if bytes.is_empty() {
            return None;
        }
        match value_at(context, pair, bytes, lim) {
            Ok((value, size)) => match self.draft.spelled_value(&value, &bytes[..size]) {
                Ok(()) => Some(size),
                Err(_) => None,
            },
            Err(_) => None,
        }
    }
}

/// The bytes behind the first so many.
fn behind(b: &[u8], count: usize) -> &[u8]
    requires { count ≤ length b.now }
    ensures { result.now ≡ drop count b.now }
{
    &b[count..]
}

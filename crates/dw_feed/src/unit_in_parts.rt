//! A unit of which only some bytes came (section 7.5).
ghost use Rattle.std.specs.Prelude.{◌≡◌, ◌≢◌, ◌≤◌, ◌<◌, ◌+◌, ◌-◌, ◌++◌, ◌∷◌, [], length, drop, None, Some, is_some, IsSome, IfSome, option_map, OnOk, OnErr, false};
ghost use Rattle.dw_leb.specs.declared.errors.SectionId.TheVariants.{Info};
ghost use Rattle.dw_leb.specs.Decide.{AreBytes};
ghost use Rattle.dw_leb.specs.View.{uleb_of};
ghost use Rattle.dw_leb.specs.Reader.{Broken};
ghost use Rattle.dw_leb.specs.declared.errors.Reason.TheVariants.{Truncated};
ghost use Rattle.dw_form.specs.Lent.{attribute_of};
ghost use Rattle.dw_form.specs.Pieces.{via_bytes};
ghost use Rattle.dw_form.specs.ReadForm.{read_attribute};
ghost use Rattle.dw_abbrev.specs.PairView.{pair_of};
ghost use Rattle.dw_abbrev.specs.FewPairs.{FewPairs};
ghost use Rattle.dw_tree.specs.Steps.{next_pair, partial_in, NextFits};
ghost use Rattle.dw_header.specs.Laws.{HasHeaderBytes};
ghost use Rattle.dw_unit.specs.Draft.{given, passes_limit, value_bytes};
ghost use Rattle.dw_feed.specs.BodyView.{drafted};
ghost use Rattle.dw_feed.specs.ValueSteps.{ValueSays, naming};
ghost use Rattle.dw_feed.specs.ValueCut.{IsCutHere};
ghost use Rattle.dw_feed.specs.PlainValues.{told_size};
ghost use Rattle.dw_feed.specs.PlainFeed.{root_if_whole, unit_with};
ghost use Rattle.dw_feed.specs.BodyFeed.{Reading, EndsBody, started, part};
ghost use Rattle.dw_feed.specs.HeldCounts.{held_by};
ghost use Rattle.dw_feed.specs.HeldView.{held_of};
ghost use Rattle.dw_feed.specs.FeedInvariant.{Keeps, Kept, context, left as left_of, moved_to};
ghost use Rattle.dw_feed.specs.FieldSteps.{Standing, HasPart, FrontsWait, StepSays, CodeStands, IfNoMemory, IfNoneLeft, code_meaning, behind_code, BehindCode, CodeBreaks, Waits, TakenSays};

use crate::code::{code_at, is_cut};
use crate::held::Held;
use crate::step::{Attempt, Step, Taken};
use crate::value::{form_at, is_short, joined, told_size, value_at, without_front};
use arrayvec::ArrayVec;
use dw_abbrev::{Pair, Table};
use dw_form::AttrValue;
use dw_leb::constants::form::DW_FORM_INDIRECT;
use dw_leb::{Fault, Reason, SectionId, Uleb};
use dw_unit::{Draft, Header, Unit};
use std::alloc::{AllocError, Global};
use std::marker::Model;
use std::rc::Rc;

/// A unit of which only some bytes came: what is whole is in a draft, and of the field that comes next the
/// parts that came.
#[derive(Debug, Drop)]
pub(crate) struct UnitInParts {
    pub(crate) draft: Draft,
    unit_length: u64,
    /// The form that an indirect value names, before the value itself begins (section 7.5.3).
    pub(crate) named: Option<Uleb>,
    /// How many bytes of a block are still to come.
    pub(crate) to_come: u64,
    /// Bytes of a number or of a length field that isn't whole.
    pub(crate) pending: ArrayVec<u8, 16>,
}

impl Model for UnitInParts {
    ghost use Rattle.std.specs.Prelude.{option_map};
    ghost use Rattle.dw_leb.specs.View.{uleb_of};
    ghost use Rattle.dw_feed.specs.BodyFeed.{PartialUnit};
    ghost use Rattle.dw_feed.specs.BodyView.{coming, partial_unit_code};

    ghost Value = { PartialUnit };

    ghost coded = { partial_unit_code };

    ghost view = { λ a. coming a.draft a.unit_length (option_map uleb_of a.named) a.to_come a.pending.items };
}

impl UnitInParts {
    /// A unit of this header and unit_length of which nothing else came.
    pub(crate) fn new(alloc: Global, header: Header, length: u64, table: Rc<Table>) -> UnitInParts
        ensures { result ≡ started header length table.value }
    {
        UnitInParts {
            draft: Draft::new(alloc, header, table),
            unit_length: length,
            named: None,
            to_come: 0,
            pending: ArrayVec::new(),
        }
    }

    /// How many bytes the unit has behind what is whole of it (section 7.5.1).
    pub(crate) fn left(&self) -> u64
        requires { Standing self.now }
        ensures { result ≡ left_of self.now }
    {
        let length_size = self.draft.header().format().length_size() as u64;
        self.unit_length - (self.draft.size() - length_size)
    }

    /// How many bytes of a number or of a length field are kept.
    pub(crate) fn pending(&self) -> usize
        ensures { result ≡ length self.now.pending }
    {
        self.pending.len()
    }

    /// What is held of it.
    pub(crate) fn held(&self) -> Held
        requires { Keeps self.now }
        ensures exact { held_of result ≡ held_by self.now }
        ensures few { FewPairs self.now.table }
        ensures short { result.pending ≤ 16 }
    {
        self.draft.table().pairs_are_few();
        let (entries, values) = self.draft.tree().counts();
        let unfinished = self.draft.next_pair().is_some() as usize;
        Held {
            pending: self.pending.len(),
            nested: self.draft.depth() + unfinished,
            entries,
            values,
            pool: self.draft.content().len(),
        }
    }

    /// The code or null at the place, where it is the next field: straight from the piece, where it is whole there.
    fn code(&mut self, b: &[u8]) -> Step
        requires free { self.old.place.unfinished ≡ None }
        requires stands { Keeps self.old }
        requires has { HasPart self.old }
        requires waits { FrontsWait self.old (part self.old) }
        ensures says { StepSays self.old (part self.old ++ b.now) result self.new }
        ensures memory { IfNoMemory result (CodeStands self.old (part self.old ++ b.now)) }
    {
        if self.pending.is_empty() && !b.is_empty() {
            let lim = self.left();
            if let Ok(code) = code_at(&self.draft, b, lim) {
                return self.put(code, b.len() - code.width as usize);
            }
        }
        self.code_in_parts(b)
    }

    /// The same byte by byte: of its number some bytes may be kept.
    fn code_in_parts(&mut self, b: &[u8]) -> Step
        requires free { self.old.place.unfinished ≡ None }
        requires stands { Keeps self.old }
        requires has { HasPart self.old }
        requires waits { FrontsWait self.old (part self.old) }
        ensures says { StepSays self.old (part self.old ++ b.now) result self.new }
        ensures memory { IfNoMemory result (CodeStands self.old (part self.old ++ b.now)) }
    {
        let lim = self.left();
        let mut rest = b;
        loop {
            match code_at(&self.draft, self.pending.as_slice(), lim) {
                Ok(code) => return self.put(code, rest.len()),
                Err(reason) => {
                    if !is_cut(reason) {
                        return Step::Refused(rest.len(), reason);
                    }
                }
            }
            match rest.split_first() {
                Some((byte, others)) => {
                    self.pending.push(*byte);
                    rest = others;
                }
                None => return Step::Wanting,
            }
        }
    }

    /// A code or null that is whole stands at the place, and so many bytes are left over.
    #[inline(always)]
    fn put(&mut self, code: Uleb, over: usize) -> Step
        requires free { self.old.place.unfinished ≡ None }
        requires stands { Standing self.old }
        requires meant { code_meaning self.old.table self.old.place.spot.above
            self.old.place.spot.left (uleb_of code) ≡ None }
        requires within { code.width ≤ left_of self.old }
        requires named { self.old.named ≡ None }
        requires none_to_come { self.old.to_come ≡ 0 }
        ensures { BehindCode self.old (uleb_of code) over result self.new }
    {
        let put = if code.value != 0 {
            self.draft.begin(code)
        } else if self.draft.depth() > 0 {
            self.draft.close(code.width)
        } else {
            self.draft.pad(code.width)
        };
        self.pending.clear();
        match put {
            Ok(()) => Step::Found(over),
            Err(_) => Step::NoMemory,
        }
    }

    /// Takes fields of the piece while more are needed.
    pub(crate) fn take(&mut self, piece: &[u8]) -> Taken
        requires stands { Keeps self.old }
        requires has { HasPart self.old }
        requires fit { AreBytes (part self.old) }
        requires waits { Waits self.old }
        ensures says { TakenSays self.old piece.now result self.new }
        ensures memory { IfNoneLeft result (CodeStands self.old (part self.old ++ piece.now)) }
    {
        match self.draft.share_table() {
            Ok(table) => self.take_over(Some(&table), piece),
            Err(_) => self.take_over(None, piece),
        }
    }

    /// The same, where the table of the entries' declarations is at hand, or isn't.
    fn take_over(&mut self, table: Option<&Table>, piece: &[u8]) -> Taken
        requires over { IfSome table (λ t. t.now ≡ self.old.table) }
        requires stands { Keeps self.old }
        requires has { HasPart self.old }
        requires fit { AreBytes (part self.old) }
        requires waits { Waits self.old }
        ensures says { TakenSays self.old piece.now result self.new }
        ensures memory { IfNoneLeft result (CodeStands self.old (part self.old ++ piece.now)) }
    {
        let mut left = piece;
        loop {
            let here = self.draft.size();
            match self.step(left) {
                Step::Found(over) => {
                    left = last(left, over);
                    if self.is_whole() {
                        return Taken::Whole(over);
                    }
                    match self.fields_at_once(table, left) {
                        Ok(rest) => left = rest,
                        Err(_) => return Taken::NoMemory,
                    }
                }
                Step::Wanting => return Taken::More,
                Step::Refused(over, reason) => return Taken::Refused(over, fault_at(here, reason)),
                Step::NoMemory => return Taken::NoMemory,
            }
        }
    }

    /// The field at the place.
    fn step(&mut self, b: &[u8]) -> Step
        requires stands { Keeps self.old }
        requires has { HasPart self.old }
        requires waits { Waits self.old }
        ensures says { StepSays self.old (part self.old ++ b.now) result self.new }
        ensures memory { IfNoMemory result (CodeStands self.old (part self.old ++ b.now)) }
    {
        match self.draft.next_pair() {
            None => self.code(b),
            Some(pair) => self.value(&pair, b),
        }
    }

    /// The value at the place, under its pair.
    fn value(&mut self, pair: &Pair, b: &[u8]) -> Step
        requires next { next_pair self.old.table self.old.place.unfinished ≡ Some (pair_of pair.now) }
        requires stands { Keeps self.old }
        requires has { HasPart self.old }
        requires waits { Waits self.old }
        ensures { StepSays self.old (part self.old ++ b.now) result self.new }
    {
        if self.draft.partial_value().is_some() {
            self.content(b)
        } else if self.named.is_none() && self.pending.is_empty() {
            self.new_value(pair, b)
        } else {
            self.value_in_parts(pair, b)
        }
    }

    /// The value at the place, of which nothing is there yet: straight from the piece, where it is whole there.
    fn new_value(&mut self, pair: &Pair, b: &[u8]) -> Step
        requires next { next_pair self.old.table self.old.place.unfinished ≡ Some (pair_of pair.now) }
        requires stands { Keeps self.old }
        requires has { HasPart self.old }
        requires between { partial_in self.old.place.unfinished ≡ None }
        requires none_there { part self.old ≡ [] }
        ensures { StepSays self.old (part self.old ++ b.now) result self.new }
    {
        let told = self.told(pair);
        match self.give(pair, told, b, self.left()) {
            Attempt::Whole(size) => Step::Found(b.len() - size),
            Attempt::NoMemory => Step::NoMemory,
            Attempt::Broken(reason) => {
                if is_cut(reason) && pair.form.value != DW_FORM_INDIRECT {
                    // Then without its bytes it isn't whole either.
                    self.rest_of_value(pair, b)
                } else {
                    self.value_in_parts(pair, b)
                }
            }
        }
    }

    /// How many bytes the value has, where its form alone tells (section 7.5.6).
    #[inline(always)]
    fn told(&self, pair: &Pair) -> Option<usize>
        ensures { result ≡ told_size (context self.now) (pair_of pair.now) }
    {
        // The form of an indirect one doesn't, and its values go this way often.
        if pair.form.value == DW_FORM_INDIRECT {
            return None;
        }
        told_size(self.draft.header().context(), pair)
    }

    /// The value at the place, of whose number or length field some bytes may be kept.
    fn value_in_parts(&mut self, pair: &Pair, b: &[u8]) -> Step
        requires next { next_pair self.old.table self.old.place.unfinished ≡ Some (pair_of pair.now) }
        requires stands { Keeps self.old }
        requires has { HasPart self.old }
        requires waits { Waits self.old }
        requires between { partial_in self.old.place.unfinished ≡ None }
        ensures { StepSays self.old (part self.old ++ b.now) result self.new }
    {
        if pair.form.value == DW_FORM_INDIRECT && self.named.is_none() {
            self.named_form(pair, b)
        } else if self.named.is_none() && self.pending.is_empty() {
            self.own_value(pair, b)
        } else {
            // With what is there of it it was tried when that came.
            self.rest_of_value(pair, b)
        }
    }

    /// The form that an indirect value names, and the value behind it (section 7.5.3).
    fn named_form(&mut self, pair: &Pair, b: &[u8]) -> Step
        requires next { next_pair self.old.table self.old.place.unfinished ≡ Some (pair_of pair.now) }
        requires stands { Keeps self.old }
        requires has { HasPart self.old }
        requires waits { FrontsWait self.old (part self.old) }
        requires between { partial_in self.old.place.unfinished ≡ None }
        requires indirect { pair.now.form.value ≡ 0x16 }
        requires unnamed { self.old.named ≡ None }
        ensures { StepSays self.old (part self.old ++ b.now) result self.new }
    {
        let lim = self.left();
        let mut rest = b;
        loop {
            match form_at(self.pending.as_slice(), lim) {
                Ok(form) => {
                    self.name(form);
                    return self.own_value(pair, rest);
                }
                Err(reason) => {
                    if !is_cut(reason) {
                        return Step::Refused(rest.len(), reason);
                    }
                }
            }
            match rest.split_first() {
                Some((byte, others)) => {
                    self.pending.push(*byte);
                    rest = others;
                }
                None => return Step::Wanting,
            }
        }
    }

    /// The form that an indirect value names is whole: it leaves the bytes that are kept.
    fn name(&mut self, form: Uleb)
        requires there { form.width ≤ length self.old.pending }
        ensures { self.new ≡ naming self.old (uleb_of form) }
    {
        let behind = without_front(self.pending.as_slice(), form.width as usize);
        self.named = Some(form);
        self.pending = behind;
    }

    /// The value itself: a number, or the beginning of a text or block.
    fn own_value(&mut self, pair: &Pair, b: &[u8]) -> Step
        requires next { next_pair self.old.table self.old.place.unfinished ≡ Some (pair_of pair.now) }
        requires stands { Keeps self.old }
        requires has { HasPart self.old }
        requires waits { FrontsWait self.old (part self.old) }
        requires between { partial_in self.old.place.unfinished ≡ None }
        requires named { pair.now.form.value ≡ 0x16 → IsSome self.old.named }
        ensures { StepSays self.old (part self.old ++ b.now) result self.new }
    {
        let told = self.told(pair);
        match self.give_front(pair, told, self.left()) {
            Attempt::Whole(_) => Step::Found(b.len()),
            Attempt::NoMemory => Step::NoMemory,
            Attempt::Broken(reason) => {
                if is_cut(reason) {
                    self.rest_of_value(pair, b)
                } else {
                    Step::Refused(b.len(), reason)
                }
            }
        }
    }

    /// The rest of it, where what is there isn't the whole value: byte by byte.
    fn rest_of_value(&mut self, pair: &Pair, b: &[u8]) -> Step
        requires next { next_pair self.old.table self.old.place.unfinished ≡ Some (pair_of pair.now) }
        requires stands { Keeps self.old }
        requires has { HasPart self.old }
        requires waits { FrontsWait self.old (part self.old) }
        requires between { partial_in self.old.place.unfinished ≡ None }
        requires named { pair.now.form.value ≡ 0x16 → IsSome self.old.named }
        requires cut { IsCutHere (pair_of pair.now) self.old }
        ensures { StepSays self.old (part self.old ++ b.now) result self.new }
    {
        let lim = self.left();
        let told = self.told(pair);
        let mut rest = b;
        loop {
            if let Some((width, count)) = self.opening(pair) {
                return self.open(width, count, rest);
            }
            match rest.split_first() {
                Some((byte, others)) => {
                    self.pending.push(*byte);
                    rest = others;
                }
                None => return Step::Wanting,
            }
            match self.give_front(pair, told, lim) {
                Attempt::Whole(_) => return Step::Found(rest.len()),
                Attempt::NoMemory => return Step::NoMemory,
                Attempt::Broken(reason) => {
                    if !is_cut(reason) {
                        return Step::Refused(rest.len(), reason);
                    }
                }
            }
        }
    }

    /// What is there of the value, where it is the whole value, goes to the draft.
    #[inline(always)]
    fn give_front(&mut self, pair: &Pair, told: Option<usize>, lim: u64) -> Attempt
        requires next { next_pair self.old.table self.old.place.unfinished ≡ Some (pair_of pair.now) }
        requires stands { Standing self.old }
        requires between { partial_in self.old.place.unfinished ≡ None }
        requires told { told ≡ told_size (context self.old) (pair_of pair.now) }
        requires lim { lim ≡ left_of self.old }
        ensures { ValueSays self.old (pair_of pair.now) (part self.old) result self.new }
    {
        let front = self.front();
        self.give(pair, told, front.as_slice(), lim)
    }

    /// What is there of the value: the form that it names, and bytes of a number or of a length field.
    #[inline(always)]
    fn front(&self) -> ArrayVec<u8, 32>
        requires between { partial_in self.now.place.unfinished ≡ None }
        ensures { result.items ≡ part self.now }
    {
        let named = self.named_bytes();
        joined(named.as_slice(), self.pending.as_slice())
    }

    /// The bytes of the form that an indirect value names.
    #[inline(always)]
    fn named_bytes(&self) -> ArrayVec<u8, 16>
        ensures { result.items ≡ via_bytes self.now.named }
    {
        match self.named {
            Some(form) => form.bytes(),
            None => ArrayVec::new(),
        }
    }

    /// The value at the front of these bytes, of which `lim` are left to the unit's end, goes to the draft. `told` are
    /// as many bytes as its form alone tells: with fewer it isn't looked at.
    fn give(&mut self, pair: &Pair, told: Option<usize>, bytes: &[u8], lim: u64) -> Attempt
        requires next { next_pair self.old.table self.old.place.unfinished ≡ Some (pair_of pair.now) }
        requires stands { Standing self.old }
        requires between { partial_in self.old.place.unfinished ≡ None }
        requires told { told ≡ told_size (context self.old) (pair_of pair.now) }
        requires lim { lim ≡ left_of self.old }
        ensures { ValueSays self.old (pair_of pair.now) bytes.now result self.new }
    {
        if is_short(told, bytes.len(), lim) {
            return Attempt::Broken(Reason::Truncated);
        }
        let context = self.draft.header().context();
        match value_at(context, pair, bytes, lim) {
            Ok((value, size)) => match self.settle(&value, &bytes[..size]) {
                Ok(()) => Attempt::Whole(size),
                Err(_) => Attempt::NoMemory,
            },
            Err(reason) => Attempt::Broken(reason),
        }
    }

    /// A value that is whole goes to the draft, and nothing of it is kept.
    fn settle(&mut self, value: &AttrValue<'_>, spelling: &[u8]) -> Result<(), AllocError>
        requires between { partial_in self.old.place.unfinished ≡ None }
        requires fits { NextFits (context self.old) self.old.table self.old.place.unfinished (attribute_of value.now) }
        requires spelled { spelling.now ≡ value_bytes (drafted self.old) (attribute_of value.now) }
        requires short { passes_limit (drafted self.old)
            (length (value_bytes (drafted self.old) (attribute_of value.now))) ≡ false }
        ensures { OnOk result
            (self.new ≡ moved_to (given (attribute_of value.now) (drafted self.old)).place self.old.padding self.old) }
    {
        self.draft.spelled_value(value, spelling)?;
        self.named = None;
        self.to_come = 0;
        self.pending.clear();
        Ok(())
    }

    /// The fault where the input ends here.
    pub(crate) fn cut_off(&self) -> Fault
        requires kept { Kept (Reading self.now) }
        requires has { HasPart self.now }
        ensures { EndsBody (Reading self.now) (Some result) }
    {
        let here = self.draft.size();
        match self.draft.next_pair() {
            Some(_) => fault_at(here, Reason::Truncated),
            None => fault_at(here, self.code_fault()),
        }
    }

    /// Why no code or null is whole at the place.
    fn code_fault(&self) -> Reason
        requires free { self.now.place.unfinished ≡ None }
        requires kept { Kept (Reading self.now) }
        requires has { HasPart self.now }
        ensures { CodeBreaks self.now result }
    {
        match code_at(&self.draft, self.pending.as_slice(), self.left()) {
            Ok(_) => unreachable!(),
            Err(reason) => reason,
        }
    }

    /// Whether the root is closed, and nothing is left of the unit.
    fn is_whole(&self) -> bool
        requires { Standing self.now }
        ensures { result ≡ is_some (root_if_whole self.now) }
    {
        if self.draft.depth() > 0 {
            return false;
        }
        match self.draft.next_pair() {
            Some(_) => false,
            None => !self.draft.is_empty() && self.left() == 0,
        }
    }

    /// The unit, where it is whole.
    pub(crate) fn finish(self) -> Unit
        requires whole { IsSome (root_if_whole self) }
        ensures { IfSome (root_if_whole self) (λ x. result ≡ unit_with self x) }
    {
        let UnitInParts {
            draft,
            unit_length: _,
            named: _,
            to_come: _,
            pending: _,
        } = self;
        draft.finish()
    }
}

/// A fault of the unit, at this offset.
fn fault_at(offset: u64, reason: Reason) -> Fault
    ensures { result ≡ record { section = Info; offset = offset; reason = reason } }
{
    Fault {
        section: SectionId::Info,
        offset,
        reason,
    }
}

/// The last so many bytes.
fn last(b: &[u8], over: usize) -> &[u8]
    requires { over ≤ length b.now }
    ensures { result.now ≡ drop (length b.now - over) b.now }
{
    &b[b.len() - over..]
}

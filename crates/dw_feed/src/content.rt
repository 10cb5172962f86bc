//! Texts and blocks of a unit whose bytes are pushed: they are kept as they come (section 7.5.5).
ghost use Rattle.std.specs.Prelude.{◌≡◌, ◌<◌, ◌++◌, ℕ, None, Some, IsSome, IfSome, length, take, min, option_map};
ghost use Rattle.dw_leb.specs.View.{uleb_of};
ghost use Rattle.dw_leb.specs.Reader.{Broken};
ghost use Rattle.dw_leb.specs.declared.errors.Reason.TheVariants.{Truncated};
ghost use Rattle.dw_form.specs.Form.{ShapeFits};
ghost use Rattle.dw_form.specs.ReadForm.{read_attribute};
ghost use Rattle.dw_form.specs.Pieces.{form_in};
ghost use Rattle.dw_abbrev.specs.PairView.{pair_of};
ghost use Rattle.dw_tree.specs.Steps.{next_pair, partial_in};
ghost use Rattle.dw_feed.specs.BodyFeed.{part};
ghost use Rattle.dw_feed.specs.FeedInvariant.{Keeps, context, left as left_of};
ghost use Rattle.dw_feed.specs.PartialValues.{NamedFits, lim_behind};
ghost use Rattle.dw_feed.specs.FieldSteps.{Standing, HasPart, KeepsNoWhole, StepSays};
ghost use Rattle.dw_feed.specs.Openings.{OpensHere, with_byte};
ghost use Rattle.dw_feed.specs.LengthFields.{HasLength, HasNoLength};
ghost use Rattle.dw_feed.specs.ContentSteps.{room_of_text, HasNoZero, ZeroIn};

use crate::step::Step;
use crate::unit_in_parts::UnitInParts;
use bstr::ByteSlice;
use dw_abbrev::Pair;
use dw_form::{Shape, Value};
use dw_leb::{Order, Reason, Uleb, read_fixed};

impl UnitInParts {
    /// The text or block that begins here, where what comes before its content is whole: a block's width
    /// and count of bytes. The input cuts the value off.
    pub(crate) fn opening(&self, pair: &Pair) -> Option<(Option<u8>, u64)>
        requires next { next_pair self.now.table self.now.place.unfinished ≡ Some (pair_of pair.now) }
        requires stands { Standing self.now }
        requires has { HasPart self.now }
        requires between { partial_in self.now.place.unfinished ≡ None }
        requires named { pair.now.form.value ≡ 0x16 → IsSome self.now.named }
        requires cut { read_attribute (context self.now) pair.now.form.value (pair_of pair.now).constant (part self.now)
            (left_of self.now)
            ≡ Broken 0 Truncated }
        ensures some { IfSome result (λ x. OpensHere self.now x.0 x.1) }
        ensures none { result ≡ None → length self.now.pending < 16 }
        ensures more { result ≡ None → (b : ℕ) → HasPart (with_byte self.now b) }
        ensures waits { result ≡ None → KeepsNoWhole self.now }
    {
        let context = self.draft.header().context();
        match Shape::of(
            form_of(pair, self.named),
            context.address_size,
            context.format,
        ) {
            Some(shape) => {
                let lim = behind(self.named, self.left());
                length_at(shape, context.order, self.pending.as_slice(), lim)
            }
            None => unreachable!(),
        }
    }

    /// A text or block begins, of which so many bytes are to come.
    pub(crate) fn open(&mut self, width: Option<u8>, count: u64, b: &[u8]) -> Step
        requires stands { Keeps self.old }
        requires has { HasPart self.old }
        requires between { partial_in self.old.place.unfinished ≡ None }
        requires opens { OpensHere self.old width count }
        ensures { StepSays self.old (part self.old ++ b.now) result self.new }
    {
        match self.draft.start(self.named, width) {
            Ok(()) => {}
            Err(_) => return Step::NoMemory,
        }
        self.named = None;
        self.to_come = count;
        self.pending.clear();
        self.content(b)
    }

    /// More of a text's or block's content.
    pub(crate) fn content(&mut self, b: &[u8]) -> Step
        requires stands { Keeps self.old }
        requires has { HasPart self.old }
        requires begun { IsSome (partial_in self.old.place.unfinished) }
        ensures { StepSays self.old (part self.old ++ b.now) result self.new }
    {
        match self.text_room() {
            Some(room) => self.text(room, b),
            None => self.block(b),
        }
    }

    /// How many bytes the unit has for more of a text, where one has begun.
    fn text_room(&self) -> Option<u64>
        requires stands { Keeps self.now }
        requires has { HasPart self.now }
        ensures { result ≡ room_of_text (left_of self.now) (partial_in self.now.place.unfinished) }
    {
        let partial = self.draft.partial_value()?;
        match partial.value {
            Value::Text(bytes) => Some(behind(partial.via, self.left()) - bytes.len() as u64),
            _ => None,
        }
    }

    /// More of a block.
    fn block(&mut self, b: &[u8]) -> Step
        requires stands { Keeps self.old }
        requires has { HasPart self.old }
        requires begun { IsSome (partial_in self.old.place.unfinished) }
        requires block { room_of_text (left_of self.old) (partial_in self.old.place.unfinished) ≡ None }
        ensures { StepSays self.old (part self.old ++ b.now) result self.new }
    {
        let count = self.to_come.min(b.len() as u64) as usize;
        match self.draft.bytes(&b[..count]) {
            Ok(()) => {}
            Err(_) => return Step::NoMemory,
        }
        self.to_come -= count as u64;
        if self.to_come > 0 {
            return Step::Wanting;
        }
        self.draft.end_value();
        Step::Found(b.len() - count)
    }

    /// More of a text, for which the unit has so many bytes.
    fn text(&mut self, room: u64, b: &[u8]) -> Step
        requires stands { Keeps self.old }
        requires has { HasPart self.old }
        requires text { room_of_text (left_of self.old) (partial_in self.old.place.unfinished) ≡ Some room }
        ensures { StepSays self.old (part self.old ++ b.now) result self.new }
    {
        let window = &b[..room.min(b.len() as u64) as usize];
        let end = match zero_at(window) {
            Some(end) => end,
            None => return self.unended(room, b),
        };
        match self.draft.bytes(&b[..end]) {
            Ok(()) => {
                self.draft.end_value();
                Step::Found(b.len() - end - 1)
            }
            Err(_) => Step::NoMemory,
        }
    }

    /// More of a text, for which the unit has so many bytes; its zero isn't among these.
    fn unended(&mut self, room: u64, b: &[u8]) -> Step
        requires stands { Keeps self.old }
        requires has { HasPart self.old }
        requires text { room_of_text (left_of self.old) (partial_in self.old.place.unfinished) ≡ Some room }
        requires no_zero { HasNoZero (take (min room (length b.now)) b.now) }
        ensures { StepSays self.old (part self.old ++ b.now) result self.new }
    {
        if b.len() as u64 >= room {
            return Step::Refused(b.len() - room as usize, Reason::PastUnit);
        }
        match self.draft.bytes(b) {
            Ok(()) => Step::Wanting,
            Err(_) => Step::NoMemory,
        }
    }
}

/// The form in effect: of an indirect value the one that it names (section 7.5.3).
fn form_of(pair: &Pair, named: Option<Uleb>) -> u64
    ensures { result ≡ form_in pair.now.form.value (option_map uleb_of named) }
{
    match named {
        Some(form) => form.value,
        None => pair.form.value,
    }
}

/// How many of `lim` bytes are left behind the form that an indirect value names.
fn behind(named: Option<Uleb>, lim: u64) -> u64
    requires { NamedFits (option_map uleb_of named) lim }
    ensures { result ≡ lim_behind (option_map uleb_of named) lim }
{
    match named {
        Some(form) => lim - form.width as u64,
        None => lim,
    }
}

/// The length field of a block at the front of `b`, its width and count, where it is whole and lies in the
/// `lim` bytes that are left to the unit's end; a text has none.
fn length_at(shape: Shape, order: Order, b: &[u8], lim: u64) -> Option<(Option<u8>, u64)>
    requires { ShapeFits shape }
    ensures some { IfSome result (λ x. HasLength order shape x.0 x.1 b.now lim) }
    ensures none { result ≡ None → HasNoLength order shape b.now lim }
{
    match shape {
        Shape::Text => Some((None, 0)),
        Shape::Counted(width) => match read_fixed(order, width, b, lim) {
            Ok(count) => Some((Some(width), count as u64)),
            Err(_) => None,
        },
        Shape::CountedUleb => match Uleb::read(b, lim) {
            Ok(count) => Some((Some(count.width), count.value)),
            Err(_) => None,
        },
        _ => None,
    }
}

/// The place of the first zero byte.
fn zero_at(b: &[u8]) -> Option<usize>
    ensures zero { ZeroIn b.now result }
    ensures within { IfSome result (λ i. i < length b.now) }
{
    b.find_byte(0)
}

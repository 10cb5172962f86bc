//! The texts that attributes name (sections 7.5.5 and 7.26).
ghost use Rattle.std.specs.Prelude.{◌≡◌, IsSome, Some};
ghost use Rattle.dw_form.specs.Lent.{attribute_of, text_in, value_of};
ghost use Rattle.dw_unit.specs.Unit.{WholeUnit};
ghost use Rattle.dw_section.specs.Lookup.{unit_at};
ghost use Rattle.dw_section.specs.StringBase.{base_of};
ghost use Rattle.dw_strings.specs.Text as definition;
ghost use Rattle.dw_strings.specs.TextView.{place_of, sections_of, seen, seen_place};

use crate::fault::StrFault;
use crate::form::StoredIn;
use crate::lookup::{begins_at, entry, text_at};
use crate::place::TextPlace;
use dw_form::AttrValue;
use dw_leb::constants::form::DW_FORM_STRING;
use dw_section::{EntryId, Section};
use dw_unit::AttrRef;

/// The bytes of the sections in which texts are. One that isn't there is empty.
#[derive(Clone, Copy, Debug)]
pub struct Strings<'a> {
    /// `.debug_str`: texts, each with a zero byte behind it.
    pub str: &'a [u8],
    /// `.debug_line_str`: the same, for texts that line tables use too.
    pub line_str: &'a [u8],
    /// `.debug_str_offsets`: the string offsets tables, whose entries are offsets of texts in `.debug_str`
    /// (section 7.26).
    pub str_offsets: &'a [u8],
}

impl<'a> Strings<'a> {
    /// The text that the value of an attribute names, without the zero byte that ends it, where the attribute is
    /// one of the entry `id`. Its bytes needn't be UTF-8. The item of `id` has to be a unit. No memory is taken.
    ///
    /// Of the form string it is the value itself; of strp and line_strp it is at that offset of `.debug_str` or
    /// `.debug_line_str`; of strx and strx1 to strx4 it is at the offset in `.debug_str` that the entry with that
    /// index gives (section 7.26). Entries begin at `Section::str_offsets_base` in `.debug_str_offsets`, and have
    /// the size of the unit's format and its byte order.
    ///
    /// Errors, each exactly in its case, and of several the first one: `NotText`, `Supplementary`, `NoBase`,
    /// `PastOffsets`, `PastSection`, `NoZero`.
    pub fn text(
        &self,
        section: &Section,
        id: EntryId,
        attribute: &AttrRef<'a>,
    ) -> Result<&'a [u8], StrFault>
        requires { IsSome (unit_at section.now.items id.item) }
        ensures { (u : WholeUnit) → unit_at section.now.items id.item ≡ Some u
            → seen result
            ≡ definition.named_text (sections_of self.now) u attribute.now.form
            (attribute_of attribute.now.attr).value }
    {
        match self.place(section, id, attribute) {
            Ok(place) => self.text_at(place),
            Err(fault) => Err(fault),
        }
    }

    /// Where the text begins that the value of an attribute names, where the attribute is one of the entry `id`. The
    /// item of `id` has to be a unit. No text is looked at, so a place that is answered may have none. No memory is
    /// taken.
    ///
    /// Errors, each exactly in its case, and of several the first one: `NotText`, `Supplementary`, `NoBase`,
    /// `PastOffsets`.
    pub fn place(
        &self,
        section: &Section,
        id: EntryId,
        attribute: &AttrRef<'a>,
    ) -> Result<TextPlace<'a>, StrFault>
        requires { IsSome (unit_at section.now.items id.item) }
        ensures { (u : WholeUnit) → unit_at section.now.items id.item ≡ Some u
            → seen_place result
            ≡ definition.named_place (sections_of self.now) u attribute.now.form
            (attribute_of attribute.now.attr).value }
    {
        if attribute.form == DW_FORM_STRING {
            return own_text(&attribute.attr);
        }
        match attribute.attr.as_number() {
            Some(number) => { self.stored(section, id.item, number, StoredIn::of(attribute.form)) }
            None => Err(StrFault::NotText),
        }
    }

    /// The text that begins at a place, without the zero byte that ends it. No memory is taken.
    ///
    /// Errors, each exactly in its case: `PastSection`, `NoZero`.
    pub fn text_at(&self, place: TextPlace<'a>) -> Result<&'a [u8], StrFault>
        ensures { seen result ≡ definition.text_in_place (sections_of self.now) (place_of place.entry) }
    {
        match place {
            TextPlace::Own(text) => Ok(text),
            TextPlace::Str(offset) => text_at(self.str, offset),
            TextPlace::LineStr(offset) => text_at(self.line_str, offset),
        }
    }

    /// Whether exactly this text begins at a place (sections 7.5.5 and 7.26): its bytes stand there, and behind them
    /// the zero byte that ends a text. So it is `text_at(place) == Ok(text)`, but it looks at no more bytes of a
    /// section than `text` has, and one. A text that has a zero byte in itself begins nowhere in a section. No memory
    /// is taken.
    pub fn has_text(&self, place: TextPlace<'a>, text: &[u8]) -> bool
        ensures { result
            ≡ definition.is_text text.now (definition.text_in_place (sections_of self.now) (place_of place.entry)) }
    {
        match place {
            TextPlace::Own(own) => own == text,
            TextPlace::Str(offset) => begins_at(self.str, offset, text),
            TextPlace::LineStr(offset) => begins_at(self.line_str, offset, text),
        }
    }

    /// Where the text begins that a number names in the unit of this item.
    fn stored(
        &self,
        section: &Section,
        item: usize,
        number: u64,
        stored: Option<StoredIn>,
    ) -> Result<TextPlace<'a>, StrFault>
        requires { IsSome (unit_at section.now.items item) }
        ensures { (u : WholeUnit) → unit_at section.now.items item ≡ Some u
            → seen_place result ≡ definition.stored (sections_of self.now) u number stored }
    {
        match stored {
            Some(StoredIn::Str) => Ok(TextPlace::Str(number)),
            Some(StoredIn::LineStr) => Ok(TextPlace::LineStr(number)),
            Some(StoredIn::StrOffsets) => self.by_index(section, item, number),
            Some(StoredIn::Elsewhere) => Err(StrFault::Supplementary),
            None => Err(StrFault::NotText),
        }
    }

    /// The offset that the entry of this index gives, in the unit of this item.
    fn by_index(
        &self,
        section: &Section,
        item: usize,
        index: u64,
    ) -> Result<TextPlace<'a>, StrFault>
        requires { IsSome (unit_at section.now.items item) }
        ensures { (u : WholeUnit) → unit_at section.now.items item ≡ Some u
            → seen_place result ≡ definition.by_index (sections_of self.now) u.header (base_of u) index }
    {
        let header = match section.unit(item) {
            Some(unit) => unit.header(),
            None => unreachable!(),
        };
        let (order, format) = (header.order(), header.format());
        let base = section.str_offsets_base(item).ok_or(StrFault::NoBase)?;
        let offset = entry(self.str_offsets, order, format, base, index);
        Ok(TextPlace::Str(offset.ok_or(StrFault::PastOffsets)?))
    }
}

/// The text that a value is itself.
fn own_text<'a>(value: &AttrValue<'a>) -> Result<TextPlace<'a>, StrFault>
    ensures { seen_place result ≡ definition.own_text (text_in (value_of value.now.value)) }
{
    match value.as_text() {
        Some(text) => Ok(TextPlace::Own(text)),
        None => Err(StrFault::NotText),
    }
}

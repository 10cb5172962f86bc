//! Texts at their offsets, and the entries of `.debug_str_offsets` (section 7.26).
ghost use Rattle.std.specs.Prelude.{◌≡◌, ◌≤◌, ◌<◌, ◌+◌, ◌*◌, ◌^◌, length, IfSome, SomeIff};
ghost use Rattle.dw_leb.specs.Number.{offset_size};
ghost use Rattle.dw_leb.specs.ReadNumber.{before_zero};
ghost use Rattle.dw_form.specs.Lent.{ZeroAt};
ghost use Rattle.dw_strings.specs.Text as definition;
ghost use Rattle.dw_strings.specs.TextView.{seen};

use crate::fault::StrFault;
use bstr::ByteSlice;
use dw_leb::{Format, Order, read_fixed};

/// The text at an offset of a section of texts, without the zero byte that ends it.
pub(crate) fn text_at(section: &[u8], offset: u64) -> Result<&[u8], StrFault>
    ensures { seen result ≡ definition.text_at section.now offset }
{
    if offset >= section.len() as u64 {
        return Err(StrFault::PastSection);
    }
    let text = &section[offset as usize..];
    match zero_at(text) {
        Some(end) => Ok(&text[..end]),
        None => Err(StrFault::NoZero),
    }
}

/// Whether exactly this text begins at an offset of a section of texts.
pub(crate) fn begins_at(section: &[u8], offset: u64, text: &[u8]) -> bool
    ensures { result ≡ definition.is_text text.now (definition.text_at section.now offset) }
{
    if offset >= section.len() as u64 {
        return false;
    }
    begins(&section[offset as usize..], text)
}

/// Whether bytes begin with exactly this text and the zero byte that ends it. What takes a look at one byte is
/// looked at first, and what is seldom needed last.
fn begins(bytes: &[u8], text: &[u8]) -> bool
    ensures { result ≡ definition.is_text text.now (definition.unless_ended (before_zero bytes.now)) }
{
    let Some(behind) = bytes.get(text.len()) else {
        return false;
    };
    *behind == 0 && &bytes[..text.len()] == text && zero_at(text).is_none()
}

/// The place of the first zero byte.
fn zero_at(bytes: &[u8]) -> Option<usize>
    ensures exact { ZeroAt bytes.now result (before_zero bytes.now) }
    ensures within { IfSome result (λ i. i < length bytes.now) }
{
    bytes.find_byte(0)
}

/// The entry of this index, where entries begin at `base`: an offset in the unit's format and byte order. None
/// where its bytes don't all lie in `.debug_str_offsets`.
pub(crate) fn entry(
    offsets: &[u8],
    order: Order,
    format: Format,
    base: u64,
    index: u64,
) -> Option<u64>
    ensures { result ≡ definition.number_at order (offset_size format) offsets.now (base + index * offset_size format) }
{
    let size = format.offset_size();
    number_at(order, size, offsets, place(base, index, size)?)
}

/// Where the entry of this index begins. None where that is no u64: no section is so long.
fn place(base: u64, index: u64, size: u8) -> Option<u64>
    ensures { SomeIff result (base + index * size < 2 ^ 64) (base + index * size) }
{
    base.checked_add(index.checked_mul(size as u64)?)
}

/// The number of `size` bytes that begins at a place.
fn number_at(order: Order, size: u8, bytes: &[u8], place: u64) -> Option<u64>
    requires some { 1 ≤ size }
    requires most { size ≤ 8 }
    ensures { result ≡ definition.number_at order size bytes.now place }
{
    if place > bytes.len() as u64 {
        return None;
    }
    match read_fixed(order, size, &bytes[place as usize..], u64::MAX) {
        Ok(number) => Some(number as u64),
        Err(_) => None,
    }
}

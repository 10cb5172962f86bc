//! Values of attributes, borrowed from the bytes that hold them.
ghost use Rattle.std.specs.Prelude.{◌≡◌, None, option_map};
ghost use Rattle.dw_form.specs.Lent.{number_in, text_in, value_of};

use dw_leb::{Sleb, Uleb};

/// A value as it is written (section 7.5.5). The bytes of a text or a block are borrowed.
#[derive(Clone, Copy, Debug, PartialEq, Eq)]
pub enum Value<'a> {
    /// A fixed number of 1 to 8 bytes, as an address, an offset, a reference, an index or a flag.
    /// How many bytes it has the form says, with the address size and the format.
    Num(u64),
    /// A fixed number of 16 bytes (data16).
    Wide(u128),
    /// An unsigned LEB128 number.
    Uleb(Uleb),
    /// A signed LEB128 number.
    Sleb(Sleb),
    /// A block, or an expression (exprloc).
    Block {
        /// The count of bytes in which its length is written: 1, 2 or 4 as the form says, or 1 to
        /// 16 as unsigned LEB128.
        width: u8,
        /// Its content.
        bytes: &'a [u8],
    },
    /// A text, without the zero byte that ends it. Its bytes needn't be UTF-8.
    Text(&'a [u8]),
    /// No bytes: the attribute is there (flag_present).
    Present,
    /// No bytes: the constant of the declaration (implicit_const).
    Implicit(Sleb),
}

/// The value of an attribute.
#[derive(Clone, Copy, Debug, PartialEq, Eq)]
pub struct AttrValue<'a> {
    /// The number of the form that a value of the form indirect names; None under any other form.
    pub via: Option<Uleb>,
    /// The value: of the form in `via`, or where that is None of the form in the declaration.
    pub value: Value<'a>,
}

impl<'a> AttrValue<'a> {
    /// The number that the value is: a fixed one of 1 to 8 bytes, or an unsigned LEB128 one. None for
    /// any other value.
    pub fn as_number(&self) -> Option<u64>
        ensures { result ≡ number_in (value_of self.now.value) }
    {
        match self.value {
            Value::Num(number) => Some(number),
            Value::Uleb(number) => Some(number.value),
            _ => None,
        }
    }

    /// The bytes of a text that is in the unit itself (DW_FORM_string), without the zero byte that
    /// ends it. None for any other value.
    pub fn as_text(&self) -> Option<&'a [u8]>
        ensures { option_map (λ text. text.now) result ≡ text_in (value_of self.now.value) }
    {
        match self.value {
            Value::Text(text) => Some(text),
            _ => None,
        }
    }
}

/// A value under any form but indirect.
impl<'a> From<Value<'a>> for AttrValue<'a> {
    ghost from_gives = { λ value attr. (attr.via ≡ None) × (attr.value ≡ value) };

    fn from(value: Value<'a>) -> AttrValue<'a> {
        AttrValue { via: None, value }
    }
}

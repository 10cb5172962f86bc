//! The form table (section 7.5.6, table 7.6).
ghost use Rattle.std.specs.Prelude.{◌≡◌, ◌≤◌, None, Some, IfSome};
ghost use Rattle.dw_form.specs.Form.{shape, ShapeFits};

use dw_leb::constants::form::*;
use dw_leb::{Format, Order};

/// What the bytes of a unit's values depend on besides their forms. The order is that of the file;
/// the format and the address size are in the unit's header.
#[derive(Clone, Copy, Debug, PartialEq, Eq)]
pub struct Ctx {
    /// The order of the bytes of fixed numbers, and of a block's length where that is one.
    pub order: Order,
    /// The format: an offset into a section has 4 bytes in the 32-bit one, 8 in the 64-bit one.
    pub format: Format,
    /// The count of bytes of an address, 1 to 8.
    pub address_size: u8,
}

/// How the values of a form are spelled (section 7.5.6).
#[derive(Clone, Copy, Debug, PartialEq, Eq)]
pub enum Shape {
    /// A number in this many bytes: 1 to 8, or 16.
    Fixed(u8),
    /// An unsigned LEB128 number.
    Uleb,
    /// A signed LEB128 number.
    Sleb,
    /// A block after its length in this many bytes: 1, 2 or 4.
    Counted(u8),
    /// A block after its length as unsigned LEB128.
    CountedUleb,
    /// Bytes other than 0, and then a zero byte.
    Text,
    /// No bytes: that the attribute is there says all (flag_present).
    Present,
    /// No bytes: the value is in the declaration (implicit_const).
    Implicit,
    /// The number of another form as unsigned LEB128, and then a value of that form.
    Indirect,
}

impl Shape {
    /// The shape of a form by its number, in a unit of this address size (1 to 8) and format. None
    /// for a number that is no form of DWARF 5 and neither 0x1f20 nor 0x1f21.
    #[tactic(auto, unfolding(crate::specs::Form::shape))]
    #[inline(always)]
    pub fn of(form: u64, address_size: u8, format: Format) -> Option<Shape>
        requires some { 1 ≤ address_size }
        requires most { address_size ≤ 8 }
        ensures shape { result ≡ shape form address_size format }
        ensures sizes { IfSome result ShapeFits }
    {
        let offset = format.offset_size();
        match form {
            DW_FORM_ADDR => Some(Shape::Fixed(address_size)),
            DW_FORM_DATA1 | DW_FORM_FLAG | DW_FORM_REF1 | DW_FORM_STRX1 | DW_FORM_ADDRX1 => Some(
                Shape::Fixed(1),
            ),
            DW_FORM_DATA2 | DW_FORM_REF2 | DW_FORM_STRX2 | DW_FORM_ADDRX2 => Some(Shape::Fixed(2)),
            DW_FORM_STRX3 | DW_FORM_ADDRX3 => Some(Shape::Fixed(3)),
            DW_FORM_DATA4 | DW_FORM_REF4 | DW_FORM_REF_SUP4 | DW_FORM_STRX4 | DW_FORM_ADDRX4 =>
                Some(Shape::Fixed(4)),
            DW_FORM_DATA8 | DW_FORM_REF8 | DW_FORM_REF_SIG8 | DW_FORM_REF_SUP8 => Some(Shape::Fixed(
                8,
            )),
            DW_FORM_DATA16 => Some(Shape::Fixed(16)),
            DW_FORM_STRP
            | DW_FORM_REF_ADDR
            | DW_FORM_SEC_OFFSET
            | DW_FORM_STRP_SUP
            | DW_FORM_LINE_STRP
            | DW_FORM_GNU_REF_ALT
            | DW_FORM_GNU_STRP_ALT => Some(Shape::Fixed(offset)),
            DW_FORM_UDATA
            | DW_FORM_REF_UDATA
            | DW_FORM_STRX
            | DW_FORM_ADDRX
            | DW_FORM_LOCLISTX
            | DW_FORM_RNGLISTX => Some(Shape::Uleb),
            DW_FORM_SDATA => Some(Shape::Sleb),
            DW_FORM_BLOCK1 => Some(Shape::Counted(1)),
            DW_FORM_BLOCK2 => Some(Shape::Counted(2)),
            DW_FORM_BLOCK4 => Some(Shape::Counted(4)),
            DW_FORM_BLOCK | DW_FORM_EXPRLOC => Some(Shape::CountedUleb),
            DW_FORM_STRING => Some(Shape::Text),
            DW_FORM_INDIRECT => Some(Shape::Indirect),
            DW_FORM_FLAG_PRESENT => Some(Shape::Present),
            DW_FORM_IMPLICIT_CONST => Some(Shape::Implicit),
            _ => None,
        }
    }
}

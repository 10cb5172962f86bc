//! Signed LEB128 numbers (section 7.6).
ghost use Rattle.std.specs.Prelude.{◌≡◌, ◌≤◌, ◌<◌, ◌*◌, ◌^◌, ℕ, negsuc, length, IsSome, IsOkAnd, IfSome, IfOk, IfErr, ◌↔◌};
ghost use Rattle.dw_leb.specs.Part.{Taken};
ghost use Rattle.dw_leb.specs.Number.{Signed, SlebFits, sleb, extent};
ghost use Rattle.dw_leb.specs.Reader.{seen_by};
ghost use Rattle.dw_leb.specs.Scan.{front_at, signed_scan};

use crate::errors::Reason;
use crate::groups::{number, place, spell, width_at};
use arrayvec::ArrayVec;

/// A signed number and the count of bytes in which it is written, its width: 1 to 16, of which the
/// last ones may be padding. So many groups of seven bits hold the value in two's complement.
#[derive(Clone, Copy, Debug, PartialEq, Eq)]
pub struct Sleb {
    /// The number.
    pub value: i64,
    /// The count of bytes in which it is written.
    pub width: u8,
    ghost fits: { SlebFits (record { value = value; width = width }) },
}

impl Sleb {
    ghost use Rattle.dw_leb.specs.View.{sleb_of};

    /// The number at the front of `b`, where `lim` bytes are left to the unit's end.
    ///
    /// The first byte below 128 ends it, and bit 6 of that byte is its sign. Refused are: sixteen
    /// bytes within the unit of which none ends it (`LebTooLong`), fewer up to the unit's end
    /// (`PastUnit`) or up to the input's, which comes before the unit's (`Truncated`), and a value
    /// outside of -2^63 to 2^63 - 1 (`LebTooBig`).
    pub fn read(b: &[u8], lim: u64) -> Result<Sleb, Reason>
        ensures found { IfOk result (λ x. Taken sleb b.now lim (sleb_of x) x.width) }
        ensures only { (x : Signed) → Taken sleb b.now lim x x.width → IsOkAnd result (λ y. sleb_of y ≡ x) }
        ensures broken { IfErr result (λ reason. sleb.Break b.now lim 0 reason) }
        ensures room { IfOk result (λ x. (x.width ≤ length b.now) × (x.width ≤ lim)) }
    {
        Sleb::scan(b, lim)
    }

    fn scan(b: &[u8], lim: u64) -> Result<Sleb, Reason>
        ensures exact { seen_by sleb_of result ≡ signed_scan (front_at b.now lim) }
        ensures room { IfOk result (λ x. (x.width ≤ length b.now) × (x.width ≤ lim)) }
    {
        let width = width_at(b, lim)?;
        let n = number(&b[..width]);
        let width = width as u8;
        let end = place(width);
        if 2 * n < end {
            if n >= 1 << 63 {
                return Err(Reason::LebTooBig);
            }
            return Ok(Sleb {
                value: n as i64,
                width,
            });
        }
        let below = end - 1 - n;
        if below >= 1 << 63 {
            return Err(Reason::LebTooBig);
        }
        Ok(Sleb {
            value: negative(below as u64),
            width,
        })
    }

    /// Its spelling: exactly `width` bytes.
    pub fn bytes(self) -> ArrayVec<u8, 16>
        ensures spelling { result.items ≡ sleb.spell (sleb_of self) }
        ensures length { length result.items ≡ self.width }
    {
        let n = magnitude(self.value) as u128;
        if self.value >= 0 {
            spell(n, self.width)
        } else {
            spell(place(self.width) - 1 - n, self.width)
        }
    }

    /// The value in the fewest bytes that hold it.
    pub fn least(value: i64) -> Sleb
        ensures value { result.value ≡ value }
        ensures least { (w : ℕ) → 1 ≤ w → 2 * extent value < 128 ^ w → result.width ≤ w }
    {
        let n = magnitude(value) as u128;
        let mut width = 1;
        while 2 * n >= place(width) {
            width += 1;
        }
        Sleb { value, width }
    }

    /// The value in `width` bytes. None exactly where `width` isn't 1 to 16 or its bytes don't hold
    /// the value.
    pub fn with_width(value: i64, width: u8) -> Option<Sleb>
        ensures some { IsSome result ↔ SlebFits (record { value = value; width = width }) }
        ensures value { IfSome result (λ x. sleb_of x ≡ record { value = value; width = width }) }
    {
        if width < 1 || width > 16 || 2 * magnitude(value) as u128 >= place(width) {
            return None;
        }
        Some(Sleb { value, width })
    }
}

/// n for the numbers n and -n - 1, so that both ends of a range are one bound.
fn magnitude(value: i64) -> u64
    ensures value { result ≡ extent value }
    ensures range { result < 2 ^ 63 }
{
    if value >= 0 {
        value as u64
    } else {
        -(value + 1) as u64
    }
}

/// The number -n - 1.
fn negative(n: u64) -> i64
    requires { n < 2 ^ 63 }
    ensures { result ≡ negsuc n }
{
    -(n as i64) - 1
}

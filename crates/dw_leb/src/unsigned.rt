//! Unsigned LEB128 numbers (section 7.6).
ghost use Rattle.std.specs.Prelude.{◌≡◌, ◌≤◌, ◌<◌, ◌*◌, ◌^◌, ℕ, length, IsSome, IsOkAnd, IfSome, IfOk, IfErr, ◌↔◌};
ghost use Rattle.dw_leb.specs.Part.{Taken};
ghost use Rattle.dw_leb.specs.Number.{Unsigned, UlebFits, uleb};
ghost use Rattle.dw_leb.specs.Reader.{seen_by};
ghost use Rattle.dw_leb.specs.Scan.{front_at, unsigned_scan};

use crate::errors::Reason;
use crate::groups::{alone, number, place, spell, width_at};
use arrayvec::ArrayVec;

/// An unsigned number and the count of bytes in which it is written, its width: 1 to 16, of which
/// the last ones may be padding. So many groups of seven bits hold the value.
#[derive(Clone, Copy, Debug, PartialEq, Eq)]
pub struct Uleb {
    /// The number.
    pub value: u64,
    /// The count of bytes in which it is written.
    pub width: u8,
    ghost fits: { UlebFits (record { value = value; width = width }) },
}

impl Uleb {
    ghost use Rattle.dw_leb.specs.View.{uleb_of};

    /// The number at the front of `b`, where `lim` bytes are left to the unit's end.
    ///
    /// The first byte below 128 ends it. Refused are: sixteen bytes within the unit of which none
    /// ends it (`LebTooLong`), fewer up to the unit's end (`PastUnit`) or up to the input's, which
    /// comes before the unit's (`Truncated`), and a value above 2^64 - 1 (`LebTooBig`).
    #[inline(always)]
    pub fn read(b: &[u8], lim: u64) -> Result<Uleb, Reason>
        ensures found { IfOk result (λ x. Taken uleb b.now lim (uleb_of x) x.width) }
        ensures only { (x : Unsigned) → Taken uleb b.now lim x x.width → IsOkAnd result (λ y. uleb_of y ≡ x) }
        ensures broken { IfErr result (λ reason. uleb.Break b.now lim 0 reason) }
        ensures room { IfOk result (λ x. (x.width ≤ length b.now) × (x.width ≤ lim)) }
    {
        Uleb::scan(b, lim)
    }

    // Most numbers have one byte.
    #[inline(always)]
    fn scan(b: &[u8], lim: u64) -> Result<Uleb, Reason>
        ensures exact { seen_by uleb_of result ≡ unsigned_scan (front_at b.now lim) }
        ensures room { IfOk result (λ x. (x.width ≤ length b.now) × (x.width ≤ lim)) }
    {
        match alone(b, lim) {
            Some(byte) => Ok(Uleb {
                value: byte as u64,
                width: 1,
            }),
            None => Uleb::scan_groups(b, lim),
        }
    }

    fn scan_groups(b: &[u8], lim: u64) -> Result<Uleb, Reason>
        ensures exact { seen_by uleb_of result ≡ unsigned_scan (front_at b.now lim) }
        ensures room { IfOk result (λ x. (x.width ≤ length b.now) × (x.width ≤ lim)) }
    {
        let width = width_at(b, lim)?;
        match u64::try_from(number(&b[..width])) {
            Ok(value) => Ok(Uleb {
                value,
                width: width as u8,
            }),
            Err(_) => Err(Reason::LebTooBig),
        }
    }

    /// Its spelling: exactly `width` bytes.
    pub fn bytes(self) -> ArrayVec<u8, 16>
        ensures spelling { result.items ≡ uleb.spell (uleb_of self) }
        ensures length { length result.items ≡ self.width }
    {
        spell(self.value as u128, self.width)
    }

    /// The value in the fewest bytes that hold it.
    pub fn least(value: u64) -> Uleb
        ensures value { result.value ≡ value }
        ensures least { (w : ℕ) → 1 ≤ w → value < 128 ^ w → result.width ≤ w }
    {
        let mut width = 1;
        while value as u128 >= place(width) {
            width += 1;
        }
        Uleb { value, width }
    }

    /// The value in `width` bytes. None exactly where `width` isn't 1 to 16 or its bytes don't hold
    /// the value.
    pub fn with_width(value: u64, width: u8) -> Option<Uleb>
        ensures some { IsSome result ↔ UlebFits (record { value = value; width = width }) }
        ensures value { IfSome result (λ x. uleb_of x ≡ record { value = value; width = width }) }
    {
        if width < 1 || width > 16 || value as u128 >= place(width) {
            return None;
        }
        Some(Uleb { value, width })
    }
}

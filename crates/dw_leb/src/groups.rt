//! Groups of seven bits, of which LEB128 numbers are made (section 7.6).
ghost use Rattle.std.specs.Prelude.{◌≡◌, ◌≤◌, ◌<◌, ◌+◌, ◌*◌, ◌^◌, [], ◌∷◌, length, position, Ok, IfOk, IfSome};
ghost use Rattle.dw_leb.specs.Number.{digits, marked, unmarked};
ghost use Rattle.dw_leb.specs.Scan.{number as number_of, is_last, front_at, HasWidth};

use crate::errors::Reason;
use arrayvec::ArrayVec;

/// The most bytes in which a number is written.
const MOST: usize = 16;

/// The first byte, where it is a whole number.
#[inline(always)]
pub(crate) fn alone(b: &[u8], lim: u64) -> Option<u8>
    ensures front { IfSome result (λ byte. front_at b.now lim ≡ Ok (byte ∷ [])) }
    ensures small { IfSome result (λ byte. byte < 128) }
    ensures room { IfSome result (λ _. (1 ≤ length b.now) × (1 ≤ lim)) }
{
    let first = b.first()?;
    if lim == 0 || *first >= 128 {
        return None;
    }
    Some(*first)
}

/// How many bytes the number at the front of `b` has, where `lim` are left to the unit's end.
pub(crate) fn width_at(b: &[u8], lim: u64) -> Result<usize, Reason>
    ensures exact { HasWidth b.now result (front_at b.now lim) }
    ensures some { IfOk result (λ w. (1 ≤ w) × (w ≤ 16) × (w ≤ length b.now) × (w ≤ lim)) }
{
    let m = (b.len() as u64).min(lim);
    match last_at(&b[..MOST.min(m as usize)]) {
        Some(i) => Ok(i + 1),
        None => Err(unended(m, lim)),
    }
}

/// The place of the first byte that ends a number.
fn last_at(b: &[u8]) -> Option<usize>
    ensures found { result ≡ position is_last b.now }
    ensures within { IfSome result (λ i. i < length b.now) }
{
    b.iter().position(|x| *x < 128)
}

/// Why no number was found, where none of the first 16 of `m` bytes ends one.
fn unended(m: u64, lim: u64) -> Reason
    ensures { result ≡ unmarked m lim }
{
    if m >= MOST as u64 {
        Reason::LebTooLong
    } else if m == lim {
        Reason::PastUnit
    } else {
        Reason::Truncated
    }
}

/// The number of the groups in these bytes, the least significant first.
#[tactic(auto, using(crate::proofs::GroupLemmas::number_fits, crate::proofs::GroupLemmas::number_small))]
pub(crate) fn number(b: &[u8]) -> u128
    requires { length b.now ≤ 16 }
    ensures value { result ≡ number_of b.now }
    ensures fits { result < 128 ^ length b.now }
{
    let mut value = 0u128;
    let mut i = b.len();
    while i > 0 {
        i -= 1;
        value = value * 128 + (b[i] % 128) as u128;
    }
    value
}

/// How many numbers have this many groups: 128 to the power of `width`.
#[inline(always)]
pub(crate) fn place(width: u8) -> u128
    requires { width ≤ 16 }
    ensures value { result ≡ 128 ^ width }
    ensures small { result ≤ 2 ^ 112 }
{
    1 << (7 * width as u32)
}

/// The lowest `width` groups of a number, the least significant first, with bit 7 set on all but the
/// last.
#[tactic(auto, using(crate::proofs::GroupLemmas::spell_step))]
pub(crate) fn spell(value: u128, width: u8) -> ArrayVec<u8, 16>
    requires some { 1 ≤ width }
    requires most { width ≤ 16 }
    ensures spelling { result.items ≡ marked (digits 128 width value) }
    ensures length { length result.items ≡ width }
{
    let mut bytes = ArrayVec::new();
    let mut rest = value;
    for _i in 1..width {
        bytes.push((rest % 128) as u8 + 128);
        rest /= 128;
    }
    bytes.push((rest % 128) as u8);
    bytes
}

//! Unsigned numbers of a fixed size, in either byte order (section 7.5.5 names their uses).
ghost use Rattle.std.specs.Prelude.{◌≡◌, ◌≤◌, ◌<◌, ◌^◌, ℕ, length, Ok, IfOk, IfErr};
ghost use Rattle.byteorder.specs.Endian.{little_number};
ghost use Rattle.dw_leb.specs.Part.{Taken};
ghost use Rattle.dw_leb.specs.Number.{fixed, fixed_bytes};
ghost use Rattle.dw_leb.specs.Reader.{answer};
ghost use Rattle.dw_leb.specs.ReadNumber.{read_fixed as fixed_reader};
ghost use Rattle.dw_leb.specs.Scan.{fixed_scan, fixed_cells};

use crate::errors::Reason;
use crate::order::Order;
use arrayvec::ArrayVec;
use byteorder::{BigEndian, ByteOrder, LittleEndian};

/// The number in the first `n` bytes of `b`, where `lim` bytes are left to the unit's end. `n` is 1
/// to 16.
///
/// Refused where the unit ends before `n` bytes (`PastUnit`), else where the input does
/// (`Truncated`).
#[inline(always)]
pub fn read_fixed(order: Order, n: u8, b: &[u8], lim: u64) -> Result<u128, Reason>
    requires some { 1 ≤ n }
    requires most { n ≤ 16 }
    ensures found { IfOk result (λ x. Taken (fixed order n) b.now lim x n) }
    ensures only { (x : ℕ) → Taken (fixed order n) b.now lim x n → result ≡ Ok x }
    ensures broken { IfErr result (λ reason. (fixed order n).Break b.now lim 0 reason) }
    ensures small { IfOk result (λ x. x < 256 ^ n) }
    ensures word { n ≤ 8 → IfOk result (λ x. x < 2 ^ 64) }
    ensures room { IfOk result (λ _. (n ≤ length b.now) × (n ≤ lim)) }
{
    number_at(order, n, b, lim)
}

/// The same, as the plain reader's answer.
#[inline(always)]
pub(crate) fn number_at(order: Order, n: u8, b: &[u8], lim: u64) -> Result<u128, Reason>
    requires some { 1 ≤ n }
    requires most { n ≤ 16 }
    ensures exact { result ≡ answer (fixed_reader order n b.now lim) }
    ensures small { IfOk result (λ x. x < 256 ^ n) }
    ensures word { n ≤ 8 → IfOk result (λ x. x < 2 ^ 64) }
    ensures room { IfOk result (λ _. (n ≤ length b.now) × (n ≤ lim)) }
{
    scan(order, n, b, lim)
}

#[inline(always)]
fn scan(order: Order, n: u8, b: &[u8], lim: u64) -> Result<u128, Reason>
    requires some { 1 ≤ n }
    requires most { n ≤ 16 }
    ensures exact { result ≡ fixed_scan order n b.now lim }
    ensures room { IfOk result (λ _. (n ≤ length b.now) × (n ≤ lim)) }
{
    if lim < n as u64 {
        return Err(Reason::PastUnit);
    }
    if b.len() < n as usize {
        return Err(Reason::Truncated);
    }
    match order {
        Order::Little => Ok(little(n, b)),
        Order::Big => Ok(BigEndian::read_uint128(b, n as usize)),
    }
}

// The number in the first `n` bytes, the least significant first. Nearly every number has a size that the
// machine reads at once.
#[inline(always)]
fn little(n: u8, b: &[u8]) -> u128
    requires some { 1 ≤ n }
    requires most { n ≤ 16 }
    requires room { n ≤ length b.now }
    ensures { result ≡ little_number n b.now }
{
    match n {
        1 => LittleEndian::read_uint(b, 1) as u128,
        2 => LittleEndian::read_u16(b) as u128,
        4 => LittleEndian::read_u32(b) as u128,
        8 => LittleEndian::read_u64(b) as u128,
        _ => LittleEndian::read_uint128(b, n as usize),
    }
}

/// The `n` bytes of the number `x`, which they hold. `n` is 1 to 16.
#[inline(always)]
pub fn write_fixed(order: Order, n: u8, x: u128) -> ArrayVec<u8, 16>
    requires some { 1 ≤ n }
    requires most { n ≤ 16 }
    requires fits { x < 256 ^ n }
    ensures spelling { result.items ≡ (fixed order n).spell x }
    ensures length { length result.items ≡ n }
{
    spell(order, n, x)
}

// Most numbers have at most eight bytes, for which a word is faster than two.
#[inline(always)]
fn spell(order: Order, n: u8, x: u128) -> ArrayVec<u8, 16>
    requires some { 1 ≤ n }
    requires most { n ≤ 16 }
    requires fits { x < 256 ^ n }
    ensures spelling { result.items ≡ fixed_cells order n x }
    ensures length { length result.items ≡ n }
{
    let mut cells = [0u8; 16];
    if n > 8 {
        match order {
            Order::Little => LittleEndian::write_uint128(&mut cells, x, n as usize),
            Order::Big => BigEndian::write_uint128(&mut cells, x, n as usize),
        }
    } else {
        match order {
            Order::Little => LittleEndian::write_uint(&mut cells, x as u64, n as usize),
            Order::Big => BigEndian::write_uint(&mut cells, x as u64, n as usize),
        }
    }
    let mut bytes = ArrayVec::new();
    let _fits = bytes.try_extend_from_slice(&cells[..n as usize]);
    bytes
}

//! The texts of numbers, names and bytes, each appended to an output. Each call returns the writer's fault
//! where there is one, as `Output::append` does.
ghost use Rattle.std.specs.Prelude.{◌≡◌, ◌<◌, ◌≤◌, ◌-◌, ◌%◌, ◌^◌, ◌++◌, ◌∷◌, [], ℕ, length, take, IsTrue, codes, decimal, false};
ghost use Rattle.std.specs.Fmt.{digit_glyph, digits, signed_decimal};
ghost use Rattle.dw_tool.specs.Output.{Puts, IsClear};
ghost use Rattle.dw_tool.specs.Pieces.{attribute_label, depth_text};
ghost use Rattle.dw_tool.specs.Text.{attribute_text, block, each, eight_digits, escaped, four_digits, hexadecimal, labelled, labelled_decimal, quoted, spaced_digits, tag_text, two_digits};

use crate::names::{PADDING, attribute_label, tag_label};
use crate::output::Output;
use dw_leb::WriteError;
use itoa::Buffer;
use std::io::Write;

// The two hexadecimal digits of each byte, of 0 first.
const TWO_DIGITS: [u8; 512] =
    *b"000102030405060708090a0b0c0d0e0f101112131415161718191a1b1c1d1e1f202122232425262728292a2b2c2d2e2f303132333435363738393a3b3c3d3e3f404142434445464748494a4b4c4d4e4f505152535455565758595a5b5c5d5e5f606162636465666768696a6b6c6d6e6f707172737475767778797a7b7c7d7e7f808182838485868788898a8b8c8d8e8f909192939495969798999a9b9c9d9e9fa0a1a2a3a4a5a6a7a8a9aaabacadaeafb0b1b2b3b4b5b6b7b8b9babbbcbdbebfc0c1c2c3c4c5c6c7c8c9cacbcccdcecfd0d1d2d3d4d5d6d7d8d9dadbdcdddedfe0e1e2e3e4e5e6e7e8e9eaebecedeeeff0f1f2f3f4f5f6f7f8f9fafbfcfdfeff";

/// Appends `0x` and the number in lower-case hexadecimal digits, with no leading zeros.
#[inline(always)]
pub(crate) fn push_hexadecimal<W: Write>(
    out: &mut Output<'_, W>,
    number: u128,
) -> Result<(), WriteError>
    requires { IsClear out.old }
    ensures { Puts W.contents out.old out.new (hexadecimal number) result }
{
    // Most addresses and offsets have eight digits at most.
    if number < 0x1_0000_0000 {
        return push_few_digits(out, number as u32);
    }
    push_digits(out, number)
}

// The same of a number of any size: the last four digits behind those of what is above them.
fn push_digits<W: Write>(out: &mut Output<'_, W>, number: u128) -> Result<(), WriteError>
    requires { IsClear out.old }
    ensures { Puts W.contents out.old out.new (hexadecimal number) result }
{
    if number < 0x1_0000_0000 {
        return push_few_digits(out, number as u32);
    }
    push_digits(out, number / 0x1_0000)?;
    push_four_digits(out, (number % 0x1_0000) as u16)
}

// The same of a number of at most eight digits. All eight places are moved, and those that the number has are counted.
#[inline(always)]
fn push_few_digits<W: Write>(out: &mut Output<'_, W>, number: u32) -> Result<(), WriteError>
    requires { IsClear out.old }
    ensures { Puts W.contents out.old out.new (hexadecimal number) result }
{
    let (moved, count) = moved_to_front(number);
    let first = digits_of((moved / 0x100_0000) as u8);
    let second = digits_of((moved / 0x1_0000 % 0x100) as u8);
    let third = digits_of((moved / 0x100 % 0x100) as u8);
    let fourth = digits_of((moved % 0x100) as u8);
    out.append_front(
        &[
            b'0', b'x', first[0], first[1], second[0], second[1], third[0], third[1], fourth[0],
            fourth[1],
        ],
        2 + count,
    )
}

// The number with its first digit at the first of eight places, and how many digits it has.
#[inline(always)]
fn moved_to_front(number: u32) -> (u32, usize)
    ensures few { result.1 ≤ 8 }
    ensures digits { digits 16 false number ≡ take result.1 (eight_digits result.0) }
{
    let count = digit_count(number);
    (number << (32 - 4 * count), count as usize)
}

// How many hexadecimal digits the number has. There is no branch, since the numbers of entries are of every length.
#[inline(always)]
fn digit_count(number: u32) -> u32
    ensures some { 1 ≤ result }
    ensures few { result ≤ 8 }
    ensures within { number < 16 ^ result }
    ensures all { 1 < result → 16 ^ (result - 1) ≤ number }
{
    number.max(1).ilog2() / 4 + 1
}

// The two hexadecimal digits of the byte.
#[inline(always)]
fn digits_of(byte: u8) -> [u8; 2]
    ensures { result ≡ two_digits byte }
{
    let at = 2 * usize::from(byte);
    [TWO_DIGITS[at], TWO_DIGITS[at + 1]]
}

// Appends the number in four hexadecimal digits.
#[inline(always)]
fn push_four_digits<W: Write>(out: &mut Output<'_, W>, number: u16) -> Result<(), WriteError>
    requires { IsClear out.old }
    ensures { Puts W.contents out.old out.new (four_digits number) result }
{
    let first = digits_of((number / 0x100) as u8);
    let second = digits_of((number % 0x100) as u8);
    out.append(&[first[0], first[1], second[0], second[1]])
}

/// Appends the number in decimal digits.
#[inline(always)]
pub(crate) fn push_decimal<W: Write>(out: &mut Output<'_, W>, number: u64) -> Result<(), WriteError>
    requires { IsClear out.old }
    ensures { Puts W.contents out.old out.new (decimal number) result }
{
    if number < 10 {
        out.append(&[b'0' + number as u8])
    } else {
        push_decimal_digits(out, number)
    }
}

// The same of a number of any size.
fn push_decimal_digits<W: Write>(out: &mut Output<'_, W>, number: u64) -> Result<(), WriteError>
    requires { IsClear out.old }
    ensures { Puts W.contents out.old out.new (decimal number) result }
{
    out.append(Buffer::new().format(number).as_bytes())
}

/// Appends the label and the number, as by `push_hexadecimal`.
#[inline(always)]
pub(crate) fn push_labelled<W: Write>(
    out: &mut Output<'_, W>,
    label: &[u8],
    number: u64,
) -> Result<(), WriteError>
    requires { IsClear out.old }
    ensures { Puts W.contents out.old out.new (labelled label.now number) result }
{
    out.append(label)?;
    push_hexadecimal(out, number as u128)
}

/// Appends the label and the number, as by `push_decimal`.
#[inline(always)]
pub(crate) fn push_labelled_decimal<W: Write>(
    out: &mut Output<'_, W>,
    label: &[u8],
    number: u64,
) -> Result<(), WriteError>
    requires { IsClear out.old }
    ensures { Puts W.contents out.old out.new (labelled_decimal label.now number) result }
{
    out.append(label)?;
    push_decimal(out, number)
}

/// Appends the value in decimal digits, after a `-` where it is negative.
pub(crate) fn push_signed<W: Write>(out: &mut Output<'_, W>, value: i64) -> Result<(), WriteError>
    requires { IsClear out.old }
    ensures { Puts W.contents out.old out.new (signed_decimal value) result }
{
    match u64::try_from(value) {
        Ok(number) => push_decimal(out, number),
        Err(_) => out.append(Buffer::new().format(value).as_bytes()),
    }
}

/// Appends `<`, the depth in decimal digits, `>` and a space.
#[inline(always)]
pub(crate) fn push_depth<W: Write>(out: &mut Output<'_, W>, depth: u64) -> Result<(), WriteError>
    requires { IsClear out.old }
    ensures { Puts W.contents out.old out.new (depth_text depth) result }
{
    // Most depths have one digit.
    if depth < 10 {
        out.append(&[b'<', b'0' + depth as u8, b'>', b' '])
    } else {
        push_great_depth(out, depth)
    }
}

// The same of any depth.
fn push_great_depth<W: Write>(out: &mut Output<'_, W>, depth: u64) -> Result<(), WriteError>
    requires { IsClear out.old }
    ensures { Puts W.contents out.old out.new (depth_text depth) result }
{
    push_labelled_decimal(out, b"<", depth)?;
    out.append(b"> ")
}

// Appends a label without the padding behind it.
#[inline(always)]
fn push_label<W: Write>(out: &mut Output<'_, W>, label: &str) -> Result<(), WriteError>
    requires clear { IsClear out.old }
    requires long { 32 ≤ length label.now }
    requires short { length label.now ≤ 56 }
    ensures { Puts W.contents out.old out.new (take (length label.now - 24) label.now) result }
{
    let bytes = label.as_bytes();
    out.append_front(&bytes[..32], bytes.len() - PADDING)
}

/// Appends a space, and the tag as `DW_TAG_` and its name, or its number where it has no name.
#[inline(always)]
pub(crate) fn push_tag<W: Write>(out: &mut Output<'_, W>, tag: u64) -> Result<(), WriteError>
    requires { IsClear out.old }
    ensures { Puts W.contents out.old out.new (codes " " ++ tag_text tag) result }
{
    match tag_label(tag) {
        Some(label) => push_label(out, label),
        None => push_labelled(out, b" DW_TAG_", tag),
    }
}

/// Appends a newline, two spaces, the attribute as `DW_AT_` and its name, or its number where it has no name, and a
/// space.
#[inline(always)]
pub(crate) fn push_attribute<W: Write>(
    out: &mut Output<'_, W>,
    attribute: u64,
) -> Result<(), WriteError>
    requires { IsClear out.old }
    ensures { Puts W.contents out.old out.new (codes "\n  " ++ (attribute_text attribute ++ codes " ")) result }
{
    match attribute_label(attribute) {
        Some(label) => push_label(out, label),
        None => push_unnamed(out, attribute),
    }
}

// The same of an attribute by its number.
fn push_unnamed<W: Write>(out: &mut Output<'_, W>, attribute: u64) -> Result<(), WriteError>
    requires { IsClear out.old }
    ensures { Puts W.contents out.old out.new (attribute_label (hexadecimal attribute)) result }
{
    push_labelled(out, b"\n  DW_AT_", attribute)?;
    out.append(b" ")
}

/// Appends the bytes between double quotes. A double quote and a backslash get a backslash before
/// them, and bytes outside 0x20 to 0x7e are written as `\x` and two hexadecimal digits.
pub(crate) fn push_quoted<W: Write>(out: &mut Output<'_, W>, bytes: &[u8]) -> Result<(), WriteError>
    requires { IsClear out.old }
    ensures { Puts W.contents out.old out.new (quoted bytes.now) result }
{
    out.append(b"\"")?;
    push_each_escaped(out, bytes)?;
    out.append(b"\"")
}

/// Appends `[N]` with the number of bytes, and where there are any a space and two hexadecimal
/// digits for each.
pub(crate) fn push_block<W: Write>(out: &mut Output<'_, W>, bytes: &[u8]) -> Result<(), WriteError>
    requires { IsClear out.old }
    ensures { Puts W.contents out.old out.new (block bytes.now) result }
{
    out.append(b"[")?;
    push_decimal(out, bytes.len() as u64)?;
    out.append(b"]")?;
    push_spaced_digits(out, bytes)
}

fn push_two_digits<W: Write>(out: &mut Output<'_, W>, byte: u8) -> Result<(), WriteError>
    requires { IsClear out.old }
    ensures { Puts W.contents out.old out.new (two_digits byte) result }
{
    out.append(&digits_of(byte))
}

fn push_spaced_digits<W: Write>(out: &mut Output<'_, W>, bytes: &[u8]) -> Result<(), WriteError>
    requires { IsClear out.old }
    ensures { Puts W.contents out.old out.new (spaced_digits bytes.now) result }
{
    if bytes.is_empty() {
        return Ok(());
    }
    out.append(b" ")?;
    push_each_digits(out, bytes)
}

fn push_each_digits<W: Write>(out: &mut Output<'_, W>, bytes: &[u8]) -> Result<(), WriteError>
    requires { IsClear out.old }
    ensures { Puts W.contents out.old out.new (each two_digits bytes.now) result }
{
    for byte in bytes {
        push_two_digits(out, *byte)?;
    }
    Ok(())
}

#[inline(always)]
fn push_each_escaped<W: Write>(out: &mut Output<'_, W>, bytes: &[u8]) -> Result<(), WriteError>
    requires { IsClear out.old }
    ensures { Puts W.contents out.old out.new (each escaped bytes.now) result }
{
    if are_plain(bytes) {
        return out.append(bytes);
    }
    push_one_by_one(out, bytes)
}

// Whether all bytes are written as they are, as those of nearly every name.
// It looks at each byte, without a branch, so that the compiler can look at many at once.
fn are_plain(bytes: &[u8]) -> bool
    ensures { IsTrue result → (each escaped bytes.now ≡ bytes.now) }
{
    let mut plain = true;
    for byte in bytes {
        plain &= is_plain(*byte);
    }
    plain
}

#[inline(always)]
fn is_plain(byte: u8) -> bool
    ensures { IsTrue result → (escaped byte ≡ byte ∷ []) }
{
    (byte >= 0x20) & (byte <= 0x7e) & (byte != b'"') & (byte != b'\\')
}

fn push_one_by_one<W: Write>(out: &mut Output<'_, W>, bytes: &[u8]) -> Result<(), WriteError>
    requires { IsClear out.old }
    ensures { Puts W.contents out.old out.new (each escaped bytes.now) result }
{
    for byte in bytes {
        push_escaped(out, *byte)?;
    }
    Ok(())
}

fn push_escaped<W: Write>(out: &mut Output<'_, W>, byte: u8) -> Result<(), WriteError>
    requires { IsClear out.old }
    ensures { Puts W.contents out.old out.new (escaped byte) result }
{
    match byte {
        b'"' | b'\\' => out.append(&[b'\\', byte]),
        0x20..=0x7e => out.append(&[byte]),
        _ => push_as_digits(out, byte),
    }
}

fn push_as_digits<W: Write>(out: &mut Output<'_, W>, byte: u8) -> Result<(), WriteError>
    requires { IsClear out.old }
    ensures { Puts W.contents out.old out.new (codes "\\x" ++ two_digits byte) result }
{
    out.append(b"\\x")?;
    push_two_digits(out, byte)
}

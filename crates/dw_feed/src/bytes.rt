//! Bytes that are taken from a reader and kept.
ghost use Rattle.std.specs.Prelude.{◌≡◌, ◌<◌, ◌≤◌, [], None, IfErr, OnErr, length};
ghost use Rattle.std.specs.Io.{ReadsAtMost};
ghost use Rattle.std.specs.Result.{result_err};
ghost use Rattle.std.specs.Io.KnownBytes.{ReadConsumes};
ghost use Rattle.dw_leb.specs.Watch.{inner_of, fault_of, reader_fault, KeptSome};
ghost use Rattle.dw_feed.specs.Feed.{ReadsField, ReadsUpTo, ReadsSome, HoldsTaken, IsEscape};

use dw_leb::{ReadError, Watched};
use std::io::{ErrorKind, Read};

/// The most bytes that are read at once.
const CHUNK: usize = 4096;

/// The most of few, as in a length field, and of some, as in a small unit: a larger piece of the stack would cost more
/// than these.
const FEW: usize = 16;

const SOME: usize = 128;

/// The most bytes that are asked for by one read that isn't repeated.
const MANY: usize = 1024;

/// One read from a reader, which may be of fewer bytes than `part` has room for; or the kind of its fault.
pub(crate) fn read_part<R: Read>(
    reader: &mut Watched<R>,
    part: &mut [u8],
) -> Result<usize, ErrorKind>
    requires { fault_of reader.old ≡ None }
    ensures bound { ReadsAtMost result part.new }
    ensures bytes { ReadConsumes
        (R.remaining (inner_of reader.old))
        (R.remaining (inner_of reader.new))
        result part.new }
    ensures fault { fault_of reader.new ≡ result_err result }
{
    match reader.read(part) {
        Ok(got) => Ok(got),
        Err(fault) => Err(fault.kind()),
    }
}

/// The bytes of an initial length (section 7.4), put into a list that is empty: four, and eight more where those are ff
/// ff ff ff. Fewer where the reader has no more. `NoMemory` is returned where a growth was refused, and only where at
/// least a byte was taken.
///
/// A part of the reader of sections in `dw_section`, and no call for users.
pub fn read_field<R: Read>(reader: &mut Watched<R>, bytes: &mut Vec<u8>) -> Result<(), ReadError>
    requires clear { fault_of reader.old ≡ None }
    requires empty { bytes.old.items ≡ [] }
    ensures bytes { ReadsField (λ _. bytes.new.items)
        (R.remaining (inner_of reader.old))
        (R.remaining (inner_of reader.new))
        result }
    ensures memory { KeptSome (R.remaining (inner_of reader.old)) (R.remaining (inner_of reader.new)) result }
    ensures fault { fault_of reader.new ≡ reader_fault result }
{
    read_up_to(reader, 4, bytes)?;
    if is_escape(bytes.as_slice()) {
        read_up_to(reader, 8, bytes)?;
    }
    Ok(())
}

/// Whether these are the four bytes that begin a length of the 64-bit format.
pub(crate) fn is_escape(bytes: &[u8]) -> bool
    ensures { IsEscape bytes.now result }
{
    bytes == [0xff, 0xff, 0xff, 0xff].as_slice()
}

/// Appends the next `most` bytes of the reader to `bytes`, or fewer where it has no more. `bytes` grows by what
/// comes. `NoMemory` is returned where a growth was refused, and only where at least a byte was taken. After an error
/// `bytes` has what it had, and behind it what was taken, without the bytes for which a growth was refused.
///
/// A part of the reader of sections in `dw_section`, and no call for users.
pub fn read_up_to<R: Read>(
    reader: &mut Watched<R>,
    most: u64,
    bytes: &mut Vec<u8>,
) -> Result<(), ReadError>
    requires { fault_of reader.old ≡ None }
    ensures bytes { ReadsUpTo bytes.old.items bytes.new.items
        (R.remaining (inner_of reader.old))
        (R.remaining (inner_of reader.new))
        most result }
    ensures kept { IfErr result (HoldsTaken bytes.old.items bytes.new.items
        (R.remaining (inner_of reader.old))
        (R.remaining (inner_of reader.new))) }
    ensures memory { KeptSome (R.remaining (inner_of reader.old)) (R.remaining (inner_of reader.new)) result }
    ensures fault { fault_of reader.new ≡ reader_fault result }
{
    if most <= FEW as u64 {
        let mut chunk = [0u8; FEW];
        return read_through(reader, most, bytes, &mut chunk);
    }
    if most <= SOME as u64 {
        let mut chunk = [0u8; SOME];
        return read_through(reader, most, bytes, &mut chunk);
    }
    let mut chunk = [0u8; CHUNK];
    read_through(reader, most, bytes, &mut chunk)
}

/// Appends what one read of at most `most` bytes gives: some of them, or none where the reader has no more. For none
/// no read is made. `bytes` grows by what comes. `NoMemory` is returned where a growth was refused, and only where at
/// least a byte was taken. After an error `bytes` has what it had.
///
/// A part of the reader of sections in `dw_section`, and no call for users.
pub fn read_some<R: Read>(
    reader: &mut Watched<R>,
    most: usize,
    bytes: &mut Vec<u8>,
) -> Result<(), ReadError>
    requires clear { fault_of reader.old ≡ None }
    requires few { most ≤ 1024 }
    ensures bytes { ReadsSome bytes.old.items bytes.new.items
        (R.remaining (inner_of reader.old))
        (R.remaining (inner_of reader.new))
        most result }
    ensures kept { OnErr result (bytes.new.items ≡ bytes.old.items) }
    ensures memory { KeptSome (R.remaining (inner_of reader.old)) (R.remaining (inner_of reader.new)) result }
    ensures fault { fault_of reader.new ≡ reader_fault result }
{
    if most == 0 {
        return Ok(());
    }
    if most <= SOME {
        let mut chunk = [0u8; SOME];
        return append_read(reader, bytes, &mut chunk[..most]);
    }
    let mut chunk = [0u8; MANY];
    append_read(reader, bytes, &mut chunk[..most])
}

/// Appends what one read into this part gives.
fn append_read<R: Read>(
    reader: &mut Watched<R>,
    bytes: &mut Vec<u8>,
    part: &mut [u8],
) -> Result<(), ReadError>
    requires clear { fault_of reader.old ≡ None }
    requires room { 0 < length part.old }
    ensures bytes { ReadsSome bytes.old.items bytes.new.items
        (R.remaining (inner_of reader.old))
        (R.remaining (inner_of reader.new))
        (length part.old) result }
    ensures kept { OnErr result (bytes.new.items ≡ bytes.old.items) }
    ensures memory { KeptSome (R.remaining (inner_of reader.old)) (R.remaining (inner_of reader.new)) result }
    ensures fault { fault_of reader.new ≡ reader_fault result }
{
    match read_part(reader, part) {
        Ok(0) => Ok(()),
        Ok(got) => {
            bytes.extend_from_slice(&part[..got])?;
            Ok(())
        }
        Err(kind) => Err(ReadError::Io(kind)),
    }
}

/// The same, read into this chunk again and again.
fn read_through<R: Read>(
    reader: &mut Watched<R>,
    most: u64,
    bytes: &mut Vec<u8>,
    chunk: &mut [u8],
) -> Result<(), ReadError>
    requires clear { fault_of reader.old ≡ None }
    requires room { 0 < length chunk.old }
    ensures bytes { ReadsUpTo bytes.old.items bytes.new.items
        (R.remaining (inner_of reader.old))
        (R.remaining (inner_of reader.new))
        most result }
    ensures kept { IfErr result (HoldsTaken bytes.old.items bytes.new.items
        (R.remaining (inner_of reader.old))
        (R.remaining (inner_of reader.new))) }
    ensures memory { KeptSome (R.remaining (inner_of reader.old)) (R.remaining (inner_of reader.new)) result }
    ensures fault { fault_of reader.new ≡ reader_fault result }
{
    let mut left = most;
    while left > 0 {
        let want = left.min(chunk.len() as u64) as usize;
        let got = match read_part(reader, &mut chunk[..want]) {
            Ok(got) => got,
            Err(kind) => return Err(ReadError::Io(kind)),
        };
        if got == 0 {
            return Ok(());
        }
        let read = &chunk[..got];
        bytes.extend_from_slice(read)?;
        left -= got as u64;
    }
    Ok(())
}

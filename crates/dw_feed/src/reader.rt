//! Reading a unit from a reader.
ghost use Rattle.std.specs.Prelude.{◌≡◌, ◌<◌, ◌≤◌, ◌^◌, length, drop, None, IfOk, IfErr};
ghost use Rattle.dw_leb.specs.Watch.{inner_of, fault_of, reader_fault, KeptSome};
ghost use Rattle.dw_header.specs.Laws.{HasHeaderBytes};
ghost use Rattle.dw_unit.specs.Unit.{bytes_of, left_behind};
ghost use Rattle.dw_unit.specs.UnitView.{FaultWithin};
ghost use Rattle.dw_feed.specs.BodyFeed.{started};
ghost use Rattle.dw_feed.specs.HeadFeed.{Reading, taken_of};
ghost use Rattle.dw_feed.specs.Feed.{behind, BeginsUnit, StartsWith, InUnit, TakesUnit, TakesUnitUnder, TakesNoUnit, TakesNoUnitUnder, TakesNoUnitBehind};
ghost use Rattle.dw_feed.specs.FeedReads.{TakesHeader, TakesNoHeader, TakesBody, TakesNoBody};

use crate::body::BodyFeed;
use crate::bytes::read_part;
use crate::head::HeadFeed;
use crate::progress::Progress;
use dw_abbrev::{Table, Tables};
use dw_leb::{Order, ReadError, Watched};
use dw_unit::{Header, Unit, Versions};
use std::alloc::Global;
use std::io::Read;
use std::rc::Rc;

/// The most bytes that a feed of a header wants at once.
const PART: usize = 8;

/// The most bytes that are read at once behind a header.
const CHUNK: usize = 65_536;

/// The most where the unit has no more: a larger piece of the stack would cost more than the unit.
const SMALL: usize = 1024;

/// The unit of version 5 at the front of what the reader has left, in whatever pieces its bytes come. At `Ok`
/// exactly the unit's bytes were taken.
///
/// The bytes go into the feeds as they come (`HeadFeed`, `BodyFeed`): none is kept beside the unit's tree. A
/// header is taken in parts that it wants for sure, and what follows it in pieces of at most 65,536 bytes. A
/// fault is returned with the piece that shows it, and no later byte is asked for.
///
/// A fault is the first one of all that the reader had left, as `read_unit` returns
/// it. So `Truncated` comes only where the reader has no more: a short read is no end, and a read
/// of 0 bytes is. `Io` is returned exactly where the reader failed, with the kind that `fault()`
/// then returns. `NoMemory` is returned where a growth was refused, and only where at least a byte
/// was taken. After an error no byte past the unit's end was taken, and none past the length field
/// (sections 7.2.2 and 7.4) while that is unread or refused.
///
/// Memory grows by the bytes that came, never by a length that was only announced.
pub fn read_unit_from<R: Read>(
    alloc: Global,
    order: Order,
    tables: &mut Tables<'_>,
    reader: &mut Watched<R>,
) -> Result<Unit, ReadError>
    requires { fault_of reader.old ≡ None }
    ensures found { IfOk result (TakesUnit tables.old order
        (R.remaining (inner_of reader.old))
        (R.remaining (inner_of reader.new))) }
    ensures broken { IfErr result (TakesNoUnit tables.old order
        (R.remaining (inner_of reader.old))
        (R.remaining (inner_of reader.new))) }
    ensures memory { KeptSome (R.remaining (inner_of reader.old)) (R.remaining (inner_of reader.new)) result }
    ensures tables { tables.new ≡ tables.old }
    ensures fault { fault_of reader.new ≡ reader_fault result }
{
    read_unit_from_as(alloc, order, Versions::Five, tables, reader)
}

/// The unit of one of these versions at the front of what the reader has left, in whatever pieces its
/// bytes come, as `read_unit_from` gives it for version 5. At `Ok` exactly the unit's bytes were taken.
///
/// A fault is the first one of all that the reader had left, as `read_unit_as` returns it.
/// `Truncated`, `Io` and `NoMemory` come, and bytes are taken, as `read_unit_from` says. Memory grows by the
/// bytes that came, never by a length that was only announced.
pub fn read_unit_from_as<R: Read>(
    alloc: Global,
    order: Order,
    versions: Versions,
    tables: &mut Tables<'_>,
    reader: &mut Watched<R>,
) -> Result<Unit, ReadError>
    requires { fault_of reader.old ≡ None }
    ensures found { IfOk result (TakesUnitUnder versions tables.old order
        (R.remaining (inner_of reader.old))
        (R.remaining (inner_of reader.new))) }
    ensures broken { IfErr result (TakesNoUnitUnder versions tables.old order
        (R.remaining (inner_of reader.old))
        (R.remaining (inner_of reader.new))) }
    ensures memory { KeptSome (R.remaining (inner_of reader.old)) (R.remaining (inner_of reader.new)) result }
    ensures tables { tables.new ≡ tables.old }
    ensures fault { fault_of reader.new ≡ reader_fault result }
{
    read_unit_behind(alloc, HeadFeed::new_as(order, versions), tables, reader)
}

/// The unit of which a feed of its header took the first bytes, and whose other bytes are at the front of what the
/// reader has left, as `read_unit_from_as` gives it where none were taken before. The feed gives the byte order
/// and the versions. It wants more bytes, and took none past the unit's end.
///
/// All that is said there of what the reader had left is said of the bytes that the feed took and those behind
/// them; offsets count from the first of these.
fn read_unit_behind<R: Read>(
    alloc: Global,
    feed: HeadFeed,
    tables: &mut Tables<'_>,
    reader: &mut Watched<R>,
) -> Result<Unit, ReadError>
    requires clear { fault_of reader.old ≡ None }
    requires reading { feed.state ≡ Reading (taken_of feed.state) }
    requires inside { InUnit feed.order (taken_of feed.state) (length (taken_of feed.state)) }
    ensures found { IfOk result (TakesUnitUnder feed.versions tables.old feed.order
        (behind (taken_of feed.state) (R.remaining (inner_of reader.old)))
        (R.remaining (inner_of reader.new))) }
    ensures front { IfOk result (λ u. StartsWith (taken_of feed.state) (bytes_of u)) }
    ensures broken { IfErr result (TakesNoUnitBehind feed.versions tables.old feed.order (taken_of feed.state)
        (R.remaining (inner_of reader.old))
        (R.remaining (inner_of reader.new))) }
    ensures memory { KeptSome (behind (taken_of feed.state) (R.remaining (inner_of reader.old)))
        (R.remaining (inner_of reader.new))
        result }
    ensures near { IfErr result (FaultWithin (2 ^ 63)) }
    ensures tables { tables.new ≡ tables.old }
    ensures fault { fault_of reader.new ≡ reader_fault result }
{
    let (header, unit_length) = head_from(feed, reader)?;
    let table = tables.get(header.abbrev_offset())?;
    body_from(alloc, header, unit_length, table, &[], reader)
}

/// The unit of which these bytes were taken, no more than it has, and whose other bytes are at the front of what the
/// reader has left, as `read_unit_from_as` gives it where none were taken before. What they show is looked at before
/// another byte is asked for.
///
/// All that is said there of what the reader had left is said of these bytes and those behind them; offsets count from
/// the first of these.
///
/// A part of the reader of sections in `dw_section`, and no call for users.
pub fn read_unit_begun<R: Read>(
    alloc: Global,
    order: Order,
    versions: Versions,
    taken: &[u8],
    tables: &mut Tables<'_>,
    reader: &mut Watched<R>,
) -> Result<Unit, ReadError>
    requires clear { fault_of reader.old ≡ None }
    requires begun { BeginsUnit order taken.now }
    requires few { length taken.now ≤ 65536 }
    ensures found { IfOk result (TakesUnitUnder versions tables.old order
        (behind taken.now (R.remaining (inner_of reader.old)))
        (R.remaining (inner_of reader.new))) }
    ensures front { IfOk result (λ u. StartsWith taken.now (bytes_of u)) }
    ensures broken { IfErr result (TakesNoUnitBehind versions tables.old order taken.now
        (R.remaining (inner_of reader.old))
        (R.remaining (inner_of reader.new))) }
    ensures memory { KeptSome (behind taken.now (R.remaining (inner_of reader.old)))
        (R.remaining (inner_of reader.new))
        result }
    ensures near { IfErr result (FaultWithin (2 ^ 63)) }
    ensures tables { tables.new ≡ tables.old }
    ensures fault { fault_of reader.new ≡ reader_fault result }
{
    let mut feed = HeadFeed::new_as(order, versions);
    let (count, answer) = feed.feed(taken);
    match answer {
        Progress::More => read_unit_behind(alloc, feed, tables, reader),
        Progress::Done(head) => {
            let declared = tables.get(head.0.abbrev_offset())?;
            body_from(
                alloc,
                head.0,
                head.1,
                declared,
                rest_of(taken, count),
                reader,
            )
        }
        Progress::Fault(fault) => Err(ReadError::Fault(fault)),
        Progress::NoMemory | Progress::Spent => unreachable!(),
    }
}

/// The bytes behind the first so many.
fn rest_of(bytes: &[u8], count: usize) -> &[u8]
    requires { count ≤ length bytes.now }
    ensures { result.now ≡ drop count bytes.now }
{
    &bytes[count..]
}

/// The header of which the feed took the first bytes, and its unit_length; the other bytes are at the front of
/// what the reader has left. No byte is taken that the header doesn't want.
fn head_from<R: Read>(feed: HeadFeed, reader: &mut Watched<R>) -> Result<(Header, u64), ReadError>
    requires clear { fault_of reader.old ≡ None }
    requires reading { feed.state ≡ Reading (taken_of feed.state) }
    requires inside { InUnit feed.order (taken_of feed.state) (length (taken_of feed.state)) }
    ensures found { IfOk result (TakesHeader feed.versions feed.order (taken_of feed.state)
        (R.remaining (inner_of reader.old))
        (R.remaining (inner_of reader.new))) }
    ensures broken { IfErr result (TakesNoHeader feed.versions feed.order (taken_of feed.state)
        (R.remaining (inner_of reader.old))
        (R.remaining (inner_of reader.new))) }
    ensures near { IfErr result (FaultWithin (2 ^ 63)) }
    ensures fault { fault_of reader.new ≡ reader_fault result }
{
    let mut feed = feed;
    let mut part = [0u8; PART];
    loop {
        let want = feed.wants();
        let got = match read_part(reader, &mut part[..want]) {
            Ok(got) => got,
            Err(kind) => return Err(ReadError::Io(kind)),
        };
        if got == 0 {
            return match feed.end() {
                Some(cut_off) => Err(ReadError::Fault(cut_off)),
                None => unreachable!(),
            };
        }
        let (_, answer) = feed.feed(&part[..got]);
        match answer {
            Progress::More => {}
            Progress::Done(head) => return Ok(head),
            Progress::Fault(fault) => return Err(ReadError::Fault(fault)),
            Progress::NoMemory | Progress::Spent => unreachable!(),
        }
    }
}

/// How many bytes the unit has behind its header (section 7.5.1).
fn behind_header(header: Header, unit_length: u64) -> u64
    requires { HasHeaderBytes header unit_length }
    ensures { result ≡ left_behind header unit_length }
{
    header.format().length_size() as u64 + unit_length - header.size()
}

/// The unit of a header of which, behind it, these bytes were taken, and whose other bytes are at the front of what the
/// reader has left.
fn body_from<R: Read>(
    alloc: Global,
    header: Header,
    unit_length: u64,
    table: Rc<Table>,
    first: &[u8],
    reader: &mut Watched<R>,
) -> Result<Unit, ReadError>
    requires spelled { HasHeaderBytes header unit_length }
    requires clear { fault_of reader.old ≡ None }
    requires inside { length first.now ≤ left_behind header unit_length }
    requires few { length first.now ≤ 65536 }
    ensures found { IfOk result (TakesBody (started header unit_length table.value) first.now
        (R.remaining (inner_of reader.old))
        (R.remaining (inner_of reader.new))) }
    ensures broken { IfErr result (TakesNoBody (started header unit_length table.value) first.now
        (R.remaining (inner_of reader.old))
        (R.remaining (inner_of reader.new))) }
    ensures fault { fault_of reader.new ≡ reader_fault result }
{
    let size = behind_header(header, unit_length);
    if size <= SMALL as u64 {
        let mut chunk = [0u8; SMALL];
        return body_through(alloc, header, unit_length, table, first, reader, &mut chunk);
    }
    let mut chunk = [0u8; CHUNK];
    body_through(alloc, header, unit_length, table, first, reader, &mut chunk)
}

/// The same, read into this chunk again and again.
fn body_through<R: Read>(
    alloc: Global,
    header: Header,
    unit_length: u64,
    table: Rc<Table>,
    first: &[u8],
    reader: &mut Watched<R>,
    chunk: &mut [u8],
) -> Result<Unit, ReadError>
    requires spelled { HasHeaderBytes header unit_length }
    requires clear { fault_of reader.old ≡ None }
    requires room { 0 < length chunk.old }
    requires inside { length first.now ≤ left_behind header unit_length }
    requires fits { length first.now ≤ length chunk.old }
    ensures found { IfOk result (TakesBody (started header unit_length table.value) first.now
        (R.remaining (inner_of reader.old))
        (R.remaining (inner_of reader.new))) }
    ensures broken { IfErr result (TakesNoBody (started header unit_length table.value) first.now
        (R.remaining (inner_of reader.old))
        (R.remaining (inner_of reader.new))) }
    ensures fault { fault_of reader.new ≡ reader_fault result }
{
    let mut got = first.len();
    chunk[..got].copy_from_slice(first);
    let mut left = behind_header(header, unit_length) - got as u64;
    let mut feed = BodyFeed::new(alloc, header, unit_length, table);
    // A unit that has no room for a root is refused before a byte is read.
    loop {
        let (_, answer) = feed.feed(&chunk[..got]);
        match answer {
            Progress::More => {}
            Progress::Done(unit) => return Ok(unit),
            Progress::Fault(fault) => return Err(ReadError::Fault(fault)),
            Progress::NoMemory => return Err(ReadError::NoMemory),
            Progress::Spent => unreachable!(),
        }
        let want = left.min(chunk.len() as u64) as usize;
        got = match read_part(reader, &mut chunk[..want]) {
            Ok(got) => got,
            Err(kind) => return Err(ReadError::Io(kind)),
        };
        if got == 0 {
            return match feed.end() {
                Some(fault) => Err(ReadError::Fault(fault)),
                None => unreachable!(),
            };
        }
        left -= got as u64;
    }
}

//! Pieces of a unit: those of its header, the table of its declarations, those of what follows.
ghost use Rattle.std.specs.Prelude.{◌≡◌, ◌≢◌, ◌≤◌, [], length, IfOk, IfErr};
ghost use Rattle.dw_abbrev.specs.Table.{TableAt};
ghost use Rattle.dw_abbrev.specs.TableErrors.{IsTableError};
ghost use Rattle.dw_feed.specs.HeadFeed.{Reading};
ghost use Rattle.dw_feed.specs.HeldCounts.{held, nothing_held};
ghost use Rattle.dw_feed.specs.HeldView.{taken_by};
ghost use Rattle.rothelduf_c.specs.Feeds.{HeadPushed, BodyPushed, IsEnded, IsHeldWithin, IsPushed, IsTabled, IsTaken, IsWanted, SaysRefusal, held_in, pushed_in};
ghost use Rattle.rothelduf_c.specs.Seen.{seen_held};
ghost use Rattle.rothelduf_c.specs.Status as status;
ghost use Rattle.rothelduf_c.specs.declared.feeding.Feeding.TheVariants.{Head};

use crate::feeding::{Feeding, Headed};
use crate::numbers;
use crate::status::{FAULT, HEADER, MORE, NO_MEMORY, NOTHING, OK, REFUSED, SPENT, UNIT};
use crate::structs::{CFault, CHeld, c_fault, c_held};
use dw_abbrev::Table;
use dw_feed::{BodyFeed, HeadFeed, Held, Progress};
use dw_leb::{Order, ReadError};
use dw_section::{Section, SectionRefusal};
use dw_unit::{Unit, Versions};
use std::alloc::Global;
use std::rc::Rc;

/// What a feed of a header answers, as C is told, and the header where it came.
fn push_head(feed: &mut HeadFeed, piece: &[u8], fault: &mut CFault) -> (u32, usize, Option<Headed>)
    ensures pushed { HeadPushed feed.old piece.now result.0 result.1 fault.new result.2 feed.new }
    ensures room { result.1 ≤ length piece.now }
    ensures untold { result.0 ≢ status.FAULT → fault.new ≡ fault.old }
{
    let (count, answer) = feed.feed(piece);
    match answer {
        Progress::More => (MORE, count, None),
        Progress::Done((header, unit_length)) => {
            (HEADER, count, Some(Headed::new(header, unit_length)))
        }
        Progress::Fault(found) => {
            *fault = c_fault(found);
            (FAULT, count, None)
        }
        Progress::NoMemory => (NO_MEMORY, count, None),
        Progress::Spent => (SPENT, count, None),
    }
}

/// What a feed of a unit answers, as C is told, and the unit where it came.
fn push_body(feed: &mut BodyFeed, piece: &[u8], fault: &mut CFault) -> (u32, usize, Option<Unit>)
    ensures pushed { BodyPushed feed.old piece.now result.0 result.1 fault.new result.2 feed.new }
    ensures room { result.1 ≤ length piece.now }
    ensures untold { result.0 ≢ status.FAULT → fault.new ≡ fault.old }
{
    let (count, answer) = feed.feed(piece);
    match answer {
        Progress::More => (MORE, count, None),
        Progress::Done(unit) => (UNIT, count, Some(unit)),
        Progress::Fault(found) => {
            *fault = c_fault(found);
            (FAULT, count, None)
        }
        Progress::NoMemory => (NO_MEMORY, count, None),
        Progress::Spent => (SPENT, count, None),
    }
}

/// Takes bytes of a piece, and answers what they show and how many were taken. A header or a unit that came is answered
/// again, and no byte is taken, until the table is handed in or the unit is taken.
pub fn push(feeding: &mut Feeding, piece: &[u8], fault: &mut CFault) -> (u32, usize)
    ensures pushed { IsPushed feeding.old piece.now result.0 result.1 fault.new feeding.new }
    ensures room { result.1 ≤ length piece.now }
    ensures untold { result.0 ≢ status.FAULT → fault.new ≡ fault.old }
{
    match feeding {
        Feeding::Head(feed) => {
            let (answer, count, headed) = push_head(feed, piece, fault);
            if let Some(headed) = headed {
                *feeding = Feeding::Table(headed);
            }
            (answer, count)
        }
        Feeding::Table(_) => (HEADER, 0),
        Feeding::Body(feed) => {
            let (answer, count, unit) = push_body(feed, piece, fault);
            if let Some(unit) = unit {
                *feeding = Feeding::Whole(unit);
            }
            (answer, count)
        }
        Feeding::Whole(_) => (UNIT, 0),
    }
}

/// The table that begins at an offset of these bytes.
fn table_at(alloc: Global, abbreviations: &[u8], offset: u64) -> Result<Rc<Table>, ReadError>
    ensures found { IfOk result (λ t. TableAt abbreviations.now offset t.value) }
    ensures broken { IfErr result (IsTableError abbreviations.now offset) }
{
    let table = Table::read(alloc, abbreviations, offset)?;
    Ok(Rc::new(alloc, table)?)
}

/// Hands in the section of tables where a header came: what follows it is read over the table that it names.
pub fn hand_in(
    alloc: Global,
    feeding: &mut Feeding,
    abbreviations: &[u8],
    fault: &mut CFault,
) -> u32
    ensures tabled { IsTabled feeding.old abbreviations.now result fault.new feeding.new }
    ensures untold { result ≢ status.FAULT → fault.new ≡ fault.old }
{
    let Feeding::Table(headed) = feeding else {
        return NOTHING;
    };
    match table_at(alloc, abbreviations, headed.abbrev_offset()) {
        Ok(table) => {
            let body = headed.body(alloc, table);
            *feeding = Feeding::Body(body);
            OK
        }
        Err(ReadError::Fault(found)) => {
            *fault = c_fault(found);
            FAULT
        }
        Err(_) => NO_MEMORY,
    }
}

/// How many bytes of a header are needed at the least; 0 where no header is pushed.
pub fn wants(feeding: &Feeding) -> usize
    ensures { IsWanted feeding.now result }
{
    match feeding {
        Feeding::Head(feed) => feed.wants(),
        _ => 0,
    }
}

/// What is held of a unit behind its header; nothing of all else.
pub fn held(feeding: &Feeding) -> CHeld
    ensures exact { result ≡ seen_held (held_in feeding.now) }
    ensures within { IsHeldWithin (pushed_in feeding.now) result }
{
    match feeding {
        Feeding::Body(feed) => held_behind(feed),
        _ => none_held(),
    }
}

/// What is held of a unit behind its header.
fn held_behind(feed: &BodyFeed) -> CHeld
    ensures exact { result ≡ seen_held (held feed.now) }
    ensures within { IsHeldWithin (taken_by feed.now) result }
{
    c_held(&feed.held())
}

fn none_held() -> CHeld
    ensures exact { result ≡ seen_held nothing_held }
    ensures within { IsHeldWithin 0 result }
{
    c_held(&Held {
        pending: 0,
        nested: 0,
        entries: 0,
        values: 0,
        pool: 0,
    })
}

/// What a feed says where the input ends.
pub fn end(feeding: Feeding, fault: &mut CFault) -> u32
    ensures ended { IsEnded feeding result fault.new }
    ensures untold { result ≢ status.FAULT → fault.new ≡ fault.old }
{
    let missing = match feeding {
        Feeding::Head(feed) => feed.end(),
        Feeding::Table(_) => return HEADER,
        Feeding::Body(feed) => feed.end(),
        Feeding::Whole(_) => return UNIT,
    };
    match missing {
        Some(found) => {
            *fault = c_fault(found);
            FAULT
        }
        None => OK,
    }
}

/// A feed of a unit: the bytes of its header come first.
pub fn of_header(order: Order, versions: Versions) -> Feeding
    ensures { result ≡ Head (record { order = order; versions = versions; state = Reading [] }) }
{
    Feeding::Head(HeadFeed::new_as(order, versions))
}

/// Puts the unit that came behind the items of a section. The feed then takes the next header.
pub fn take(feeding: &mut Feeding, section: &mut Section, why: &mut u32) -> u32
    ensures taken { IsTaken feeding.old section.old result why.new feeding.new section.new }
    ensures untold { result ≢ status.REFUSED → why.new ≡ why.old }
{
    let next = of_header(section.order(), section.versions());
    match std::mem::replace(feeding, next) {
        Feeding::Whole(unit) => match section.push(unit) {
            Ok(()) => OK,
            Err((refusal, unit)) => {
                *feeding = Feeding::Whole(unit);
                refused(refusal, why)
            }
        },
        other => {
            *feeding = other;
            NOTHING
        }
    }
}

fn refused(refusal: SectionRefusal, why: &mut u32) -> u32
    ensures says { SaysRefusal refusal result why.new }
    ensures untold { result ≢ status.REFUSED → why.new ≡ why.old }
{
    match refusal {
        SectionRefusal::NoMemory => NO_MEMORY,
        other => {
            *why = numbers::of_push(other);
            REFUSED
        }
    }
}

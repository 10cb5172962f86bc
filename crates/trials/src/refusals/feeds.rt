//! A unit that is pushed byte by byte.
use crate::refusals::samples::{ROOT_AND_CHILD, table};
use crate::refusals::told;
use rothelduf::{BodyFeed, Order, Progress, ReadError, Unit, read_header};
use std::alloc::{AllocError, Global};

/// How long the header is.
const HEADER: usize = 12;

/// A feed that is refused memory is spent for good. So another one is made then, which takes the same bytes.
pub(crate) fn tell(alloc: Global, text: &mut String) -> Result<(), ReadError> {
    let unit = match pushed(alloc, text)? {
        Some(unit) => Some(unit),
        None => pushed(alloc, text)?,
    };
    match unit {
        Some(unit) => Ok(told::unit(alloc, text, &unit)?),
        None => Ok(text.push_str("feed FAILED\n")?),
    }
}

/// The unit, or none where memory was refused to its feed.
fn pushed(alloc: Global, text: &mut String) -> Result<Option<Unit>, ReadError> {
    let (header, unit_length) = read_header(Order::Little, &ROOT_AND_CHILD)?;
    let mut feed = BodyFeed::new(alloc, header, unit_length, table(alloc)?);
    Ok(push(&mut feed, text)?)
}

fn push(feed: &mut BodyFeed, text: &mut String) -> Result<Option<Unit>, AllocError> {
    for byte in &ROOT_AND_CHILD[HEADER..] {
        match feed.feed(&[*byte]) {
            (_, Progress::More) => {}
            (_, Progress::Done(unit)) => return Ok(Some(unit)),
            (0, Progress::NoMemory) => {
                told::refused(text, "feed")?;
                tell_spent(feed, text)?;
                return Ok(None);
            }
            _ => {
                told::changed(text, "feed")?;
                return Ok(None);
            }
        }
    }
    Ok(None)
}

/// Tells where a feed that was refused memory takes a byte, answers anything but that it is spent, or holds something.
fn tell_spent(feed: &mut BodyFeed, text: &mut String) -> Result<(), AllocError> {
    let held = feed.held();
    let all = [held.pending, held.nested, held.entries, held.pool];
    if all != [0, 0, 0, 0] || held.values != 0 {
        told::changed(text, "held")?;
    }
    for _ in 0..2 {
        match feed.feed(&[0]) {
            (0, Progress::Spent) => {}
            _ => told::changed(text, "spent")?,
        }
    }
    Ok(())
}

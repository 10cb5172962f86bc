//! Look-ups of entries by their offsets, in orders that users have: the same few again and again, near ones, any.
use crate::digest::Digest;
use crate::error::JobError;
use crate::random::Random;
use rothelduf::{EntryId, Order, Section, Watched, read_section};
use std::alloc::{AllocError, Global};
use std::fs;
use std::rt::Files;

/// In what order entries are looked up.
#[derive(Clone, Copy)]
pub(crate) enum Pattern {
    /// One entry again and again.
    One,
    /// Four entries, drawn.
    Four,
    /// One of the next 64.
    Near,
    /// One behind the other.
    Along,
    /// Any.
    Any,
}

/// So many look-ups in the section of the files `info` and `abbrev`.
pub(crate) fn of_files(
    rt: &(impl AllocGlobal + Files),
    pattern: Pattern,
    count: usize,
    random: &mut Random,
    digest: &mut Digest,
) -> Result<(), JobError> {
    let abbrev = fs::read(rt, "abbrev")?;
    let info = fs::read(rt, "info")?;
    let mut reader = Watched::new(info.as_slice());
    let section = read_section(rt.alloc(), Order::Little, abbrev.as_slice(), &mut reader)?;
    let ids = ids_of(rt.alloc(), &section)?;
    look(&section, ids.as_slice(), pattern, count, random, digest);
    Ok(())
}

/// Each entry of each unit.
fn ids_of(alloc: Global, section: &Section) -> Result<Vec<EntryId>, AllocError> {
    let mut ids = Vec::new(alloc);
    for item in 0..section.items().len() {
        if let Some(unit) = section.unit(item) {
            for entry in unit.entries() {
                let offset = entry.offset();
                ids.push(EntryId { item, offset })?;
            }
        }
    }
    Ok(ids)
}

fn look(
    section: &Section,
    ids: &[EntryId],
    pattern: Pattern,
    count: usize,
    random: &mut Random,
    digest: &mut Digest,
) {
    for turn in 0..count {
        let place = place_of(ids.len(), pattern, turn, random);
        if let Some(id) = ids.get(place) {
            match section.entry(*id) {
                Some(entry) => digest.add_number(entry.tag()),
                None => digest.add_none(),
            }
        }
    }
}

/// Which of so many entries is looked up in this turn.
fn place_of(many: usize, pattern: Pattern, turn: usize, random: &mut Random) -> usize {
    if many == 0 {
        return 0;
    }
    match pattern {
        Pattern::One => many / 2,
        Pattern::Four => (many / 5).wrapping_mul(1 + random.below(4)),
        Pattern::Near => (turn % many).wrapping_add(random.below(64)) % many,
        Pattern::Along => turn % many,
        Pattern::Any => random.below(many),
    }
}

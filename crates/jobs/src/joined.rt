//! Sections that are joined out of the units of a corpus.
use crate::bytes::{between, put, put_word, word_at};
use crate::corpus::Corpus;
use crate::parts::{Change, Part};
use crate::random::{Random, shuffle};
use std::alloc::{AllocError, Global};

/// Where a header has the offset of its table.
const TABLE_AT: usize = 8;

/// A section `.debug_info` with its `.debug_abbrev`.
#[derive(Drop)]
pub(crate) struct Joined {
    pub(crate) info: Vec<u8>,
    pub(crate) abbrev: Vec<u8>,
}

/// What copies of units have in common.
#[derive(Clone, Copy)]
struct Round<'a> {
    /// Where their tables begin.
    tables: usize,
    /// Where each unit begins.
    starts: &'a [usize],
    /// What makes signatures others.
    key: u64,
    /// Whether some references are wrong.
    wrong: bool,
}

impl Joined {
    /// Each unit of the corpus so many times, with a table of its own each time. Some references may be wrong.
    pub(crate) fn of(
        alloc: Global,
        corpus: &Corpus,
        rounds: usize,
        wrong: bool,
        random: &mut Random,
    ) -> Result<Joined, AllocError> {
        let mut joined = Joined {
            info: Vec::with_capacity(alloc, corpus.info.len().saturating_mul(rounds))?,
            abbrev: Vec::with_capacity(alloc, corpus.abbrev.len().saturating_mul(rounds))?,
        };
        for _ in 0..rounds {
            joined.add_round(alloc, corpus, wrong, random)?;
        }
        Ok(joined)
    }

    /// Each unit once, in an order of its own.
    fn add_round(
        &mut self,
        alloc: Global,
        corpus: &Corpus,
        wrong: bool,
        random: &mut Random,
    ) -> Result<(), AllocError> {
        let order = shuffled(alloc, corpus.parts.len(), random)?;
        let starts = starts_of(alloc, corpus, order.as_slice(), self.info.len())?;
        let round = Round {
            tables: self.abbrev.len(),
            starts: starts.as_slice(),
            key: random.number(),
            wrong,
        };
        self.abbrev.extend_from_slice(corpus.abbrev.as_slice())?;
        for number in order.as_slice() {
            if let Some(part) = corpus.parts.get(*number) {
                self.add_part(corpus, part, round, random)?;
            }
        }
        Ok(())
    }

    fn add_part(
        &mut self,
        corpus: &Corpus,
        part: &Part,
        round: Round<'_>,
        random: &mut Random,
    ) -> Result<(), AllocError> {
        let start = self.info.len();
        let bytes = between(corpus.info.as_slice(), part.start, part.end);
        self.info.extend_from_slice(bytes)?;
        if start > self.info.len() {
            return Ok(());
        }
        let unit = &mut self.info[start..];
        let table = word_at(bytes, TABLE_AT).wrapping_add((round.tables % 0x1_0000_0000) as u32);
        put_word(unit, TABLE_AT, table);
        for change in part.changes.as_slice() {
            apply(unit, *change, round, random);
        }
        Ok(())
    }
}

fn apply(unit: &mut [u8], change: Change, round: Round<'_>, random: &mut Random) {
    match change {
        Change::Number(at) => put_number(unit, at, random.byte()),
        Change::Target { at, item, offset } => {
            let start = round.starts.get(item).copied().unwrap_or(0) as u64;
            let target = start.wrapping_add(offset) % 0x1_0000_0000;
            put_word(unit, at, target as u32);
        }
        Change::Signature(at) => put_signature(unit, at, round.key),
        Change::Reference(at) => {
            if round.wrong && random.byte() < 32 {
                put_word(unit, at, word_at(unit, at).wrapping_add(1));
            }
        }
    }
}

/// Other low bits in a byte, whose highest one stays: a number of LEB128 keeps its width.
fn put_number(unit: &mut [u8], at: usize, byte: u8) {
    if at < unit.len() {
        unit[at] = (unit[at] & 0x80) | (byte & 0x7f);
    }
}

fn put_signature(unit: &mut [u8], at: usize, key: u64) {
    let signature = match between(unit, at, at.saturating_add(8)).first_chunk::<8>() {
        Some(eight) => u64::from_le_bytes(*eight),
        None => 0,
    };
    put(unit, at, &(signature ^ key).to_le_bytes());
}

/// Where each unit begins, by its number, where they stand in this order from a start on.
fn starts_of(
    alloc: Global,
    corpus: &Corpus,
    order: &[usize],
    start: usize,
) -> Result<Vec<usize>, AllocError> {
    let mut starts = vec![in alloc; 0; corpus.parts.len()]?;
    let mut at = start;
    for number in order {
        if *number < starts.len() {
            starts[*number] = at;
        }
        if let Some(part) = corpus.parts.get(*number) {
            at = at.saturating_add(part.end.saturating_sub(part.start));
        }
    }
    Ok(starts)
}

/// The numbers below a count, in an order that is drawn.
fn shuffled(alloc: Global, count: usize, random: &mut Random) -> Result<Vec<usize>, AllocError> {
    let mut order = Vec::new(alloc);
    for number in 0..count {
        order.push(number)?;
    }
    shuffle(order.as_mut_slice(), random);
    Ok(order)
}

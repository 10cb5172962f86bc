//! A debugger's questions about the entries of a section that is read once: their names, what they refer to, the texts
//! of their types, and which entry is at an offset.
ghost use Rattle.std.specs.Prelude.{IsSome};
ghost use Rattle.dw_section.specs.Lookup.{unit_at};

use crate::corpus::Corpus;
use crate::digest::Digest;
use crate::error::JobError;
use crate::joined::Joined;
use crate::random::{Random, shuffle};
use rothelduf::constants::attribute::{
    DW_AT_ABSTRACT_ORIGIN, DW_AT_LINKAGE_NAME, DW_AT_NAME, DW_AT_SPECIFICATION, DW_AT_TYPE,
};
use rothelduf::constants::tag::{
    DW_TAG_FORMAL_PARAMETER, DW_TAG_MEMBER, DW_TAG_SUBPROGRAM, DW_TAG_TYPEDEF, DW_TAG_VARIABLE,
};
use rothelduf::{
    EntryId, EntryRef, Order, Section, Strings, TypeError, Watched, read_section, type_text,
};
use std::alloc::{AllocError, Global};
use std::fs;
use std::rt::Files;

/// One of so many entries is looked up by its offset.
const STEP: u64 = 4;

pub(crate) fn of_corpus(
    alloc: Global,
    corpus: &Corpus,
    rounds: usize,
    random: &mut Random,
    digest: &mut Digest,
) -> Result<(), JobError> {
    let joined = Joined::of(alloc, corpus, rounds, false, random)?;
    ask(alloc, &joined, corpus.strings(), random, digest)
}

/// The same of the section of the files `info` and `abbrev`, whose texts stand in the units.
pub(crate) fn of_files(
    rt: &(impl AllocGlobal + Files),
    random: &mut Random,
    digest: &mut Digest,
) -> Result<(), JobError> {
    let joined = Joined {
        abbrev: fs::read(rt, "abbrev")?,
        info: fs::read(rt, "info")?,
    };
    let none = Strings {
        str: &[],
        line_str: &[],
        str_offsets: &[],
    };
    ask(rt.alloc(), &joined, none, random, digest)
}

fn ask(
    alloc: Global,
    joined: &Joined,
    strings: Strings<'_>,
    random: &mut Random,
    digest: &mut Digest,
) -> Result<(), JobError> {
    let section = read(alloc, joined)?;
    let asked = Asked {
        alloc,
        section: &section,
        strings: &strings,
    };
    let mut offsets = Vec::new(alloc);
    asked.each_unit(&mut offsets, digest)?;
    shuffle(offsets.as_mut_slice(), random);
    find_each(&section, offsets.as_slice(), digest);
    Ok(())
}

fn read(alloc: Global, joined: &Joined) -> Result<Section, JobError> {
    let mut reader = Watched::new(joined.info.as_slice());
    Ok(read_section(alloc, Order::Little, joined.abbrev.as_slice(), &mut reader)?)
}

/// What is asked, and where names are.
#[derive(Clone, Copy)]
struct Asked<'a> {
    alloc: Global,
    section: &'a Section,
    strings: &'a Strings<'a>,
}

impl<'a> Asked<'a> {
    /// Asks of each entry, and keeps offsets in the section at which some begin.
    fn each_unit(&self, offsets: &mut Vec<u64>, digest: &mut Digest) -> Result<(), AllocError> {
        let mut text = Vec::new(self.alloc);
        for number in 0..self.section.items().len() {
            if let Some(unit) = self.section.unit(number) {
                for entry in unit.entries() {
                    self.each(number, &entry, &mut text, offsets, digest)?;
                }
            }
        }
        Ok(())
    }

    fn each(
        &self,
        item: usize,
        entry: &EntryRef<'a>,
        text: &mut Vec<u8>,
        offsets: &mut Vec<u64>,
        digest: &mut Digest,
    ) -> Result<(), AllocError>
        requires { IsSome (unit_at self.now.section.now.items item) }
    {
        let offset = entry.offset();
        let id = EntryId { item, offset };
        if offset % STEP == 0 {
            let start = self.section.start(item).unwrap_or(0);
            offsets.push(start.wrapping_add(offset))?;
        }
        self.references(id, entry, digest);
        self.names(id, entry, digest);
        self.types(id, entry, text, digest);
        Ok(())
    }

    fn references(&self, id: EntryId, entry: &EntryRef<'a>, digest: &mut Digest)
        requires { IsSome (unit_at self.now.section.now.items id.item) }
    {
        for name in [DW_AT_TYPE, DW_AT_ABSTRACT_ORIGIN, DW_AT_SPECIFICATION] {
            match entry.attr(name) {
                Some(attribute) => match self.section.resolve(id, &attribute) {
                    Ok(target) => add_id(target, digest),
                    Err(fault) => digest.add_number(name + fault as u64 * 0x1_0000),
                },
                None => digest.add_none(),
            }
        }
    }

    fn names(&self, id: EntryId, entry: &EntryRef<'a>, digest: &mut Digest)
        requires { IsSome (unit_at self.now.section.now.items id.item) }
    {
        for name in [DW_AT_NAME, DW_AT_LINKAGE_NAME] {
            match entry.attr(name) {
                Some(attribute) => match self.strings.text(self.section, id, &attribute) {
                    Ok(text) => digest.add_text(text),
                    Err(fault) => digest.add_number(name + fault as u64 * 0x1_0000),
                },
                None => digest.add_none(),
            }
        }
    }

    /// The text of the type of an entry that has one.
    fn types(&self, id: EntryId, entry: &EntryRef<'a>, text: &mut Vec<u8>, digest: &mut Digest) {
        if !is_typed(entry.tag()) {
            return;
        }
        let answer = type_text(self.alloc, self.section, self.strings, id, b"x", text);
        digest.add_number(number_of(answer));
        digest.add_text(text.as_slice());
        text.clear();
    }
}

/// Whether a debugger prints the types of entries of this tag.
fn is_typed(tag: u64) -> bool {
    matches!(
        tag,
        DW_TAG_VARIABLE
            | DW_TAG_FORMAL_PARAMETER
            | DW_TAG_MEMBER
            | DW_TAG_SUBPROGRAM
            | DW_TAG_TYPEDEF
    )
}

/// 0 where there is a text, else the number of the error.
fn number_of(answer: Result<(), TypeError>) -> u64 {
    match answer {
        Ok(()) => 0,
        Err(error) => error as u64,
    }
}

/// Looks up what is at each of these offsets.
fn find_each(section: &Section, offsets: &[u64], digest: &mut Digest) {
    for offset in offsets {
        match section.find(*offset) {
            Some(id) => {
                add_id(id, digest);
                digest.add_number(tag_of(section, id));
            }
            None => digest.add_none(),
        }
    }
}

fn add_id(id: EntryId, digest: &mut Digest) {
    digest.add_number(id.item as u64);
    digest.add_number(id.offset);
}

fn tag_of(section: &Section, id: EntryId) -> u64 {
    match section.entry(id) {
        Some(entry) => entry.tag(),
        None => 0,
    }
}

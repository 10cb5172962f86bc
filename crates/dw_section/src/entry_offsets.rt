//! Where the entries of a unit begin, for many references in one unit (section 7.5.5).
ghost use Rattle.std.specs.Prelude.{◌≡◌, []};
ghost use Rattle.dw_unit.specs.Unit.{WholeUnit};
ghost use Rattle.dw_section.specs.EntryOffsets.{AreEntryOffsets, Adds, is_marked};

use dw_unit::Unit;
use std::alloc::Global;
use std::marker::Model;

/// Offsets of one unit at which entries begin, a bit for each offset: a reference to one of these takes one step in
/// place of a search.
#[derive(Debug, Drop)]
pub struct EntryOffsets {
    /// The bit of an offset stands in the word of its number by 64.
    words: Vec<u64>,
}

impl Model for EntryOffsets {
    ghost use Rattle.std.specs.Prelude.{ℕ, List};

    ghost Value = { List ℕ };

    ghost view = { λ b. b.words.items };
}

impl EntryOffsets {
    /// Of no unit: none is known. It takes no memory.
    pub fn new(alloc: Global) -> EntryOffsets
        ensures none { result ≡ [] }
        ensures known { (u : WholeUnit) → AreEntryOffsets u result }
    {
        EntryOffsets {
            words: Vec::new(alloc),
        }
    }

    /// Those of this unit, in the place of what was known. Where the memory for them is refused none is known.
    pub fn learn(&mut self, unit: &Unit)
        ensures { AreEntryOffsets unit.now self.new }
    {
        let size = unit.size();
        self.words.clear();
        if self.words.resize((size / 64) as usize + 1, 0).is_err() {
            self.words.clear();
            return;
        }
        for entry in unit.entries() {
            let offset = entry.offset();
            if offset < size {
                self.mark(offset);
            }
        }
    }

    /// Keeps an offset, where there is a bit for it.
    fn mark(&mut self, offset: u64)
        ensures { Adds offset self.old self.new }
    {
        let at = (offset / 64) as usize;
        if at < self.words.len() {
            self.words[at] |= 1 << (offset % 64);
        }
    }

    /// Whether an offset is known.
    #[inline(always)]
    pub(crate) fn knows(&self, offset: u64) -> bool
        ensures { result ≡ is_marked self.now offset }
    {
        match self.words.get((offset / 64) as usize) {
            Some(word) => (*word >> (offset % 64)) & 1 == 1,
            None => false,
        }
    }
}

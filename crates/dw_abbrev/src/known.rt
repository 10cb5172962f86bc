//! At which offsets of a section declarations begin that were read.
ghost use Rattle.std.specs.Prelude.{◌≡◌, ◌≤◌, false, length, IfOk, IsTrue};

use crate::decl::decl_behind;
use crate::fields::uleb_at;
use dw_leb::ReadError;
use std::alloc::{AllocError, Global};

/// Offsets of a section at which declarations begin that were read: a bit for each offset up to the last of them. They
/// only say where tables may meet: no answer depends on them. None are kept as long as each table begins behind all
/// others, as compilers write them: then no two meet.
#[derive(Debug, Drop)]
pub(crate) struct KnownOffsets {
    /// The bit of an offset stands in the word of its number by 64.
    words: Vec<u64>,
    /// Whether any are kept.
    keeps: bool,
    /// What was read ends here or before.
    end: usize,
}

impl KnownOffsets {
    /// None are kept. It takes no memory.
    pub(crate) fn none(alloc: Global) -> KnownOffsets
        ensures { result.keeps ≡ false }
    {
        KnownOffsets {
            words: Vec::new(alloc),
            keeps: false,
            end: 0,
        }
    }

    /// A table ends at `end`.
    #[inline(always)]
    pub(crate) fn reach(&mut self, end: usize) {
        if end > self.end {
            self.end = end;
        }
    }

    /// Whether a table at `offset` may meet another, and the offsets of those aren't kept yet.
    #[inline(always)]
    pub(crate) fn lacks(&self, offset: u64) -> bool {
        !self.keeps && offset < self.end as u64
    }

    /// From now on offsets are kept.
    pub(crate) fn begin(&mut self) {
        self.keeps = true;
    }

    /// Whether a declaration that was read begins at `at`. It is kept that one does.
    #[inline(always)]
    pub(crate) fn meets(&mut self, at: usize) -> Result<bool, AllocError>
        ensures met { IfOk result (λ met. IsTrue met → IsTrue self.old.keeps) }
        ensures keeps { self.new.keeps ≡ self.old.keeps }
    {
        if !self.keeps {
            return Ok(false);
        }
        self.note(at)
    }

    /// Keeps an offset, and answers whether it was kept before.
    fn note(&mut self, at: usize) -> Result<bool, AllocError>
        ensures { self.new.keeps ≡ self.old.keeps }
    {
        let index = at / 64;
        let bit = 1 << (at % 64) as u64;
        if index >= self.words.len() {
            // (of some kilobytes of the section at once)
            self.words.resize(index + 64, 0)?;
        }
        let before = self.words[index];
        self.words[index] = before | bit;
        Ok(before & bit != 0)
    }

    /// Keeps the offsets of the declarations from `at` on, up to one that is kept.
    pub(crate) fn learn(
        &mut self,
        alloc: Global,
        abbreviations: &[u8],
        at: usize,
    ) -> Result<(), AllocError> {
        let mut here = at;
        while here < abbreviations.len() {
            let Ok((code, behind)) = uleb_at(abbreviations, here) else {
                return Ok(());
            };
            if code.value == 0 || self.note(here)? {
                return Ok(());
            }
            match decl_behind(alloc, abbreviations, behind, code) {
                Ok((_, next)) => here = next,
                Err(ReadError::NoMemory) => return Err(AllocError),
                Err(_) => return Ok(()),
            }
        }
        Ok(())
    }
}

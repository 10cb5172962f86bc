//! The tables of a section, read at need and shared.
ghost use Rattle.std.specs.Prelude.{◌≡◌, ◌<◌, ◌++◌, drop, length, IfOk, IfErr, OnErr};
ghost use Rattle.dw_leb.specs.View.{uleb_of};
ghost use Rattle.dw_abbrev.specs.Table.{Table as Spelled, IsZero, TableAt};
ghost use Rattle.dw_abbrev.specs.TableView.{joined};
ghost use Rattle.dw_abbrev.specs.TableErrors.{IsTableError, refused_memory};
ghost use Rattle.dw_abbrev.specs.Runs.{StandTogether, IsJoined};

use crate::decls::Decls;
use crate::known::KnownOffsets;
use crate::run::{JoinedRun, Run};
use crate::shared::SharedRun;
use crate::table::Table;
use dw_leb::{ReadError, Uleb};
use indexmap::IndexMap;
use std::alloc::{AllocError, Global};
use std::marker::Model;
use std::rc::Rc;

/// The tables of a section `.debug_abbrev` (section 7.5.3), each read when it is first asked for and kept by its
/// offset. Where tables have declarations in common, what they take grows with what each adds, and not with
/// what it repeats.
///
/// Two tables that meet at the beginning of a declaration are the same from there on. Those of compilers never
/// meet, and each begins behind all that were read before: it is read for itself. Once one doesn't, it is kept
/// track of where declarations begin that were read (`known`). A table that meets one is read into a run, up to a
/// table that is kept and shares at least twice as many declarations in its first run. The table is that run, and
/// what the other one shares. From then on each declaration of the run begins such a table, so that later ones
/// meet them.
#[derive(Debug, Drop)]
pub struct Tables<'a> {
    alloc: Global,
    abbreviations: &'a [u8],
    known: KnownOffsets,
    kept: IndexMap<u64, Rc<Table>>,
}

impl<'a> Model for Tables<'a> {
    ghost use Rattle.std.specs.Prelude.{List, ℕ};
    ghost use Rattle.std.specs.List.{AllByRecursion};
    ghost use Rattle.dw_abbrev.specs.Table.{TableAt};

    ghost Value = { List ℕ };

    ghost view = { λ t. t.abbreviations.now };

    ghost invariant = { λ t. AllByRecursion (λ e. TableAt t.abbreviations.now e.0 e.1.value) t.kept.entries };
}

impl<'a> Tables<'a> {
    /// The tables of this section, of which none is read yet.
    pub fn new(alloc: Global, abbreviations: &'a [u8]) -> Tables<'a>
        ensures { result ≡ abbreviations.now }
    {
        Tables {
            alloc,
            abbreviations,
            known: KnownOffsets::none(alloc),
            kept: IndexMap::new(alloc),
        }
    }

    /// The table that begins at `offset` of the section: what `Table::read` gives there, whatever
    /// was asked before. A table that was read is shared; a fault isn't kept. `NoMemory` is also
    /// answered where a table couldn't be kept, or where declarations begin couldn't be kept track of.
    pub fn get(&mut self, offset: u64) -> Result<Rc<Table>, ReadError>
        ensures found { IfOk result (λ t. TableAt self.old offset t.value) }
        ensures only { (t : Spelled) → TableAt self.old offset t
            → IfOk result (λ x. x.value ≡ t) × IfErr result (λ e. e ≡ refused_memory) }
        ensures broken { IfErr result (λ e. IsTableError self.old offset e) }
        ensures memory { IfErr result (λ e. e ≡ refused_memory → offset < length self.old) }
        ensures abbreviations { self.new ≡ self.old }
    {
        if let Some(table) = self.kept.get(&offset) {
            return Ok(table.clone()?);
        }
        self.prepare(offset)?;
        let read = Table::read_unknown(self.alloc, self.abbreviations, offset, &mut self.known)?;
        match read {
            Some(table) => self.keep(offset, table),
            None => self.get_shared(offset),
        }
    }

    /// It is known where declarations begin, if the table at `offset` may meet another.
    #[inline(always)]
    fn prepare(&mut self, offset: u64) -> Result<(), AllocError>
        ensures abbreviations { self.new ≡ self.old }
        ensures inside { OnErr result (offset < length self.old) }
    {
        if self.known.lacks(offset) && offset < self.abbreviations.len() as u64 {
            return self.learn();
        }
        Ok(())
    }

    /// From now on it is known where the declarations begin of the tables that are kept, and of those that are read.
    #[inline(never)]
    fn learn(&mut self) -> Result<(), AllocError>
        ensures { self.new ≡ self.old }
    {
        self.known.begin();
        for offset in self.kept.keys() {
            self.known
                .learn(self.alloc, self.abbreviations, *offset as usize)?;
        }
        Ok(())
    }

    /// The table at `offset`, which meets others: what it shares is kept, unless it breaks.
    #[inline(never)]
    fn get_shared(&mut self, offset: u64) -> Result<Rc<Table>, ReadError>
        requires { offset < length self.old }
        ensures found { IfOk result (λ t. TableAt self.old offset t.value) }
        ensures only { (t : Spelled) → TableAt self.old offset t
            → IfOk result (λ x. x.value ≡ t) × IfErr result (λ e. e ≡ refused_memory) }
        ensures broken { IfErr result (λ e. IsTableError self.old offset e) }
        ensures abbreviations { self.new ≡ self.old }
    {
        self.share(offset)?;
        match self.kept.get(&offset) {
            Some(table) => Ok(table.clone()?),
            None => {
                let table = Table::read(self.alloc, self.abbreviations, offset)?;
                self.keep(offset, table)
            }
        }
    }

    /// Keeps a table under its offset.
    fn keep(&mut self, offset: u64, table: Table) -> Result<Rc<Table>, ReadError>
        requires { TableAt self.old offset table }
        ensures found { IfOk result (λ t. t.value ≡ table) }
        ensures memory { IfErr result (λ e. e ≡ refused_memory) }
        ensures abbreviations { self.new ≡ self.old }
    {
        let table = Rc::new(self.alloc, table)?;
        let shared = table.clone()?;
        self.put(offset, table)?;
        Ok(shared)
    }

    /// Puts a table under its offset, in the place of another.
    fn put(&mut self, offset: u64, table: Rc<Table>) -> Result<(), AllocError>
        requires { TableAt self.old offset table.value }
        ensures { self.new ≡ self.old }
    {
        self.kept.insert(offset, table)?;
        Ok(())
    }

    /// Keeps the table at `offset`, which meets others, and those that begin with its declarations, by what they share.
    /// Where the table breaks nothing is kept.
    fn share(&mut self, offset: u64) -> Result<(), AllocError>
        requires { offset < length self.old }
        ensures { self.new ≡ self.old }
    {
        match JoinedRun::read(self.alloc, self.abbreviations, &self.kept, offset as usize)? {
            Some(joined) => self.keep_all(joined),
            None => Ok(()),
        }
    }

    /// Keeps the tables that begin with the declarations of a run.
    fn keep_all(&mut self, joined: JoinedRun) -> Result<(), AllocError>
        requires { IsJoined self.old joined }
        ensures { self.new ≡ self.old }
    {
        let JoinedRun {
            run: Run { decls, starts },
            rest,
            last_zero,
        } = joined;
        let decls = Rc::new(self.alloc, decls)?;
        self.keep_each(starts.as_slice(), &decls, rest.as_slice(), last_zero)
    }

    /// The same, where the declarations begin at `starts`.
    fn keep_each(
        &mut self,
        starts: &[u64],
        run: &Rc<Decls>,
        rest: &[SharedRun],
        last_zero: Uleb,
    ) -> Result<(), AllocError>
        requires zero { IsZero (uleb_of last_zero) }
        requires stand { StandTogether self.old starts.now run.now.value
            (record { declarations = joined rest.now; last_zero = last_zero.width }) }
        ensures { self.new ≡ self.old }
    {
        let mut left = starts;
        let mut from = 0;
        while let Some((start, others)) = left.split_first() {
            self.keep_from(*start, run, from, rest, last_zero)?;
            left = others;
            from += 1;
        }
        Ok(())
    }

    /// Keeps the table that begins at `start` with the run's declaration of the index `from`, unless what is kept there
    /// shares more than half as much in its first run.
    fn keep_from(
        &mut self,
        start: u64,
        run: &Rc<Decls>,
        from: usize,
        rest: &[SharedRun],
        last_zero: Uleb,
    ) -> Result<(), AllocError>
        requires zero { IsZero (uleb_of last_zero) }
        requires stands { TableAt self.old start
            (record { declarations = drop from run.now.value ++ joined rest.now; last_zero = last_zero.width }) }
        ensures { self.new ≡ self.old }
    {
        let first = SharedRun::new(run.clone()?, from);
        if self.first_shared_at(start) > first.count() / 2 {
            return Ok(());
        }
        let table = Table::sharing(self.alloc, first, rest, last_zero)?;
        self.put(start, Rc::new(self.alloc, table)?)
    }

    /// How many declarations the first shared run has of the table that is kept of `start`, if there is one.
    fn first_shared_at(&self, start: u64) -> usize {
        match self.kept.get(&start) {
            Some(table) => table.first_shared(),
            None => 0,
        }
    }
}

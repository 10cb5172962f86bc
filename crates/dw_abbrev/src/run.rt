//! Declarations that are read up to a table that is kept, and the tables that begin with each of them (section 7.5.3).
ghost use Rattle.std.specs.Prelude.{◌≡◌, ◌≤◌, ◌∷◌, ◌++◌, [], List, ℕ, length, None, IfOk, IfSome, OnOk};
ghost use Rattle.std.specs.List.{AllByRecursion};
ghost use Rattle.dw_leb.specs.View.{uleb_of};
ghost use Rattle.dw_abbrev.specs.Table.{IsZero, TableAt, declared_in};
ghost use Rattle.dw_abbrev.specs.TableView.{joined};
ghost use Rattle.dw_abbrev.specs.Runs.{IsRun, IsStep, IsJoined};

use crate::decl::{Decl, decl_behind};
use crate::decls::Decls;
use crate::fields::uleb_at;
use crate::shared::SharedRun;
use crate::table::Table;
use dw_leb::{ReadError, Uleb};
use indexmap::IndexMap;
use std::alloc::{AllocError, Global};
use std::rc::Rc;

/// Declarations that stand one behind the other, each under its code, and the offsets at which they begin.
#[derive(Drop)]
pub(crate) struct Run {
    pub(crate) decls: Decls,
    pub(crate) starts: Vec<u64>,
}

/// A run with what stands behind it: declarations that other tables have too, and the zero that ends them all.
#[derive(Drop)]
pub(crate) struct JoinedRun {
    pub(crate) run: Run,
    pub(crate) rest: Vec<SharedRun>,
    pub(crate) last_zero: Uleb,
}

/// What stands behind a run.
#[derive(Drop)]
enum Step {
    /// A declaration, which the run has now, and behind it this place.
    Declaration(usize),
    /// The zero that ends a table.
    Zero(Uleb),
    /// Nothing that may stand there.
    Broken,
}

impl Run {
    fn new(alloc: Global) -> Run
        ensures decls { result.decls ≡ [] }
        ensures starts { result.starts.items ≡ [] }
    {
        Run {
            decls: Decls::new(alloc),
            starts: Vec::new(alloc),
        }
    }

    /// What stands at `here`, behind the run. A declaration goes to the run.
    fn step(&mut self, alloc: Global, abbreviations: &[u8], here: usize) -> Result<Step, AllocError>
        requires { IsRun abbreviations.now self.old here }
        ensures { IfOk result (IsStep abbreviations.now here self.old self.new) }
    {
        let Ok((code, behind)) = uleb_at(abbreviations, here) else {
            return Ok(Step::Broken);
        };
        if code.value == 0 {
            return Ok(Step::Zero(code));
        }
        if self.decls.has(code.value) {
            return Ok(Step::Broken);
        }
        match decl_behind(alloc, abbreviations, behind, code) {
            Ok((decl, next)) => {
                self.push(here, decl)?;
                Ok(Step::Declaration(next))
            }
            Err(ReadError::NoMemory) => Err(AllocError),
            Err(_) => Ok(Step::Broken),
        }
    }

    /// One more declaration, of a new code, which begins at `here`.
    fn push(&mut self, here: usize, decl: Decl) -> Result<(), AllocError>
        requires { declared_in self.old.decls decl.code.value ≡ None }
        ensures decls { OnOk result (self.new.decls ≡ self.old.decls ++ decl ∷ []) }
        ensures starts { OnOk result (self.new.starts.items ≡ self.old.starts.items ++ here ∷ []) }
    {
        self.starts.push(here as u64)?;
        match self.decls.push(decl) {
            Ok(()) => Ok(()),
            Err(_) => Err(AllocError),
        }
    }

    /// The table that is kept of `here`, where it begins with declarations that are shared, at least twice as many as
    /// the run has. With fewer they are read once more: so of the runs of a table each has twice as many declarations
    /// as all before it have.
    fn meets<'k>(&self, kept: &'k IndexMap<u64, Rc<Table>>, here: usize) -> Option<&'k Table>
        ensures { (abbreviations : List ℕ) → AllByRecursion (λ e. TableAt abbreviations e.0 e.1.value) kept.now.entries
            → IfSome result (λ t. TableAt abbreviations here t.now) }
    {
        let table = kept.get(&(here as u64))?;
        if table.first_shared() / 2 < self.decls.len() {
            return None;
        }
        Some(table)
    }

    /// The run before the declarations that this table shares, if it has no others and none of a code that the run has.
    fn before(self, table: &Table) -> Result<Option<JoinedRun>, AllocError>
        ensures { (abbreviations : List ℕ) (here : ℕ) → TableAt abbreviations here table.now
            → IsRun abbreviations self here
            → IfOk result (λ o. IfSome o (IsJoined abbreviations)) }
    {
        match table.shared_runs()? {
            Some((rest, last_zero)) => Ok(self.join(rest, last_zero)),
            None => Ok(None),
        }
    }

    /// The run with what stands behind it, if no code is there twice.
    fn join(self, rest: Vec<SharedRun>, last_zero: Uleb) -> Option<JoinedRun>
        requires zero { IsZero (uleb_of last_zero) }
        ensures { (abbreviations : List ℕ) (here : ℕ)
            → TableAt abbreviations here (record { declarations = joined rest.items; last_zero = last_zero.width })
            → IsRun abbreviations self here → IfSome result (IsJoined abbreviations) }
    {
        if !self.decls.are_apart_from(rest.as_slice()) {
            return None;
        }
        Some(JoinedRun {
            run: self,
            rest,
            last_zero,
        })
    }
}

impl JoinedRun {
    /// The declarations from `at` on, up to a table that is kept and begins with enough shared ones, or to the zero.
    /// None where the table at `at` breaks.
    pub(crate) fn read(
        alloc: Global,
        abbreviations: &[u8],
        kept: &IndexMap<u64, Rc<Table>>,
        at: usize,
    ) -> Result<Option<JoinedRun>, AllocError>
        requires within { at ≤ length abbreviations.now }
        requires kept { AllByRecursion (λ e. TableAt abbreviations.now e.0 e.1.value) kept.now.entries }
        ensures { IfOk result (λ o. IfSome o (IsJoined abbreviations.now)) }
    {
        let mut run = Run::new(alloc);
        let mut here = at;
        loop {
            if let Some(table) = run.meets(kept, here) {
                return run.before(table);
            }
            match run.step(alloc, abbreviations, here)? {
                Step::Declaration(next) => here = next,
                Step::Zero(last_zero) => return Ok(run.join(Vec::new(alloc), last_zero)),
                Step::Broken => return Ok(None),
            }
        }
    }
}

//! Declarations that several tables of a section have in common.
ghost use Rattle.std.specs.Prelude.{◌≡◌, ◌++◌, drop, length, None, IfOk, OnOk, option_copied};
ghost use Rattle.dw_leb.specs.Watch.{inner_of, fault_of, writer_fault, Wrote};
ghost use Rattle.dw_abbrev.specs.Spelling.{declarations_bytes};
ghost use Rattle.dw_abbrev.specs.Table.{declared_in};
ghost use Rattle.dw_abbrev.specs.TableView.{joined};

use crate::decl::Decl;
use crate::decls::Decls;
use dw_leb::{Watched, WriteError};
use std::alloc::AllocError;
use std::io::Write;
use std::marker::Model;
use std::rc::Rc;

/// The declarations of a run from one of them on. A run is declarations that stand one behind the other in their
/// section; it never changes, and the tables that have its end in common share it.
#[derive(Drop)]
pub(crate) struct SharedRun {
    run: Rc<Decls>,
    from: usize,
}

impl Model for SharedRun {
    ghost use Rattle.std.specs.Prelude.{List, drop};
    ghost use Rattle.dw_abbrev.specs.Table.{Declaration};

    ghost Value = { List Declaration };

    ghost view = { λ s. drop s.from s.run.value };
}

impl SharedRun {
    /// The declarations of this run from the one at the index `from` on.
    pub(crate) fn new(run: Rc<Decls>, from: usize) -> SharedRun
        ensures { result ≡ drop from run.value }
    {
        SharedRun { run, from }
    }

    /// The same declarations, which are shared once more.
    pub(crate) fn share(&self) -> Result<SharedRun, AllocError>
        ensures { IfOk result (λ s. s ≡ self.now) }
    {
        Ok(SharedRun {
            run: self.run.clone()?,
            from: self.from,
        })
    }

    /// How many declarations these are.
    pub(crate) fn count(&self) -> usize {
        self.run.len().saturating_sub(self.from)
    }

    pub(crate) fn as_slice(&self) -> &[Decl]
        ensures { result.now ≡ self.now }
    {
        match self.run.as_slice().get(self.from..) {
            Some(decls) => decls,
            None => &[],
        }
    }

    /// The declaration of a code.
    fn get(&self, code: u64) -> Option<&Decl>
        ensures { option_copied result ≡ declared_in self.now code }
    {
        let index = self.run.index_of(code)?;
        if index < self.from {
            return None;
        }
        self.run.as_slice().get(index)
    }

    /// Writes the declarations, one behind the other.
    fn write<W: Write>(&self, writer: &mut Watched<W>) -> Result<(), WriteError>
        requires { fault_of writer.old ≡ None }
        ensures written { Wrote (W.contents (inner_of writer.old)) (W.contents (inner_of writer.new))
            (declarations_bytes self.now)
            result }
        ensures fault { fault_of writer.new ≡ writer_fault result }
    {
        write_decls(writer, self.as_slice())
    }
}

/// The declaration of a code among these, one run behind the other.
pub(crate) fn find_shared(runs: &[SharedRun], code: u64) -> Option<&Decl>
    ensures { option_copied result ≡ declared_in (joined runs.now) code }
{
    let mut left = runs;
    while let Some((part, others)) = left.split_first() {
        if let Some(decl) = part.get(code) {
            return Some(decl);
        }
        left = others;
    }
    None
}

/// Shares these runs once more, behind those of the list.
pub(crate) fn share_all(list: &mut Vec<SharedRun>, runs: &[SharedRun]) -> Result<(), AllocError>
    ensures { OnOk result (list.new.items ≡ list.old.items ++ runs.now) }
{
    let mut left = runs;
    while let Some((part, others)) = left.split_first() {
        list.push(part.share()?)?;
        left = others;
    }
    Ok(())
}

/// Writes the declarations of these runs, one behind the other.
pub(crate) fn write_shared<W: Write>(
    writer: &mut Watched<W>,
    runs: &[SharedRun],
) -> Result<(), WriteError>
    requires { fault_of writer.old ≡ None }
    ensures written { Wrote (W.contents (inner_of writer.old)) (W.contents (inner_of writer.new))
        (declarations_bytes (joined runs.now)) result }
    ensures fault { fault_of writer.new ≡ writer_fault result }
{
    let mut left = runs;
    while let Some((part, others)) = left.split_first() {
        part.write(writer)?;
        left = others;
    }
    Ok(())
}

/// Writes declarations, one behind the other.
pub(crate) fn write_decls<W: Write>(
    writer: &mut Watched<W>,
    decls: &[Decl],
) -> Result<(), WriteError>
    requires { fault_of writer.old ≡ None }
    ensures written { Wrote (W.contents (inner_of writer.old)) (W.contents (inner_of writer.new))
        (declarations_bytes decls.now)
        result }
    ensures fault { fault_of writer.new ≡ writer_fault result }
{
    let mut left = decls;
    while let Some((decl, others)) = left.split_first() {
        decl.write(writer)?;
        left = others;
    }
    Ok(())
}

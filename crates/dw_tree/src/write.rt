//! Writing a tree.
ghost use Rattle.std.specs.Prelude.{◌≡◌, ◌≤◌, ◌<◌, ◌-◌, ◌++◌, ℕ, List, length, map, take, drop, position, None, Some, IfSome, IfOk};
ghost use Rattle.dw_leb.specs.Watch.{inner_of, fault_of, writer_fault, Wrote};
ghost use Rattle.dw_leb.specs.Number.{uleb};
ghost use Rattle.dw_leb.specs.Scan.{is_last};
ghost use Rattle.dw_abbrev.specs.PairView.{pair_of};
ghost use Rattle.dw_abbrev.specs.Table.{zero_of};
ghost use Rattle.dw_form.specs.Form.{IsContext};
ghost use Rattle.dw_tree.specs.Tree.{unit_tree};
ghost use Rattle.dw_tree.specs.Row.{row_bytes};
ghost use Rattle.dw_tree.specs.RowHeads.{Here, First, run_bytes, first_bytes, behind_first};
ghost use Rattle.dw_tree.specs.Runs.{size_of_shape};
ghost use Rattle.dw_tree.specs.WholeHeads.{IsWhole};
ghost use Rattle.dw_tree.specs.Flat.{token_at, RowReads};
ghost use Rattle.dw_tree.specs.DraftInvariant.{TokenFits};

use crate::gather::{Gathered, gather};
use crate::row::{Row, RowKind};
use crate::tree::EntryTree;
use dw_abbrev::{Pair, Table};
use dw_form::{Ctx, Shape, lend_head, write_value};
use dw_leb::{Uleb, Watched, WriteError, write_all};
use std::io::Write;

impl EntryTree {
    /// Writes the tree: its one spelling, which each tree has, with each number in the width that it
    /// holds (section 7.5.2). It takes no memory. After an error a beginning of it was written.
    ///
    /// Errors: `Io` with the kind of the writer's failure, `WriteZero` where it took no byte of some.
    pub fn write<W: Write>(&self, writer: &mut Watched<W>) -> Result<(), WriteError>
        requires { fault_of writer.old ≡ None }
        ensures written { Wrote (W.contents (inner_of writer.old)) (W.contents (inner_of writer.new))
            ((unit_tree self.now.context self.now.table).spell self.now.root) result }
        ensures fits { (unit_tree self.now.context self.now.table).Fits self.now.root }
        ensures fault { fault_of writer.new ≡ writer_fault result }
    {
        let mut gathered = Gathered::new();
        let mut left = self.rows.as_slice();
        while let Some((row, others)) = left.split_first() {
            if !gather(
                self.context,
                &self.table,
                &self.heads,
                &self.pool,
                *row,
                &mut gathered,
            ) {
                write_all(writer, gathered.as_slice())?;
                gathered.clear();
                write_row(
                    self.context,
                    &self.table,
                    &self.heads,
                    &self.pool,
                    *row,
                    writer,
                )?;
            }
            left = others;
        }
        write_all(writer, gathered.as_slice())
    }
}

/// Writes a row: an entry's code and values, or a null.
fn write_row<W: Write>(
    ctx: Ctx,
    table: &Table,
    heads: &[u8],
    pool: &[u8],
    row: Row,
    writer: &mut Watched<W>,
) -> Result<(), WriteError>
    requires context { IsContext ctx }
    requires reads { RowReads ctx table.now heads.now pool.now row }
    requires fits { TokenFits ctx table.now (token_at ctx table.now heads.now pool.now row) }
    requires clear { fault_of writer.old ≡ None }
    ensures written { Wrote (W.contents (inner_of writer.old)) (W.contents (inner_of writer.new))
        (row_bytes ctx table.now (token_at ctx table.now heads.now pool.now row)) result }
    ensures fault { fault_of writer.new ≡ writer_fault result }
{
    if let RowKind::Null = row.kind {
        return write_null(row.width, writer);
    }
    write_all(writer, row.code().bytes().as_slice())?;
    match table.get(row.code) {
        Some(decl) => write_values(ctx, decl.pairs(), behind(heads, row.first), pool, writer),
        None => unreachable!(),
    }
}

/// Writes a null entry of this width, a code 0 (section 7.5.2).
pub fn write_null<W: Write>(width: u8, writer: &mut Watched<W>) -> Result<(), WriteError>
    requires null { uleb.Fits (zero_of width) }
    requires clear { fault_of writer.old ≡ None }
    ensures written { Wrote (W.contents (inner_of writer.old)) (W.contents (inner_of writer.new))
        (uleb.spell (zero_of width)) result }
    ensures fault { fault_of writer.new ≡ writer_fault result }
{
    match Uleb::with_width(0, width) {
        Some(null) => write_all(writer, null.bytes().as_slice()),
        None => unreachable!(),
    }
}

/// Where the value at `size` ends, if it has no content: its head is its spelling. Its form tells its size, or it is a
/// LEB128 number, which ends at its first byte without bit 7 (section 7.6). It ends there also where `run` is cut off
/// behind it.
#[inline(always)]
pub(crate) fn whole_end(ctx: Ctx, form: u64, run: &[u8], size: usize) -> Option<usize>
    requires context { IsContext ctx }
    requires within { size ≤ length run.now }
    ensures whole { IfSome result (λ end. IsWhole ctx form (drop size run.now) (end - size)) }
    ensures beyond { IfSome result (λ end. (more : List ℕ)
        → IsWhole ctx form (drop size run.now ++ more) (end - size)) }
    ensures behind { IfSome result (λ end. size ≤ end) }
    ensures room { IfSome result (λ end. end ≤ length run.now) }
{
    let shape = Shape::of(form, ctx.address_size, ctx.format)?;
    match shape {
        Shape::Uleb => number_end(run, size),
        Shape::Sleb => number_end(run, size),
        _ => told_end(shape, run, size),
    }
}

/// Where the value at `size` ends, if its form tells its size.
#[inline(always)]
fn sized_end(ctx: Ctx, form: u64, run: &[u8], size: usize) -> Option<usize>
    requires context { IsContext ctx }
    requires within { size ≤ length run.now }
    ensures whole { IfSome result (λ end. IsWhole ctx form (drop size run.now) (end - size)) }
    ensures behind { IfSome result (λ end. size ≤ end) }
    ensures room { IfSome result (λ end. end ≤ length run.now) }
{
    let shape = Shape::of(form, ctx.address_size, ctx.format)?;
    told_end(shape, run, size)
}

/// Where the value at `size` ends, if its shape tells its size.
#[inline(always)]
fn told_end(shape: Shape, run: &[u8], size: usize) -> Option<usize>
    requires { size ≤ length run.now }
    ensures sized { IfSome result (λ end. size_of_shape (Some shape) ≡ Some (end - size)) }
    ensures behind { IfSome result (λ end. size ≤ end) }
    ensures room { IfSome result (λ end. end ≤ length run.now) }
{
    let n = match shape {
        Shape::Fixed(n) => n as usize,
        Shape::Present => 0,
        Shape::Implicit => 0,
        _ => return None,
    };
    if n <= run.len() - size {
        Some(size + n)
    } else {
        None
    }
}

/// Where the LEB128 number at `size` ends.
#[inline(always)]
fn number_end(run: &[u8], size: usize) -> Option<usize>
    requires { size ≤ length run.now }
    ensures found { IfSome result (λ end. position is_last (drop size run.now) ≡ Some (end - size - 1)) }
    ensures behind { IfSome result (λ end. size < end) }
    ensures room { IfSome result (λ end. end ≤ length run.now) }
{
    let last = last_at(behind(run, size))?;
    Some(size + last + 1)
}

/// The place of the first byte that ends a number.
#[inline(always)]
fn last_at(b: &[u8]) -> Option<usize>
    ensures found { result ≡ position is_last b.now }
    ensures within { IfSome result (λ i. i < length b.now) }
{
    b.iter().position(|x| *x < 128)
}

/// The first `n` bytes.
#[inline(always)]
pub(crate) fn front(b: &[u8], n: usize) -> &[u8]
    requires { n ≤ length b.now }
    ensures { result.now ≡ take n b.now }
{
    &b[..n]
}

/// The bytes behind the first `n`.
#[inline(always)]
pub(crate) fn behind(b: &[u8], n: usize) -> &[u8]
    requires { n ≤ length b.now }
    ensures { result.now ≡ drop n b.now }
{
    &b[n..]
}

/// Writes values under the pairs of their declaration. Values whose size their form tells are written
/// together, as they stand.
fn write_values<W: Write>(
    ctx: Ctx,
    pairs: &[Pair],
    heads: &[u8],
    pool: &[u8],
    writer: &mut Watched<W>,
) -> Result<(), WriteError>
    requires context { IsContext ctx }
    requires here { Here ctx (map pair_of pairs.now) heads.now pool.now }
    requires clear { fault_of writer.old ≡ None }
    ensures written { Wrote (W.contents (inner_of writer.old)) (W.contents (inner_of writer.new))
        (run_bytes ctx (map pair_of pairs.now) heads.now pool.now) result }
    ensures fault { fault_of writer.new ≡ writer_fault result }
{
    let mut left = pairs;
    let mut run = heads;
    let mut size = 0;
    while let Some((pair, others)) = left.split_first() {
        match sized_end(ctx, pair.form.value, run, size) {
            Some(end) => size = end,
            None => {
                write_all(writer, front(run, size))?;
                run = write_one(ctx, pair, behind(run, size), pool, writer)?;
                size = 0;
            }
        }
        left = others;
    }
    write_all(writer, front(run, size))
}

/// Writes the value of a pair, and gives what stands behind its head.
fn write_one<'a, W: Write>(
    ctx: Ctx,
    pair: &Pair,
    heads: &'a [u8],
    pool: &'a [u8],
    writer: &mut Watched<W>,
) -> Result<&'a [u8], WriteError>
    requires context { IsContext ctx }
    requires clear { fault_of writer.old ≡ None }
    requires first { First ctx (pair_of pair.now) heads.now pool.now }
    ensures written { Wrote (W.contents (inner_of writer.old)) (W.contents (inner_of writer.new))
        (first_bytes ctx (pair_of pair.now) heads.now pool.now) result }
    ensures rest { IfOk result (λ x. x.now ≡ behind_first ctx (pair_of pair.now) heads.now pool.now) }
    ensures fault { fault_of writer.new ≡ writer_fault result }
{
    match lend_head(ctx, pair.form.value, pair.constant, heads, pool) {
        Some((value, size)) => {
            write_value(ctx, pair.form.value, &value, writer)?;
            Ok(behind(heads, size))
        }
        None => unreachable!(),
    }
}

//! Rows that are gathered, and written together.
ghost use Rattle.std.specs.Prelude.{◌≡◌, ◌≤◌, ◌-◌, ◌∷◌, ◌++◌, length, take, drop, IsTrue, IsFalse, IfSome, map};
ghost use Rattle.dw_leb.specs.Number.{uleb};
ghost use Rattle.dw_abbrev.specs.PairView.{pair_of};
ghost use Rattle.dw_form.specs.Form.{IsContext};
ghost use Rattle.dw_form.specs.Lent.{value_of};
ghost use Rattle.dw_form.specs.Pieces.{content_of, tail_of};
ghost use Rattle.dw_tree.specs.Row.{row_bytes};
ghost use Rattle.dw_tree.specs.RowHeads.{Here, First, run_bytes, first_bytes, behind_first};
ghost use Rattle.dw_tree.specs.Flat.{code_in, token_at, RowReads};
ghost use Rattle.dw_tree.specs.Grown.{Grown};
ghost use Rattle.dw_tree.specs.ToldFronts.{ToldFront};

use crate::row::{Row, RowKind};
use crate::write::{behind, front, whole_end};
use arrayvec::ArrayVec;
use dw_abbrev::{Decl, Pair, Table};
use dw_form::{Ctx, Value, front_len, lend_head};

/// The bytes of rows, one behind the other, that are still to be written.
pub(crate) type Gathered = ArrayVec<u8, 512>;

/// The most bytes of a row that is gathered, where not each form of its values tells their size, or its code has
/// several bytes.
const MOST_SPELLED: usize = 128;

/// Puts the bytes of a row behind those that were gathered, where there is room for them. Else nothing is changed, and
/// the answer is false.
#[inline(always)]
pub(crate) fn gather(
    ctx: Ctx,
    table: &Table,
    heads: &[u8],
    pool: &[u8],
    row: Row,
    gathered: &mut Gathered,
) -> bool
    requires context { IsContext ctx }
    requires reads { RowReads ctx table.now heads.now pool.now row }
    ensures put { IsTrue result
        → gathered.new.items
        ≡ gathered.old.items ++ row_bytes ctx table.now (token_at ctx table.now heads.now pool.now row) }
    ensures same { IsFalse result → gathered.new.items ≡ gathered.old.items }
{
    match plain_row(ctx, table, heads, pool, row) {
        Some((code, run)) => put_both(code, run, gathered),
        None => put_row(ctx, table, heads, pool, row, gathered),
    }
}

/// The same of an entry of few bytes, whatever its code and its values. What was put of one that has no room is taken
/// back.
fn put_row(
    ctx: Ctx,
    table: &Table,
    heads: &[u8],
    pool: &[u8],
    row: Row,
    gathered: &mut Gathered,
) -> bool
    requires context { IsContext ctx }
    requires reads { RowReads ctx table.now heads.now pool.now row }
    ensures put { IsTrue result
        → gathered.new.items
        ≡ gathered.old.items ++ row_bytes ctx table.now (token_at ctx table.now heads.now pool.now row) }
    ensures same { IsFalse result → gathered.new.items ≡ gathered.old.items }
{
    let before = gathered.len();
    match put_entry(
        ctx,
        table,
        heads,
        pool,
        row,
        before + MOST_SPELLED,
        gathered,
    ) {
        Some(()) => true,
        None => {
            gathered.truncate(before);
            false
        }
    }
}

/// Puts an entry's code and values. None for a null, and where there is no room for all among the first `most` bytes.
#[inline(always)]
fn put_entry(
    ctx: Ctx,
    table: &Table,
    heads: &[u8],
    pool: &[u8],
    row: Row,
    most: usize,
    gathered: &mut Gathered,
) -> Option<()>
    requires context { IsContext ctx }
    requires reads { RowReads ctx table.now heads.now pool.now row }
    ensures put { IfSome result
        (λ x.
        gathered.new.items
        ≡ gathered.old.items ++ row_bytes ctx table.now (token_at ctx table.now heads.now pool.now row)) }
    ensures kept { Grown gathered.old.items gathered.new.items }
{
    if let RowKind::Null = row.kind {
        return None;
    }
    let decl = table.get(row.code)?;
    put_code(row, most, gathered)?;
    put_values(ctx, decl, behind(heads, row.first), pool, most, gathered)
}

/// Puts an entry's code. None where there is no room for it.
#[inline(always)]
fn put_code(row: Row, most: usize, gathered: &mut Gathered) -> Option<()>
    ensures put { IfSome result (λ x. gathered.new.items ≡ gathered.old.items ++ uleb.spell (code_in row)) }
    ensures kept { Grown gathered.old.items gathered.new.items }
{
    // Most codes have one byte.
    if row.width == 1 {
        return put_bytes(&[(row.code % 128) as u8], most, gathered);
    }
    put_bytes(row.code().bytes().as_slice(), most, gathered)
}

/// Puts the bytes of an entry's values behind those that were gathered. Values without content are put together, as
/// they stand. None where there is no room for all: then those that are too far behind aren't looked at.
#[inline(always)]
fn put_values(
    ctx: Ctx,
    decl: &Decl,
    heads: &[u8],
    pool: &[u8],
    most: usize,
    gathered: &mut Gathered,
) -> Option<()>
    requires context { IsContext ctx }
    requires here { Here ctx decl.now.pairs heads.now pool.now }
    ensures put { IfSome result (λ x. gathered.new.items
        ≡ gathered.old.items ++ run_bytes ctx decl.now.pairs heads.now pool.now) }
    ensures kept { Grown gathered.old.items gathered.new.items }
{
    let (told, others) = told_front(ctx, decl);
    let mut run = heads;
    let (mut size, mut left) = whole_values(ctx, others, run, told, room(most, gathered), pool);
    while let Some((pair, others)) = left.split_first() {
        put_bytes(front(run, size), most, gathered)?;
        run = put_one(ctx, pair, behind(run, size), pool, most, gathered)?;
        (size, left) = whole_values(ctx, others, run, 0, room(most, gathered), pool);
    }
    put_bytes(front(run, size), most, gathered)
}

/// Where the values without content that begin at `size` end, and the pairs of those behind them. What ends behind the
/// first `room` bytes of the run isn't looked at.
#[inline(always)]
fn whole_values<'a>(
    ctx: Ctx,
    pairs: &'a [Pair],
    run: &[u8],
    size: usize,
    room: usize,
    _pool: &[u8],
) -> (usize, &'a [Pair])
    requires context { IsContext ctx }
    requires here { Here ctx (map pair_of pairs.now) (drop size run.now) _pool.now }
    requires within { size ≤ length run.now }
    ensures joined { take size run.now ++ run_bytes ctx (map pair_of pairs.now) (drop size run.now) _pool.now
        ≡ take result.0 run.now ++ run_bytes ctx (map pair_of result.1.now) (drop result.0 run.now) _pool.now }
    ensures here { Here ctx (map pair_of result.1.now) (drop result.0 run.now) _pool.now }
    ensures within { result.0 ≤ length run.now }
    ensures fewer { length result.1.now ≤ length pairs.now }
{
    let near = front_within(run, room);
    let mut left = pairs;
    let mut end = size;
    if end > near.len() {
        return (size, pairs);
    }
    while let Some((pair, others)) = left.split_first() {
        match whole_end(ctx, pair.form.value, near, end) {
            Some(next) => end = next,
            None => return (end, left),
        }
        left = others;
    }
    (end, left)
}

/// How many bytes more there may be among the first `most`.
#[inline(always)]
fn room(most: usize, gathered: &Gathered) -> usize
    ensures { result ≡ most - length gathered.now.items }
{
    most.saturating_sub(gathered.len())
}

/// As many bytes as there are, and at most so many.
#[inline(always)]
fn front_within(b: &[u8], most: usize) -> &[u8]
    ensures front { result.now ≡ take (length result.now) b.now }
    ensures within { length result.now ≤ length b.now }
{
    &b[..b.len().min(most)]
}

/// Puts the bytes of a pair's value behind those that were gathered, and gives what stands behind its head. None where
/// there is no room for them.
#[inline(always)]
fn put_one<'a>(
    ctx: Ctx,
    pair: &Pair,
    heads: &'a [u8],
    pool: &'a [u8],
    most: usize,
    gathered: &mut Gathered,
) -> Option<&'a [u8]>
    requires context { IsContext ctx }
    requires first { First ctx (pair_of pair.now) heads.now pool.now }
    ensures put { IfSome result
        (λ x. gathered.new.items ≡ gathered.old.items ++ first_bytes ctx (pair_of pair.now) heads.now pool.now) }
    ensures rest { IfSome result (λ x. x.now ≡ behind_first ctx (pair_of pair.now) heads.now pool.now) }
    ensures kept { Grown gathered.old.items gathered.new.items }
{
    let (attr, size) = lend_head(ctx, pair.form.value, pair.constant, heads, pool)?;
    put_content(
        front(heads, front_len(&attr, size)),
        &attr.value,
        most,
        gathered,
    )?;
    Some(behind(heads, size))
}

/// Puts these bytes and those of a text or a block, with the end of a text, behind those of their row. None where there
/// is no room for them.
#[inline(always)]
fn put_content(front: &[u8], value: &Value<'_>, most: usize, gathered: &mut Gathered) -> Option<()>
    ensures put { IfSome result
        (λ x.
        gathered.new.items
        ≡ gathered.old.items ++ (front.now ++ (content_of (value_of value.now) ++ tail_of (value_of value.now)))) }
    ensures kept { Grown gathered.old.items gathered.new.items }
{
    put_bytes(front, most, gathered)?;
    match *value {
        Value::Block { bytes, .. } => put_bytes(bytes, most, gathered),
        Value::Text(bytes) => {
            put_bytes(bytes, most, gathered)?;
            put_bytes(&[0], most, gathered)
        }
        _ => Some(()),
    }
}

/// Puts bytes behind those that were gathered. None where there is no room for them among the first `most`.
#[inline(always)]
fn put_bytes(bytes: &[u8], most: usize, gathered: &mut Gathered) -> Option<()>
    ensures put { IfSome result (λ x. gathered.new.items ≡ gathered.old.items ++ bytes.now) }
    ensures kept { Grown gathered.old.items gathered.new.items }
{
    if room(most, gathered) < bytes.len() {
        return None;
    }
    gathered.try_extend_from_slice(bytes).ok()
}

/// Puts a byte and a run of bytes behind those that were gathered, where there is room for them.
#[inline(always)]
fn put_both(code: u8, run: &[u8], gathered: &mut Gathered) -> bool
    ensures put { IsTrue result → gathered.new.items ≡ gathered.old.items ++ (code ∷ run.now) }
    ensures same { IsFalse result → gathered.new.items ≡ gathered.old.items }
{
    if gathered.remaining_capacity() <= run.len() {
        return false;
    }
    gathered.push(code);
    gathered.try_extend_from_slice(run).is_ok()
}

/// The code of a row and the bytes of its values, where the code has one byte, and the forms of its values tell their
/// sizes. Of a null they are none.
#[inline(always)]
fn plain_row<'a>(
    ctx: Ctx,
    table: &Table,
    heads: &'a [u8],
    pool: &[u8],
    row: Row,
) -> Option<(u8, &'a [u8])>
    requires context { IsContext ctx }
    requires reads { RowReads ctx table.now heads.now pool.now row }
    ensures { IfSome result (λ x. row_bytes ctx table.now
        (token_at ctx table.now heads.now pool.now row) ≡ x.0 ∷ x.1.now) }
{
    if row.width != 1 {
        return None;
    }
    if let RowKind::Null = row.kind {
        return Some((0, &heads[..0]));
    }
    let decl = table.get(row.code)?;
    let run = plain_run(ctx, decl, behind(heads, row.first), pool)?;
    Some(((row.code % 128) as u8, run))
}

/// The bytes of an entry's values, where the forms of all tell their sizes: they are their heads.
#[inline(always)]
fn plain_run<'a>(ctx: Ctx, decl: &Decl, heads: &'a [u8], _pool: &[u8]) -> Option<&'a [u8]>
    requires context { IsContext ctx }
    requires here { Here ctx decl.now.pairs heads.now _pool.now }
    ensures { IfSome result (λ run. run.now ≡ run_bytes ctx decl.now.pairs heads.now _pool.now) }
{
    if decl.pairs().is_empty() {
        return Some(front(heads, 0));
    }
    let (told, others) = told_front(ctx, decl);
    if !others.is_empty() {
        return None;
    }
    Some(front(heads, told))
}

/// How many bytes the first values of each entry of this declaration have, whose forms tell their sizes (section
/// 7.5.6), and the pairs of the others.
#[inline(always)]
fn told_front(ctx: Ctx, decl: &Decl) -> (usize, &[Pair])
    ensures { ToldFront ctx decl.now.pairs result.0 (map pair_of result.1.now) }
{
    let prefix = decl.prefix();
    let size = prefix.size(ctx.address_size, ctx.format.offset_size());
    (size, &decl.pairs()[prefix.count as usize..])
}

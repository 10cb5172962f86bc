//! A number put in the place of that of an attribute (sections 2.2 and 7.5.2).
ghost use Rattle.std.specs.Prelude.{◌≡◌, ◌<◌, ◌≤◌, ◌-◌, ◌+◌, ◌^◌, ◌++◌, length, map, take, drop, option_map, IfSome};
ghost use Rattle.dw_leb.specs.View.{uleb_of};
ghost use Rattle.dw_form.specs.Form.{IsContext};
ghost use Rattle.dw_form.specs.Lent.{attribute_of};
ghost use Rattle.dw_form.specs.Pieces.{HasSpelling};
ghost use Rattle.dw_abbrev.specs.PairView.{pair_of};
ghost use Rattle.dw_tree.specs.Tree.{unit_tree};
ghost use Rattle.dw_tree.specs.RowHeads.{Here};
ghost use Rattle.dw_tree.specs.Lent.{EntryAt, entries_of};
ghost use Rattle.dw_tree.specs.Patch.{patch_in, new_head};
ghost use Rattle.dw_tree.specs.Put.{put, Takes};

use crate::attrs::form_of;
use crate::find::row_at;
use crate::tree::EntryTree;
use crate::write::behind;
use arrayvec::ArrayVec;
use dw_abbrev::Pair;
use dw_form::{AttrValue, Ctx, lend_head, renumbered, value_front};

impl EntryTree {
    /// Puts a number in the place of that of an attribute: the first one of this name, `DW_AT_..`, of the
    /// entry that begins at this offset, counted from the unit's first byte. There has to be such an
    /// attribute, and its value has to take the number (`renumbered`). The value keeps its width or size, and
    /// the form that an indirect one names; every offset and all else stay. No memory is taken.
    pub fn put_number(&mut self, offset: u64, name: u64, number: i128)
        requires { Takes (record { offset = offset; name = name; number = number }) self.old }
        ensures put { self.new ≡ put (record { offset = offset; name = name; number = number }) self.old }
        ensures fits { (unit_tree self.new.context self.new.table).Fits self.new.root }
        ensures size { length ((unit_tree self.new.context self.new.table).spell self.new.root)
            ≡ length ((unit_tree self.old.context self.old.table).spell self.old.root) }
        ensures offsets { map (λ (e : EntryAt). e.offset) (entries_of self.new)
            ≡ map (λ (e : EntryAt). e.offset) (entries_of self.old) }
    {
        let row = match row_at(&self.rows, offset) {
            Some(at) => self.rows[at],
            None => unreachable!(),
        };
        let pairs = match self.table.get(row.code) {
            Some(decl) => decl.pairs(),
            None => unreachable!(),
        };
        let heads = behind(&self.heads, row.first);
        match patch_in(self.context, pairs, heads, &self.pool, name, number) {
            Some(patch) => overwrite(
                &mut self.heads,
                row.first + patch.at,
                patch.bytes.as_slice(),
            ),
            None => unreachable!(),
        }
    }
}

/// The head of a value with another number, and where among the heads of an entry it stands.
#[derive(Drop)]
struct Patch {
    at: usize,
    bytes: ArrayVec<u8, 32>,
}

/// What becomes of the heads of an entry's values, which are at the front of `heads`, where the first one of
/// the name has this number. None where there is none of that name, or it doesn't take the number.
fn patch_in(
    ctx: Ctx,
    pairs: &[Pair],
    heads: &[u8],
    pool: &[u8],
    name: u64,
    number: i128,
) -> Option<Patch>
    requires context { IsContext ctx }
    requires here { Here ctx (map pair_of pairs.now) heads.now pool.now }
    ensures { option_map (λ q. (q.at, q.bytes.items)) result
        ≡ patch_in ctx name number (map pair_of pairs.now) heads.now pool.now }
{
    let mut left = pairs;
    let mut at = 0;
    while let Some((pair, others)) = left.split_first() {
        let form = pair.form.value;
        let (value, own) = lend_head(ctx, form, pair.constant, behind(heads, at), pool)?;
        if pair.name.value == name {
            let bytes = new_head(ctx, pair, &value, number)?;
            return Some(Patch { at, bytes });
        }
        at += own;
        left = others;
    }
    None
}

/// The head of a value with this number in the place of its own, in as many bytes.
fn new_head(ctx: Ctx, pair: &Pair, value: &AttrValue<'_>, number: i128) -> Option<ArrayVec<u8, 32>>
    requires context { IsContext ctx }
    requires spelled { HasSpelling ctx pair.now.form.value (attribute_of value.now) }
    ensures { option_map (λ b. b.items) result ≡ new_head ctx pair.now.form.value number (attribute_of value.now) }
{
    let form = form_of(pair.form, value.via);
    let new = renumbered(ctx, form, number, &value.value)?;
    let value = AttrValue {
        via: value.via,
        value: new,
    };
    Some(value_front(ctx, pair.form.value, &value))
}

/// Writes bytes over those from a place on.
fn overwrite(bytes: &mut Vec<u8>, at: usize, new: &[u8])
    requires { at + length new.now ≤ length bytes.old.items }
    ensures { bytes.new.items ≡ take at bytes.old.items ++ (new.now ++ drop (at + length new.now) bytes.old.items) }
{
    bytes[at..at + new.len()].copy_from_slice(new);
}

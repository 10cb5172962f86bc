//! The values that an entry is given by a caller.
ghost use Rattle.std.specs.Prelude.{◌≡◌, ◌<◌, ◌+◌, ◌↔◌, length, map, false, None, IsSome, IsTrue, OnOk, OnErr};
ghost use Rattle.dw_leb.specs.View.{uleb_of};
ghost use Rattle.dw_form.specs.Form.{IsContext};
ghost use Rattle.dw_form.specs.Lent.{attribute_of};
ghost use Rattle.dw_abbrev.specs.PairView.{pair_of};
ghost use Rattle.dw_abbrev.specs.Table.{declared};
ghost use Rattle.dw_tree.specs.Tree.{nesting, declared_pairs, values as value_parts};
ghost use Rattle.dw_tree.specs.Steps.{settle};
ghost use Rattle.dw_header.specs.Header.{context_of};
ghost use Rattle.dw_unit.specs.Draft.{with_place, passes_limit, IsOnlyRoot};

use crate::draft::Draft;
use dw_abbrev::Pair;
use dw_form::{AttrValue, Ctx, fits, size_of};
use dw_leb::Uleb;
use std::alloc::AllocError;

/// Whether there is one value for each pair, and it has a spelling under it (section 7.5.3).
pub(crate) fn values_fit(ctx: Ctx, pairs: &[Pair], values: &[AttrValue<'_>]) -> bool
    requires { IsContext ctx }
    ensures { IsTrue result ↔ (value_parts ctx (map pair_of pairs.now)).Fits (map attribute_of values.now) }
{
    if pairs.len() != values.len() {
        return false;
    }
    let mut at = 0;
    for pair in pairs {
        if !fits(ctx, pair.form.value, pair.constant, &values[at]) {
            return false;
        }
        at += 1;
    }
    true
}

/// Whether a code and its values have more than `room` bytes.
pub(crate) fn is_longer(
    ctx: Ctx,
    code: Uleb,
    pairs: &[Pair],
    values: &[AttrValue<'_>],
    room: u64,
) -> bool
    requires context { IsContext ctx }
    requires fits { (value_parts ctx (map pair_of pairs.now)).Fits (map attribute_of values.now) }
    ensures { IsTrue result ↔ room
        < code.width + length ((value_parts ctx (map pair_of pairs.now)).spell (map attribute_of values.now)) }
{
    let mut size = code.width as u64;
    if size > room {
        return true;
    }
    let mut at = 0;
    for pair in pairs {
        let more = size_of(ctx, pair.form.value, &values[at]);
        if more > room - size {
            return true;
        }
        size += more;
        at += 1;
    }
    false
}

/// Puts an entry of this code with its values. Where there is no memory for it, the draft is as it was.
pub(crate) fn put_entry(
    draft: &mut Draft,
    code: Uleb,
    values: &[AttrValue<'_>],
) -> Result<(), AllocError>
    requires some { 0 < code.value }
    requires known { IsSome (declared draft.old.table code.value) }
    requires free { draft.old.place.unfinished ≡ None }
    requires level { length draft.old.place.spot.above < nesting }
    requires only { IsOnlyRoot draft.old.place.spot }
    requires fits { (value_parts (context_of draft.old.header)
        (declared_pairs (declared draft.old.table code.value))).Fits (map attribute_of values.now) }
    requires short { passes_limit draft.old (code.width + length
        ((value_parts (context_of draft.old.header) (declared_pairs (declared draft.old.table code.value))).spell
        (map attribute_of values.now))) ≡ false }
    ensures ok { OnOk result
        (draft.new
        ≡ with_place (settle draft.old.table draft.old.place.spot (uleb_of code) (map attribute_of values.now))
        draft.old) }
    ensures err { OnErr result (draft.new ≡ draft.old) }
{
    draft.begin(code)?;
    for value in values {
        if let Err(e) = draft.value(value) {
            draft.undo();
            return Err(e);
        }
    }
    Ok(())
}

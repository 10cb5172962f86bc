//! Which attributes of an entry have the name of an earlier one, and which are to be looked at at all. Its declaration
//! tells that, once for all entries of its code.
ghost use Rattle.std.specs.Prelude.{◌≡◌, [], nat_eq, map, option_copied, IfOk, IsSome, None, OnOk};
ghost use Rattle.indexmap.specs.IndexMap.{get};
ghost use Rattle.dw_abbrev.specs.PairView.{pair_of};
ghost use Rattle.dw_abbrev.specs.Table.{declared};
ghost use Rattle.dw_tree.specs.Tree.{declared_pairs};
ghost use Rattle.std.specs.List.{list_any};
ghost use Rattle.dw_check.specs.Repeats.{AreRepeats, AreRepeatsFor, is_looked_at, repeats_behind, refers_within};

use crate::attribute::{names_entry, names_text};
use dw_abbrev::{Pair, Table};
use dw_leb::constants::attribute::DW_AT_SIBLING;
use dw_leb::constants::form::{
    DW_FORM_INDIRECT, DW_FORM_REF_UDATA, DW_FORM_REF1, DW_FORM_REF2, DW_FORM_REF4, DW_FORM_REF8,
};
use indexmap::{IndexMap, IndexSet};
use std::alloc::{AllocError, Global};

/// A flag for each attribute of the entries of a code, by the code: whether an earlier one has its name. Those at the
/// end that can't have findings have no flag.
pub(crate) type Repeats = IndexMap<u64, Vec<bool>>;

/// Keeps the repeats of a code of this table, of which none are kept.
pub(crate) fn keep_repeats(
    alloc: Global,
    kept: &mut Repeats,
    table: &Table,
    code: u64,
) -> Result<(), AllocError>
    requires are { AreRepeats table.now kept.old.entries }
    requires absent { get nat_eq kept.old code ≡ None }
    ensures are { AreRepeats table.now kept.new.entries }
    ensures kept { OnOk result (IsSome (get nat_eq kept.new code)) }
{
    let repeats = repeats_of(alloc, table, code)?;
    kept.insert(code, repeats)?;
    Ok(())
}

/// The repeats that are kept of a code.
#[inline(always)]
pub(crate) fn kept_repeats(kept: &Repeats, code: u64) -> Option<&Vec<bool>>
    ensures { option_copied result ≡ get nat_eq kept.now code }
{
    kept.get(&code)
}

/// The repeats of a code of this table.
fn repeats_of(alloc: Global, table: &Table, code: u64) -> Result<Vec<bool>, AllocError>
    ensures { IfOk result (λ repeats. AreRepeatsFor [] (declared_pairs (declared table.now code)) repeats.items) }
{
    match table.get(code) {
        Some(declaration) => {
            let pairs = declaration.pairs();
            let mut repeats = repeats_in(alloc, pairs)?;
            drop_plain(&mut repeats, pairs);
            Ok(repeats)
        }
        None => Ok(Vec::new(alloc)),
    }
}

/// Drops the repeats of the pairs at the end whose values have no findings: those that aren't looked at and have no
/// earlier name.
fn drop_plain(repeats: &mut Vec<bool>, pairs: &[Pair])
    requires { AreRepeatsFor [] (map pair_of pairs.now) repeats.old.items }
    ensures { AreRepeatsFor [] (map pair_of pairs.now) repeats.new.items }
{
    while let Some((repeated, others)) = repeats.split_last() {
        let left = others.len();
        let Some(pair) = pairs.get(left) else {
            return;
        };
        if *repeated || is_looked_at(pair) {
            return;
        }
        repeats.truncate(left);
    }
}

/// Whether values of a pair can have findings by themselves. What an indirect value is, only the value tells.
fn is_looked_at(pair: &Pair) -> bool
    ensures { result ≡ is_looked_at pair.now.name.value pair.now.form.value }
{
    let form = pair.form.value;
    pair.name.value == DW_AT_SIBLING
        || form == DW_FORM_INDIRECT
        || names_entry(form)
        || names_text(form)
}

/// Whether a value of a code of this table can be a reference to an entry of its unit.
pub(crate) fn refers(table: &Table, code: u64) -> bool
    ensures { result ≡ list_any (λ p. refers_within p.name.value p.form.value)
        (declared_pairs (declared table.now code)) }
{
    match table.get(code) {
        Some(declaration) => any_refers(declaration.pairs()),
        None => false,
    }
}

/// Whether a value of one of these pairs can be one.
fn any_refers(pairs: &[Pair]) -> bool
    ensures { result ≡ list_any (λ p. refers_within p.name.value p.form.value) pairs.now }
{
    pairs.iter().any(|pair| refers_within(pair))
}

/// Whether a value of a pair can be one. A sibling isn't looked up; what an indirect value is, only the value tells.
fn refers_within(pair: &Pair) -> bool
    ensures { result ≡ refers_within pair.now.name.value pair.now.form.value }
{
    pair.name.value != DW_AT_SIBLING
        && matches!(
            pair.form.value,
            DW_FORM_REF1
                | DW_FORM_REF2
                | DW_FORM_REF4
                | DW_FORM_REF8
                | DW_FORM_REF_UDATA
                | DW_FORM_INDIRECT
        )
}

/// A flag for each pair: whether an earlier one has its name.
fn repeats_in(alloc: Global, pairs: &[Pair]) -> Result<Vec<bool>, AllocError>
    ensures { IfOk result (λ repeats. repeats.items ≡ repeats_behind [] (map pair_of pairs.now)) }
{
    let mut names = IndexSet::new(alloc);
    let mut repeats = Vec::new(alloc);
    for pair in pairs {
        let is_new = names.insert(pair.name.value)?;
        repeats.push(!is_new)?;
    }
    Ok(repeats)
}

//! The lists of a section: room for one more item, and what is added in that room.
ghost use Rattle.std.specs.Prelude.{◌≡◌, ◌<◌, ◌∷◌, ◌++◌, [], ℕ, vec_len, vec_capacity, option_map, eqb, OnOk};
ghost use Rattle.std.specs.Map.{lookup};
ghost use Rattle.indexmap.specs.IndexMap.{spare};
ghost use Rattle.dw_section.specs.ItemView.{item_of};
ghost use Rattle.dw_section.specs.Reference.{type_in};
ghost use Rattle.dw_section.specs.SectionView.{id_under, id_of, first_id};

use crate::id::EntryId;
use crate::item::Item;
use dw_unit::Kind;
use indexmap::IndexMap;
use std::alloc::AllocError;

/// Room for one more item, its start, its base and its type. No list is changed.
pub(crate) fn make_room(
    items: &mut Vec<Item>,
    starts: &mut Vec<u64>,
    bases: &mut Vec<Option<u64>>,
    types: &mut IndexMap<u64, EntryId>,
) -> Result<(), AllocError>
    ensures items { items.new.items ≡ items.old.items }
    ensures starts { starts.new.items ≡ starts.old.items }
    ensures bases { bases.new.items ≡ bases.old.items }
    ensures types { types.new.entries ≡ types.old.entries }
    ensures room { OnOk result
        ((vec_len items.new < vec_capacity items.new) × (vec_len starts.new < vec_capacity starts.new)
        × (vec_len bases.new < vec_capacity bases.new) × (0 < spare types.new)) }
{
    items.reserve(1)?;
    starts.reserve(1)?;
    bases.reserve(1)?;
    types.reserve(1)
}

/// One more at the end of a list that has room for it.
pub(crate) fn add<T: Drop>(list: &mut Vec<T>, value: T)
    requires { vec_len list.old < vec_capacity list.old }
    ensures { list.new.items ≡ list.old.items ++ value ∷ [] }
{
    match list.push(value) {
        Ok(()) => (),
        Err(_) => unreachable!(),
    }
}

/// The type of an item of this number, under its signature, unless an earlier one has that signature.
pub(crate) fn keep_type(types: &mut IndexMap<u64, EntryId>, number: usize, item: &Item)
    requires { 0 < spare types.old }
    ensures { (v : ℕ)
        → lookup (eqb v) types.new.entries
        ≡ first_id (lookup (eqb v) types.old.entries) (option_map id_of (type_in v number (item_of item.now))) }
{
    if let Item::Known(unit) = item {
        if let Kind::TypeUnit {
            signature,
            type_offset,
        } = unit.header().kind()
        {
            add_type(
                types,
                signature,
                EntryId {
                    item: number,
                    offset: type_offset,
                },
            );
        }
    }
}

/// The entry of a type under its signature, unless there is one under it.
fn add_type(types: &mut IndexMap<u64, EntryId>, signature: u64, id: EntryId)
    requires { 0 < spare types.old }
    ensures { (v : ℕ)
        → lookup (eqb v) types.new.entries ≡ first_id (lookup (eqb v) types.old.entries) (id_under v signature id) }
{
    if types.contains_key(&signature) {
        return;
    }
    match types.insert(signature, id) {
        Ok(_) => (),
        Err(_) => unreachable!(),
    }
}

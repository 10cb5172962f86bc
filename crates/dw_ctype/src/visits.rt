//! Counting the visits of types that a text needs.
ghost use Rattle.std.specs.Prelude.{◌≡◌, IsSome, Some};
ghost use Rattle.dw_tree.specs.Lent.{children_of};
ghost use Rattle.dw_section.specs.Lookup.{entry as entry_there, unit_at};
ghost use Rattle.dw_ctype.specs.Parts.{visits_of};
ghost use Rattle.dw_ctype.specs.Types.{kind_of as kind_there, type_of as type_there};
ghost use Rattle.dw_ctype.specs.Visits.{less, visits, type_visits, kind_visits, parameter_visits};

use crate::kind::Kind;
use crate::parts::TypeCache;
use crate::typed::{Typed, kind_of, type_of};
use dw_leb::constants::tag::DW_TAG_FORMAL_PARAMETER;
use dw_section::{EntryId, Section};
use dw_unit::EntryRef;

/// As soon as fewer visits than these are left, all that is visited is kept. The first of a text are made again in less
/// time than it takes to keep what they need.
const KEPT_FROM: u16 = 960;

/// What is left of `left` visits behind those of the text of a type, down to `depth` levels. None where there
/// are more: it stops at the first one too many. On the way parts are kept, of what has many children and
/// then of all.
#[cycle(visits)]
pub(crate) fn count<'a>(
    section: &'a Section,
    kept: &mut TypeCache<'a>,
    typed: Typed,
    depth: u8,
    left: u16,
) -> Option<u16>
    requires { kept.old ≡ section.now }
    ensures count { result ≡ less (visits section.now.items depth typed) left }
    ensures kept { kept.new ≡ kept.old }
{
    let rest = left.checked_sub(1)?;
    if depth == 0 {
        return Some(rest);
    }
    count_type(section, kept, typed, depth - 1, rest)
}

/// The same for what a type names, whose texts are one level deeper. An entry isn't looked up where its parts are
/// found.
#[cycle(visits)]
fn count_type<'a>(
    section: &'a Section,
    kept: &mut TypeCache<'a>,
    typed: Typed,
    depth: u8,
    left: u16,
) -> Option<u16>
    requires { kept.old ≡ section.now }
    ensures count { result ≡ less (type_visits (visits section.now.items depth) section.now.items typed) left }
    ensures kept { kept.new ≡ kept.old }
{
    let Typed::Entry(id) = typed else {
        return Some(left);
    };
    if left < KEPT_FROM {
        if let Some(parts) = kept.found(id) {
            return count_each(section, kept, &parts.types, depth, left);
        }
    }
    match section.entry(id) {
        Some(entry) => count_entry(section, kept, id, &entry, depth, left),
        None => Some(left),
    }
}

/// The same for what an entry names, by its parts where they are kept.
#[cycle(visits)]
fn count_entry<'a>(
    section: &'a Section,
    kept: &mut TypeCache<'a>,
    id: EntryId,
    entry: &EntryRef<'a>,
    depth: u8,
    left: u16,
) -> Option<u16>
    requires kept { kept.old ≡ section.now }
    requires there { entry_there section.now.items id ≡ Some entry.now }
    ensures count { result
        ≡ less (kind_visits (visits section.now.items depth) section.now.items id.item entry.now (kind_there entry.now))
        left }
    ensures kept { kept.new ≡ kept.old }
{
    if let Kind::Named | Kind::Tagged(_) | Kind::Other = kind_of(entry) {
        return Some(left);
    }
    match kept.keep(id, entry, left < KEPT_FROM) {
        Some(parts) => count_each(section, kept, &parts.types, depth, left),
        None => count_kind(section, kept, id.item, entry, depth, left),
    }
}

/// The same for what an entry of this item names, by its children.
#[cycle(visits)]
fn count_kind<'a>(
    section: &'a Section,
    kept: &mut TypeCache<'a>,
    item: usize,
    entry: &EntryRef<'a>,
    depth: u8,
    left: u16,
) -> Option<u16>
    requires kept { kept.old ≡ section.now }
    requires known { IsSome (unit_at section.now.items item) }
    ensures count { result
        ≡ less (kind_visits (visits section.now.items depth) section.now.items item entry.now (kind_there entry.now))
        left }
    ensures kept { kept.new ≡ kept.old }
{
    match kind_of(entry) {
        Kind::Named | Kind::Tagged(_) | Kind::Other => Some(left),
        Kind::Marked(_) | Kind::Qualified(_) | Kind::Array => {
            let typed = type_of(section, item, entry);
            count(section, kept, typed, depth, left)
        }
        Kind::Function => {
            let typed = type_of(section, item, entry);
            let rest = count(section, kept, typed, depth, left)?;
            count_parameters(section, kept, item, entry, depth, rest)
        }
    }
}

/// The same for all of these types.
#[cycle(visits)]
fn count_each<'a>(
    section: &'a Section,
    kept: &mut TypeCache<'a>,
    types: &[Typed],
    depth: u8,
    left: u16,
) -> Option<u16>
    requires { kept.old ≡ section.now }
    ensures count { result ≡ less (visits_of (visits section.now.items depth) types.now) left }
    ensures kept { kept.new ≡ kept.old }
{
    let mut rest = left;
    for typed in types {
        rest = count(section, kept, *typed, depth, rest)?;
    }
    Some(rest)
}

/// The same for the types of all parameters of a function, an entry of this item.
#[cycle(visits)]
fn count_parameters<'a>(
    section: &'a Section,
    kept: &mut TypeCache<'a>,
    item: usize,
    function: &EntryRef<'a>,
    depth: u8,
    left: u16,
) -> Option<u16>
    requires kept { kept.old ≡ section.now }
    requires known { IsSome (unit_at section.now.items item) }
    ensures count { result ≡ less (parameter_visits (λ p. visits section.now.items depth
        (type_there section.now.items item p)) (children_of function.now)) left }
    ensures kept { kept.new ≡ kept.old }
{
    let mut rest = left;
    for child in function.children() {
        if child.tag() == DW_TAG_FORMAL_PARAMETER {
            let typed = type_of(section, item, &child);
            rest = count(section, kept, typed, depth, rest)?;
        }
    }
    Some(rest)
}

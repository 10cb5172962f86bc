//! What an entry says of its type and its name.
ghost use Rattle.std.specs.Prelude.{◌≡◌, IsSome, Some, option_map};
ghost use Rattle.dw_section.specs.Lookup.{unit_at};
ghost use Rattle.dw_strings.specs.TextView.{sections_of};
ghost use Rattle.dw_ctype.specs.Types as definition;
ghost use Rattle.dw_ctype.specs.View.{source_of};

use crate::kind::Kind;
use dw_leb::constants::attribute::{DW_AT_NAME, DW_AT_TYPE};
use dw_section::{EntryId, Section};
use dw_strings::Strings;
use dw_unit::EntryRef;

/// The most steps from a qualifier to its type.
pub(crate) const MOST_STEPS: u8 = 64;

/// What an entry's type is: what its first DW_AT_type resolves to.
#[derive(Clone, Copy, PartialEq, Eq)]
pub(crate) enum Typed {
    /// The entry has no such attribute.
    Missing,
    /// It doesn't resolve.
    Bad,
    /// It is this entry.
    Entry(EntryId),
}

/// How an entry is written.
pub(crate) fn kind_of(entry: &EntryRef<'_>) -> Kind
    ensures { result ≡ definition.kind_of entry.now }
{
    Kind::of(entry.tag())
}

/// The type of an entry of this item.
pub(crate) fn type_of(section: &Section, item: usize, entry: &EntryRef<'_>) -> Typed
    requires { IsSome (unit_at section.now.items item) }
    ensures { result ≡ definition.type_of section.now.items item entry.now }
{
    let Some(attr) = entry.attr(DW_AT_TYPE) else {
        return Typed::Missing;
    };
    let from = EntryId {
        item,
        offset: entry.offset(),
    };
    match section.resolve(from, &attr) {
        Ok(id) => Typed::Entry(id),
        Err(_) => Typed::Bad,
    }
}

/// The text of the first DW_AT_name of an entry of this item, where it can be looked up.
pub(crate) fn name_of<'a>(
    section: &'a Section,
    strings: &Strings<'a>,
    item: usize,
    entry: &EntryRef<'a>,
) -> Option<&'a [u8]>
    requires { IsSome (unit_at section.now.items item) }
    ensures { option_map (λ text. text.now) result
        ≡ definition.name_of (source_of section.now strings.now) item entry.now }
{
    let attr = entry.attr(DW_AT_NAME)?;
    let id = EntryId {
        item,
        offset: entry.offset(),
    };
    strings.text(section, id, &attr).ok()
}

/// How the first entry is written that is no qualifier, after at most `steps` steps from a qualifier to
/// its type.
pub(crate) fn under(section: &Section, item: usize, entry: &EntryRef<'_>, steps: u8) -> Option<Kind>
    requires { IsSome (unit_at section.now.items item) }
    ensures { result ≡ definition.under section.now.items steps item entry.now }
{
    let kind = kind_of(entry);
    let Kind::Qualified(_) = kind else {
        return Some(kind);
    };
    if steps == 0 {
        return None;
    }
    let Typed::Entry(id) = type_of(section, item, entry) else {
        return None;
    };
    let target = section.entry(id)?;
    under(section, id.item, &target, steps - 1)
}

/// The same for a type.
pub(crate) fn under_typed(section: &Section, typed: Typed, steps: u8) -> Option<Kind>
    ensures { result ≡ definition.under_type (definition.under section.now.items steps) section.now.items typed }
{
    let Typed::Entry(id) = typed else {
        return None;
    };
    let target = section.entry(id)?;
    under(section, id.item, &target, steps)
}

/// Whether the declarator of a type stands in brackets behind a mark: it is an array or a function, behind its
/// qualifiers.
pub(crate) fn is_bracketed(section: &Section, typed: Typed) -> bool
    ensures { result
        ≡ definition.is_bracketed
        (definition.under_type (definition.under section.now.items 64) section.now.items typed) }
{
    let Typed::Entry(id) = typed else {
        return false;
    };
    match section.entry(id) {
        Some(entry) => matches!(
            under(section, id.item, &entry, MOST_STEPS),
            Some(Kind::Array | Kind::Function)
        ),
        None => false,
    }
}

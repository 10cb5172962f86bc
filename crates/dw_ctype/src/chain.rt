//! Texts of types that are chains: marks and qualifiers one behind the other, and then a word. Nothing stands behind
//! their declarators. So each entry is looked up once, on the way to the word (a pointer behind a qualifier twice:
//! first for the place of the qualifier's word), and nothing is kept or counted.
ghost use Rattle.std.specs.Prelude.{◌≡◌, ◌++◌, ◌<◌, IfOk, IsSome, Some, codes, false};
ghost use Rattle.dw_section.specs.Lookup.{entry, unit_at};
ghost use Rattle.dw_ctype.specs.declared.typed.Typed.TheVariants.{Entry};
ghost use Rattle.dw_ctype.specs.Append.{Puts};
ghost use Rattle.dw_ctype.specs.Chain.{IsChain, IsChainFrom, Tried, end_left};
ghost use Rattle.dw_ctype.specs.InOrder as there;
ghost use Rattle.dw_ctype.specs.Types.{kind_of as kind_there, say as said, under as under_there, under_type};
ghost use Rattle.dw_ctype.specs.View.{source_of};

use crate::append::{push, push_word};
use crate::kind::{Kind, PointerKind, Qualifier};
use crate::left::{left_of_name, left_of_tagged, left_of_word};
use crate::typed::{Typed, kind_of, name_of, type_of};
use dw_section::{EntryId, Section};
use dw_strings::Strings;
use dw_unit::EntryRef;
use std::alloc::AllocError;

/// A chain is followed as long as its types' texts are so many levels deep, of 64: along at most 16 marks and
/// qualifiers.
const LEVELS_BELOW: u8 = 48;

/// Appends the text of a type and a declarator, down to `depth` levels, if the type is a chain. Else answers true, and
/// nothing was appended.
pub(crate) fn say_chain<'a>(
    section: &'a Section,
    strings: &Strings<'a>,
    typed: Typed,
    depth: u8,
    declarator: &[u8],
    out: &mut Vec<u8>,
) -> Result<bool, AllocError>
    requires { 0 < depth }
    ensures { Tried (IsChain (source_of section.now strings.now) depth typed) out.old out.new
        (said (source_of section.now strings.now) depth typed declarator.now) result }
{
    if chain(section, strings, typed, depth, declarator.is_empty(), out)? {
        return Ok(true);
    }
    push(declarator, out)?;
    Ok(false)
}

/// The same for what the text has before its declarator, since it has nothing behind it; `empty` says that the
/// declarator is empty.
#[cycle(chain)]
fn chain<'a>(
    section: &'a Section,
    strings: &Strings<'a>,
    typed: Typed,
    depth: u8,
    empty: bool,
    out: &mut Vec<u8>,
) -> Result<bool, AllocError>
    requires { 0 < depth }
    ensures { Tried (IsChain (source_of section.now strings.now) depth typed) out.old out.new
        (there.left (source_of section.now strings.now) depth typed empty) result }
{
    match typed {
        Typed::Missing => left_of_word(b"void", empty, out),
        Typed::Bad => left_of_word(b"<bad>", empty, out),
        Typed::Entry(id) => match section.entry(id) {
            Some(entry) => chain_from(section, strings, id.item, &entry, depth - 1, empty, out),
            None => left_of_word(b"<bad>", empty, out),
        },
    }
}

/// The same for an entry of this item, whose types' texts are `depth` levels deep.
#[cycle(chain)]
fn chain_from<'a>(
    section: &'a Section,
    strings: &Strings<'a>,
    item: usize,
    entry: &EntryRef<'a>,
    depth: u8,
    empty: bool,
    out: &mut Vec<u8>,
) -> Result<bool, AllocError>
    requires { IsSome (unit_at section.now.items item) }
    ensures { Tried (IsChainFrom (source_of section.now strings.now) depth item entry.now) out.old out.new
        (there.kind_left
        (there.left (source_of section.now strings.now) depth) (there.cut section.now.items depth)
        (source_of section.now strings.now) item entry.now (kind_there entry.now) empty) result }
{
    match kind_of(entry) {
        Kind::Marked(mark) => {
            let typed = type_of(section, item, entry);
            chain_and_word(section, strings, typed, depth, mark.text(), true, out)
        }
        Kind::Qualified(qualifier) => {
            let typed = type_of(section, item, entry);
            qualified_chain(section, strings, typed, depth, qualifier, empty, out)
        }
        Kind::Array | Kind::Function => Ok(true),
        Kind::Named | Kind::Tagged(_) | Kind::Other => {
            last_word(section, strings, item, entry, empty, out)
        }
    }
}

/// The same for a mark or a qualifier behind this type: a word, and where the declarator behind it isn't empty a space.
#[cycle(chain)]
fn chain_and_word<'a>(
    section: &'a Section,
    strings: &Strings<'a>,
    typed: Typed,
    depth: u8,
    word: &[u8],
    empty: bool,
    out: &mut Vec<u8>,
) -> Result<bool, AllocError>
    ensures { Tried (IsChain (source_of section.now strings.now) depth typed) out.old out.new (
        there.left (source_of section.now strings.now) depth typed false ++ there.word_before word.now empty) result }
{
    if depth < LEVELS_BELOW {
        return Ok(true);
    }
    if chain(section, strings, typed, depth, false, out)? {
        return Ok(true);
    }
    push_word(word, empty, out)?;
    Ok(false)
}

/// The same for a qualifier of this type.
#[cycle(chain)]
fn qualified_chain<'a>(
    section: &'a Section,
    strings: &Strings<'a>,
    typed: Typed,
    depth: u8,
    qualifier: Qualifier,
    empty: bool,
    out: &mut Vec<u8>,
) -> Result<bool, AllocError>
    ensures { Tried (IsChain (source_of section.now strings.now) depth typed) out.old out.new (there.qualified_left
        (there.left (source_of section.now strings.now) depth) (there.cut section.now.items depth typed)
        typed qualifier (under_type (under_there section.now.items 63) section.now.items typed) empty) result }
{
    if depth < LEVELS_BELOW {
        return Ok(true);
    }
    match typed {
        Typed::Missing => two_words(qualifier.text(), b"void", empty, out),
        Typed::Bad => two_words(qualifier.text(), b"<bad>", empty, out),
        Typed::Entry(id) => match section.entry(id) {
            Some(target) => {
                qualified_entry(section, strings, id, &target, depth, qualifier, empty, out)
            }
            None => two_words(qualifier.text(), b"<bad>", empty, out),
        },
    }
}

/// The same for a qualifier of this entry. A qualifier of a qualifier is rare, and no chain here: the word of the first
/// one would be appended before it is known whether the others are of a chain.
#[cycle(chain)]
fn qualified_entry<'a>(
    section: &'a Section,
    strings: &Strings<'a>,
    id: EntryId,
    target: &EntryRef<'a>,
    depth: u8,
    qualifier: Qualifier,
    empty: bool,
    out: &mut Vec<u8>,
) -> Result<bool, AllocError>
    requires deep { 0 < depth }
    requires there { entry section.now.items id ≡ Some target.now }
    ensures { Tried (IsChain (source_of section.now strings.now) depth (Entry id)) out.old out.new (there.qualified_left
        (there.left (source_of section.now strings.now) depth) (there.cut section.now.items depth (Entry id))
        (Entry id) qualifier (under_there section.now.items 63 id.item target.now) empty) result }
{
    match kind_of(target) {
        Kind::Named | Kind::Tagged(_) | Kind::Other => word_and_last(
            section,
            strings,
            id.item,
            target,
            qualifier.text(),
            empty,
            out,
        ),
        Kind::Marked(PointerKind::Pointer) => {
            let typed = Typed::Entry(id);
            chain_and_word(section, strings, typed, depth, qualifier.text(), empty, out)
        }
        _ => Ok(true),
    }
}

/// Appends a word, a space, and what the text of an entry that goes on to no type has before its declarator.
fn word_and_last<'a>(
    section: &'a Section,
    strings: &Strings<'a>,
    item: usize,
    entry: &EntryRef<'a>,
    word: &[u8],
    empty: bool,
    out: &mut Vec<u8>,
) -> Result<bool, AllocError>
    requires { IsSome (unit_at section.now.items item) }
    ensures text { Puts out.old out.new
        (word.now
        ++ (codes " " ++ end_left (source_of section.now strings.now) item entry.now (kind_there entry.now) empty))
        result }
    ensures whole { IfOk result (λ other. other ≡ false) }
{
    push(word, out)?;
    push(b" ", out)?;
    last_word(section, strings, item, entry, empty, out)
}

/// Appends what the text of an entry of this item that goes on to no type has before its declarator.
pub(crate) fn last_word<'a>(
    section: &'a Section,
    strings: &Strings<'a>,
    item: usize,
    entry: &EntryRef<'a>,
    empty: bool,
    out: &mut Vec<u8>,
) -> Result<bool, AllocError>
    requires { IsSome (unit_at section.now.items item) }
    ensures text { Puts out.old out.new (end_left (source_of section.now strings.now) item entry.now
        (kind_there entry.now) empty)
        result }
    ensures whole { IfOk result (λ other. other ≡ false) }
{
    match kind_of(entry) {
        Kind::Named => left_of_name(name_of(section, strings, item, entry), empty, out),
        Kind::Tagged(keyword) => {
            left_of_tagged(keyword, name_of(section, strings, item, entry), empty, out)
        }
        _ => left_of_word(b"<tag>", empty, out),
    }
}

/// Appends two words with a space between them.
fn two_words(
    first: &[u8],
    second: &[u8],
    empty: bool,
    out: &mut Vec<u8>,
) -> Result<bool, AllocError>
    ensures text { Puts out.old out.new (first.now ++ (codes " " ++ there.word_before second.now empty)) result }
    ensures whole { IfOk result (λ other. other ≡ false) }
{
    push(first, out)?;
    push(b" ", out)?;
    left_of_word(second, empty, out)
}

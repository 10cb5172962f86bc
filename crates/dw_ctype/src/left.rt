//! What the text of a type has before its declarator.
ghost use Rattle.std.specs.Prelude.{◌≡◌, ◌++◌, ℕ, List, Vec, IfOk, IsSome, true, false, codes, option_map, unwrap_or};
ghost use Rattle.std.specs.declared.alloc.Global.{Global};
ghost use Rattle.dw_section.specs.Lookup.{unit_at};
ghost use Rattle.dw_ctype.specs.Append.{Puts};
ghost use Rattle.dw_ctype.specs.Chain.{IsChain, IsChainFrom};
ghost use Rattle.dw_ctype.specs.InOrder as there;
ghost use Rattle.dw_ctype.specs.Names as names;
ghost use Rattle.dw_ctype.specs.Types.{is_bracketed as bracketed_there, kind_of as kind_there, under as under_there, under_type};
ghost use Rattle.dw_ctype.specs.View.{source_of};

use crate::append::{push, push_if, push_word};
use crate::chain::last_word;
use crate::kind::{Keyword, Kind, PointerKind, Qualifier};
use crate::typed::{MOST_STEPS, Typed, is_bracketed, kind_of, type_of, under_typed};
use dw_section::Section;
use dw_strings::Strings;
use dw_unit::EntryRef;
use std::alloc::AllocError;

/// What is known of a type once the text before its declarator is appended.
#[derive(Clone, Copy)]
pub(crate) struct Before {
    /// Whether the depth ended the text, so that no declarator is shown.
    pub(crate) cut: bool,
    /// Whether the type was seen to be a chain: nothing stands behind its declarator then, and no brackets around it.
    pub(crate) chain: bool,
}

/// Appends what the text of a type has before its declarator, down to `depth` levels; `empty` says that the
/// declarator is empty.
#[cycle(left)]
pub(crate) fn left<'a>(
    section: &'a Section,
    strings: &Strings<'a>,
    typed: Typed,
    depth: u8,
    empty: bool,
    out: &mut Vec<u8>,
) -> Result<Before, AllocError>
    ensures text { Puts out.old out.new (there.left (source_of section.now strings.now) depth typed empty) result }
    ensures cut { IfOk result (λ before. before.cut ≡ there.cut section.now.items depth typed) }
    ensures chain { IfOk result (λ before. before.chain ≡ true
        → IsChain (source_of section.now strings.now) depth typed) }
{
    if depth == 0 {
        push(b"...", out)?;
        return Ok(Before {
            cut: true,
            chain: false,
        });
    }
    match typed {
        Typed::Missing => whole(left_of_word(b"void", empty, out)),
        Typed::Bad => whole(left_of_word(b"<bad>", empty, out)),
        Typed::Entry(id) => match section.entry(id) {
            Some(entry) => left_of_entry(section, strings, id.item, &entry, depth - 1, empty, out),
            None => whole(left_of_word(b"<bad>", empty, out)),
        },
    }
}

/// The same for an entry of this item, whose types' texts are `depth` levels deep.
#[cycle(left)]
fn left_of_entry<'a>(
    section: &'a Section,
    strings: &Strings<'a>,
    item: usize,
    entry: &EntryRef<'a>,
    depth: u8,
    empty: bool,
    out: &mut Vec<u8>,
) -> Result<Before, AllocError>
    requires { IsSome (unit_at section.now.items item) }
    ensures text { Puts out.old out.new (there.kind_left
        (there.left (source_of section.now strings.now) depth) (there.cut section.now.items depth)
        (source_of section.now strings.now) item entry.now (kind_there entry.now) empty) result }
    ensures cut { IfOk result (λ before. before.cut ≡ there.kind_cut (there.cut section.now.items depth)
        section.now.items item entry.now (kind_there entry.now)) }
    ensures chain { IfOk result
        (λ before. before.chain ≡ true → IsChainFrom (source_of section.now strings.now) depth item entry.now) }
{
    match kind_of(entry) {
        Kind::Marked(mark) => {
            let typed = type_of(section, item, entry);
            left_of_marked(section, strings, typed, depth, mark, out)
        }
        Kind::Qualified(qualifier) => {
            let typed = type_of(section, item, entry);
            left_of_qualified(section, strings, typed, depth, qualifier, empty, out)
        }
        Kind::Array | Kind::Function => {
            let typed = type_of(section, item, entry);
            left_of_inner(section, strings, typed, depth, out)
        }
        Kind::Named | Kind::Tagged(_) | Kind::Other => {
            whole(last_word(section, strings, item, entry, empty, out))
        }
    }
}

/// The same for an array or a function of this type, which is no chain.
#[cycle(left)]
fn left_of_inner<'a>(
    section: &'a Section,
    strings: &Strings<'a>,
    typed: Typed,
    depth: u8,
    out: &mut Vec<u8>,
) -> Result<Before, AllocError>
    ensures text { Puts out.old out.new (there.left (source_of section.now strings.now) depth typed false) result }
    ensures cut { IfOk result (λ before. before.cut ≡ there.cut section.now.items depth typed) }
    ensures chain { IfOk result (λ before. before.chain ≡ false) }
{
    let inner = left(section, strings, typed, depth, false, out)?;
    Ok(Before {
        cut: inner.cut,
        chain: false,
    })
}

/// The same for a pointer or a reference to this type.
#[cycle(left)]
fn left_of_marked<'a>(
    section: &'a Section,
    strings: &Strings<'a>,
    typed: Typed,
    depth: u8,
    mark: PointerKind,
    out: &mut Vec<u8>,
) -> Result<Before, AllocError>
    ensures text { Puts out.old out.new (there.left (source_of section.now strings.now) depth typed false ++
        there.unless_cut (there.cut section.now.items depth typed) (there.when
        (bracketed_there (under_type (under_there section.now.items 64) section.now.items typed)) (codes "(") ++
        names.mark mark)) result }
    ensures cut { IfOk result (λ before. before.cut ≡ there.cut section.now.items depth typed) }
    ensures chain { IfOk result (λ before. before.chain ≡ true
        → IsChain (source_of section.now strings.now) depth typed) }
{
    let before = left(section, strings, typed, depth, false, out)?;
    if before.cut {
        return Ok(before);
    }
    push_if(has_brackets(section, typed, before), b"(", out)?;
    push(mark.text(), out)?;
    Ok(before)
}

/// Whether the declarator of a type of which this is known stands in brackets behind a mark. That of a chain doesn't.
fn has_brackets(section: &Section, typed: Typed, before: Before) -> bool
    requires { before.chain ≡ true
        → bracketed_there (under_type (under_there section.now.items 64) section.now.items typed) ≡ false }
    ensures { result ≡ bracketed_there (under_type (under_there section.now.items 64) section.now.items typed) }
{
    if before.chain {
        return false;
    }
    is_bracketed(section, typed)
}

/// The same for a qualifier of this type: the one of a pointer stands behind what the type has before the declarator.
#[cycle(left)]
fn left_of_qualified<'a>(
    section: &'a Section,
    strings: &Strings<'a>,
    typed: Typed,
    depth: u8,
    qualifier: Qualifier,
    empty: bool,
    out: &mut Vec<u8>,
) -> Result<Before, AllocError>
    ensures text { Puts out.old out.new (there.qualified_left
        (there.left (source_of section.now strings.now) depth) (there.cut section.now.items depth typed)
        typed qualifier (under_type (under_there section.now.items 63) section.now.items typed) empty) result }
    ensures cut { IfOk result (λ before. before.cut ≡ there.cut section.now.items depth typed) }
    ensures chain { IfOk result (λ before. before.chain ≡ true
        → IsChain (source_of section.now strings.now) depth typed) }
{
    match under_typed(section, typed, MOST_STEPS - 1) {
        Some(Kind::Marked(PointerKind::Pointer)) => {
            left_and_word(section, strings, typed, depth, qualifier.text(), empty, out)
        }
        _ => word_and_left(section, strings, typed, depth, qualifier.text(), empty, out),
    }
}

/// The same for a qualified pointer: a word behind what a type has before a declarator that isn't empty.
#[cycle(left)]
fn left_and_word<'a>(
    section: &'a Section,
    strings: &Strings<'a>,
    typed: Typed,
    depth: u8,
    word: &[u8],
    empty: bool,
    out: &mut Vec<u8>,
) -> Result<Before, AllocError>
    ensures text { Puts out.old out.new (
        there.left (source_of section.now strings.now) depth typed false
        ++ there.unless_cut (there.cut section.now.items depth typed) (there.word_before word.now empty)) result }
    ensures cut { IfOk result (λ before. before.cut ≡ there.cut section.now.items depth typed) }
    ensures chain { IfOk result (λ before. before.chain ≡ true
        → IsChain (source_of section.now strings.now) depth typed) }
{
    let before = left(section, strings, typed, depth, false, out)?;
    if before.cut {
        return Ok(before);
    }
    push_word(word, empty, out)?;
    Ok(before)
}

/// The same for any other qualified type: a word, a space, and what the type has before the declarator.
#[cycle(left)]
fn word_and_left<'a>(
    section: &'a Section,
    strings: &Strings<'a>,
    typed: Typed,
    depth: u8,
    word: &[u8],
    empty: bool,
    out: &mut Vec<u8>,
) -> Result<Before, AllocError>
    ensures text { Puts out.old out.new (
        word.now ++ (codes " " ++ there.left (source_of section.now strings.now) depth typed empty)) result }
    ensures cut { IfOk result (λ before. before.cut ≡ there.cut section.now.items depth typed) }
    ensures chain { IfOk result (λ before. before.chain ≡ true
        → IsChain (source_of section.now strings.now) depth typed) }
{
    push(word, out)?;
    push(b" ", out)?;
    left(section, strings, typed, depth, empty, out)
}

/// What is known of a type whose text is a word: it is a chain.
fn whole(words: Result<bool, AllocError>) -> Result<Before, AllocError>
    ensures text { (old new : Vec ℕ Global) (text : List ℕ) → Puts old new text words → Puts old new text result }
    ensures whole { IfOk result (λ before. before ≡ record { cut = false; chain = true }) }
{
    match words {
        Ok(_) => Ok(Before {
            cut: false,
            chain: true,
        }),
        Err(error) => Err(error),
    }
}

/// Appends what the text of a type that is written as this word has before its declarator. Answers false: the depth
/// doesn't end it.
pub(crate) fn left_of_word(word: &[u8], empty: bool, out: &mut Vec<u8>) -> Result<bool, AllocError>
    ensures text { Puts out.old out.new (there.word_before word.now empty) result }
    ensures cut { IfOk result (λ cut. cut ≡ false) }
{
    push_word(word, empty, out)?;
    Ok(false)
}

/// The same for a type that is written by its name.
pub(crate) fn left_of_name(
    name: Option<&[u8]>,
    empty: bool,
    out: &mut Vec<u8>,
) -> Result<bool, AllocError>
    ensures text { Puts out.old out.new
        (there.word_before (unwrap_or (option_map (λ text. text.now) name.entry) (codes "<noname>")) empty) result }
    ensures cut { IfOk result (λ cut. cut ≡ false) }
{
    match name {
        Some(text) => left_of_word(text, empty, out),
        None => left_of_word(b"<noname>", empty, out),
    }
}

/// The same for a type that is written by a keyword and its name.
pub(crate) fn left_of_tagged(
    keyword: Keyword,
    name: Option<&[u8]>,
    empty: bool,
    out: &mut Vec<u8>,
) -> Result<bool, AllocError>
    ensures text { Puts out.old out.new
        (there.word_before
        (names.keyword keyword ++ unwrap_or (option_map (λ text. text.now) name.entry) (codes "{...}")) empty)
        result }
    ensures cut { IfOk result (λ cut. cut ≡ false) }
{
    push(keyword.text(), out)?;
    match name {
        Some(text) => left_of_word(text, empty, out),
        None => left_of_word(b"{...}", empty, out),
    }
}

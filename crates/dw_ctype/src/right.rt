//! What the text of a type has behind its declarator, and the whole text.
ghost use Rattle.std.specs.Prelude.{◌≡◌, ◌||◌, [], IfOk, IsSome, Some};
ghost use Rattle.dw_tree.specs.Lent.{children_of};
ghost use Rattle.dw_section.specs.Lookup.{entry as entry_there, unit_at};
ghost use Rattle.dw_ctype.specs.declared.kind.Kind.TheVariants.{Function};
ghost use Rattle.dw_ctype.specs.Append.{Puts};
ghost use Rattle.dw_ctype.specs.InOrder as there;
ghost use Rattle.dw_ctype.specs.Types as definition;
ghost use Rattle.dw_ctype.specs.View.{source_of};

use crate::append::{push, push_if};
use crate::dimension::push_dimensions;
use crate::kind::Kind;
use crate::left::left;
use crate::parts::TypeCache;
use crate::typed::{Typed, is_bracketed, kind_of, type_of};
use dw_form::Value;
use dw_leb::constants::attribute::DW_AT_PROTOTYPED;
use dw_leb::constants::tag::{DW_TAG_FORMAL_PARAMETER, DW_TAG_UNSPECIFIED_PARAMETERS};
use dw_section::{EntryId, Section};
use dw_strings::Strings;
use dw_unit::EntryRef;
use std::alloc::AllocError;

/// Appends the text of a type and a declarator, down to `depth` levels. Most types are chains, behind whose declarators
/// nothing stands: so they aren't walked once more for it.
#[cycle(say)]
pub(crate) fn say<'a>(
    section: &'a Section,
    strings: &Strings<'a>,
    kept: &TypeCache<'a>,
    typed: Typed,
    depth: u8,
    declarator: &[u8],
    out: &mut Vec<u8>,
) -> Result<(), AllocError>
    requires { kept.now ≡ section.now }
    ensures { Puts out.old out.new (definition.say (source_of section.now strings.now) depth typed
        declarator.now) result }
{
    let before = left(section, strings, typed, depth, declarator.is_empty(), out)?;
    if before.cut {
        return Ok(());
    }
    push(declarator, out)?;
    if before.chain {
        return Ok(());
    }
    right(section, strings, kept, typed, depth, out)
}

/// Appends what the text of a type has behind its declarator, down to `depth` levels.
#[cycle(say)]
fn right<'a>(
    section: &'a Section,
    strings: &Strings<'a>,
    kept: &TypeCache<'a>,
    typed: Typed,
    depth: u8,
    out: &mut Vec<u8>,
) -> Result<(), AllocError>
    requires { kept.now ≡ section.now }
    ensures { Puts out.old out.new (there.right (source_of section.now strings.now) depth typed) result }
{
    if depth == 0 {
        return Ok(());
    }
    let Typed::Entry(id) = typed else {
        return Ok(());
    };
    match section.entry(id) {
        Some(entry) => right_of_entry(section, strings, kept, id, &entry, depth - 1, out),
        None => Ok(()),
    }
}

/// The same for an entry, whose types' texts are `depth` levels deep.
#[cycle(say)]
fn right_of_entry<'a>(
    section: &'a Section,
    strings: &Strings<'a>,
    kept: &TypeCache<'a>,
    id: EntryId,
    entry: &EntryRef<'a>,
    depth: u8,
    out: &mut Vec<u8>,
) -> Result<(), AllocError>
    requires kept { kept.now ≡ section.now }
    requires there { entry_there section.now.items id ≡ Some entry.now }
    ensures { Puts out.old out.new (there.kind_right
        (there.right (source_of section.now strings.now) depth)
        (definition.say (source_of section.now strings.now) depth)
        (source_of section.now strings.now) id.item entry.now (definition.kind_of entry.now)) result }
{
    let kind = kind_of(entry);
    if let Kind::Named | Kind::Tagged(_) | Kind::Other = kind {
        return Ok(());
    }
    let typed = type_of(section, id.item, entry);
    match kind {
        Kind::Marked(_) => push_if(is_bracketed(section, typed), b")", out)?,
        Kind::Array => push_dimensions(kept, id, entry, out)?,
        Kind::Function => push_parameters(section, strings, kept, id, entry, depth, out)?,
        _ => {}
    }
    right(section, strings, kept, typed, depth, out)
}

/// Appends the parameters of a function between round brackets.
#[cycle(say)]
fn push_parameters<'a>(
    section: &'a Section,
    strings: &Strings<'a>,
    kept: &TypeCache<'a>,
    id: EntryId,
    function: &EntryRef<'a>,
    depth: u8,
    out: &mut Vec<u8>,
) -> Result<(), AllocError>
    requires kept { kept.now ≡ section.now }
    requires there { entry_there section.now.items id ≡ Some function.now }
    requires kind { definition.kind_of function.now ≡ Function }
    ensures { Puts out.old out.new (definition.parameters
        (λ p. definition.say (source_of section.now strings.now) depth (definition.type_of section.now.items id.item p)
        [])
        function.now) result }
{
    push(b"(", out)?;
    push_each_parameter(section, strings, kept, id, function, depth, out)?;
    push(b")", out)
}

/// Appends the parameters of a function one after the other, or what stands for none, by the function's parts where
/// they are kept.
#[cycle(say)]
fn push_each_parameter<'a>(
    section: &'a Section,
    strings: &Strings<'a>,
    kept: &TypeCache<'a>,
    id: EntryId,
    function: &EntryRef<'a>,
    depth: u8,
    out: &mut Vec<u8>,
) -> Result<(), AllocError>
    requires kept { kept.now ≡ section.now }
    requires there { entry_there section.now.items id ≡ Some function.now }
    requires kind { definition.kind_of function.now ≡ Function }
    ensures { Puts out.old out.new (definition.joined (definition.is_prototyped (definition.first 0x27 function.now))
        (definition.parameter_texts (λ p. definition.say (source_of section.now strings.now) depth
        (definition.type_of section.now.items id.item p) []) (children_of function.now))) result }
{
    let prototyped = is_prototyped(function);
    match kept.parts(id) {
        Some(parts) => push_parameters_of(
            section,
            strings,
            kept,
            id.item,
            &parts.shown,
            prototyped,
            depth,
            out,
        ),
        None => push_parameters_among(
            section, strings, kept, id.item, function, prototyped, depth, out,
        ),
    }
}

/// Appends the parameters that are among these entries of an item, or what stands for none in a function that is
/// prototyped or not.
#[cycle(say)]
fn push_parameters_of<'a>(
    section: &'a Section,
    strings: &Strings<'a>,
    kept: &TypeCache<'a>,
    item: usize,
    shown: &[EntryRef<'a>],
    prototyped: bool,
    depth: u8,
    out: &mut Vec<u8>,
) -> Result<(), AllocError>
    requires kept { kept.now ≡ section.now }
    requires known { IsSome (unit_at section.now.items item) }
    ensures { Puts out.old out.new (definition.joined prototyped
        (definition.parameter_texts
        (λ p. definition.say (source_of section.now strings.now) depth (definition.type_of section.now.items item p) [])
        shown.now)) result }
{
    let mut some = false;
    for entry in shown {
        some = push_parameter(section, strings, kept, item, entry, depth, some, out)?;
    }
    push_unless(some, prototyped, out)
}

/// The same for the children of a function.
#[cycle(say)]
fn push_parameters_among<'a>(
    section: &'a Section,
    strings: &Strings<'a>,
    kept: &TypeCache<'a>,
    item: usize,
    function: &EntryRef<'a>,
    prototyped: bool,
    depth: u8,
    out: &mut Vec<u8>,
) -> Result<(), AllocError>
    requires kept { kept.now ≡ section.now }
    requires known { IsSome (unit_at section.now.items item) }
    ensures { Puts out.old out.new (definition.joined prototyped
        (definition.parameter_texts
        (λ p. definition.say (source_of section.now strings.now) depth (definition.type_of section.now.items item p) [])
        (children_of function.now))) result }
{
    let mut some = false;
    for child in function.children() {
        some = push_parameter(section, strings, kept, item, &child, depth, some, out)?;
    }
    push_unless(some, prototyped, out)
}

/// Appends the parameter that a child of a function is, if it is one, where `some` says that there were others
/// before it. Answers whether there are some now.
#[cycle(say)]
fn push_parameter<'a>(
    section: &'a Section,
    strings: &Strings<'a>,
    kept: &TypeCache<'a>,
    item: usize,
    child: &EntryRef<'a>,
    depth: u8,
    some: bool,
    out: &mut Vec<u8>,
) -> Result<bool, AllocError>
    requires kept { kept.now ≡ section.now }
    requires known { IsSome (unit_at section.now.items item) }
    ensures text { Puts out.old out.new (there.parameter_text
        (λ p. definition.say (source_of section.now strings.now) depth (definition.type_of section.now.items item p) [])
        some child.now) result }
    ensures some { IfOk result (λ now. now ≡ (some || there.is_parameter child.now)) }
{
    match child.tag() {
        DW_TAG_FORMAL_PARAMETER => {
            push_if(some, b", ", out)?;
            let typed = type_of(section, item, child);
            say(section, strings, kept, typed, depth, b"", out)?;
            Ok(true)
        }
        DW_TAG_UNSPECIFIED_PARAMETERS => {
            push_if(some, b", ", out)?;
            push(b"...", out)?;
            Ok(true)
        }
        _ => Ok(some),
    }
}

/// Appends what stands for no parameters of a function that is prototyped or not, unless there are some.
fn push_unless(some: bool, prototyped: bool, out: &mut Vec<u8>) -> Result<(), AllocError>
    ensures { Puts out.old out.new (there.to_come prototyped some []) result }
{
    push_if(!some && prototyped, b"void", out)
}

/// Whether a function is prototyped: its first DW_AT_prototyped has a value other than a fixed 0.
fn is_prototyped(function: &EntryRef<'_>) -> bool
    ensures { result ≡ definition.is_prototyped (definition.first 0x27 function.now) }
{
    match function.attr(DW_AT_PROTOTYPED) {
        Some(attr) => !matches!(attr.attr.value, Value::Num(0)),
        None => false,
    }
}

//! The text of an entry's type.
ghost use Rattle.std.specs.Prelude.{◌≡◌, ◌++◌, List, ℕ, Ok, IfErr, IsSome, OnErr, OnOk, ◌-◌};
ghost use Rattle.dw_section.specs.Lookup.{unit_at};
ghost use Rattle.std.specs.Vec.{vec_len, vec_capacity};
ghost use Rattle.dw_ctype.specs.Answer.{answer, answer_by, IsRefusal};
ghost use Rattle.dw_ctype.specs.Append.{Puts};
ghost use Rattle.dw_ctype.specs.Types as definition;
ghost use Rattle.dw_ctype.specs.View.{source_of};

use crate::chain::say_chain;
use crate::fault::TypeError;
use crate::parts::TypeCache;
use crate::right::say;
use crate::trimmed::trimmed;
use crate::typed::{Typed, type_of};
use crate::visits::count;
use dw_leb::constants::tag::{DW_TAG_FORMAL_PARAMETER, DW_TAG_MEMBER, DW_TAG_VARIABLE};
use dw_section::{EntryId, Section};
use dw_strings::Strings;
use dw_unit::EntryRef;
use std::alloc::{AllocError, Global};

/// The most levels of a text: deeper down it is `...`.
const MOST_LEVELS: u8 = 64;

/// The most visits of types that a text may need.
const MOST_VISITS: u16 = 1024;

/// Appends the text of a type with a name, as a declaration would be written in C: of the type of a variable, a formal
/// parameter or a member, and else of the entry itself. `strings` are the texts that names are in. The vector grows by
/// its own allocator. While the text is made, `alloc` keeps what is needed of entries with more than 32 children, and
/// from the 65th visit on of all, so that later visits needn't look for it; where it has no memory the answer is the
/// same.
///
/// Errors: `NoEntry` exactly where no entry begins at the id; `TypeTooBig` exactly where there is one, and its
/// text needs more than 1,024 visits of types (it is refused before anything is appended); `NoMemory` only
/// where there is a text, and the vector has no room for it and isn't given more. After an error the vector
/// has the bytes that it had.
pub fn type_text<'a>(
    alloc: Global,
    section: &'a Section,
    strings: &Strings<'a>,
    id: EntryId,
    name: &[u8],
    out: &mut Vec<u8>,
) -> Result<(), TypeError>
    ensures appended { OnOk result ((text : List ℕ) ×
        ((answer (source_of section.now strings.now) id name.now ≡ Ok text)
        × (out.new.items ≡ out.old.items ++ text))) }
    ensures refused { IfErr result (IsRefusal
        (answer (source_of section.now strings.now) id name.now)
        (vec_capacity out.old - vec_len out.old)) }
    ensures unchanged { OnErr result (out.new.items ≡ out.old.items) }
{
    let Some(entry) = section.entry(id) else {
        return Err(TypeError::NoEntry);
    };
    let typed = subject(section, id, &entry);
    let start = out.len();
    match say_chain(section, strings, typed, MOST_LEVELS, name, out) {
        Ok(false) => Ok(()),
        Ok(true) => say_counted(alloc, section, strings, typed, name, out),
        Err(_) => {
            out.truncate(start);
            Err(TypeError::NoMemory)
        }
    }
}

/// Appends the text of a type with a name, whose visits are counted first.
///
/// Errors: those of `type_text`, but for `NoEntry`.
fn say_counted<'a>(
    alloc: Global,
    section: &'a Section,
    strings: &Strings<'a>,
    typed: Typed,
    name: &[u8],
    out: &mut Vec<u8>,
) -> Result<(), TypeError>
    ensures appended { OnOk result ((text : List ℕ) ×
        ((answer_by (source_of section.now strings.now) typed name.now ≡ Ok text)
        × (out.new.items ≡ out.old.items ++ text))) }
    ensures refused { IfErr result (IsRefusal
        (answer_by (source_of section.now strings.now) typed name.now)
        (vec_capacity out.old - vec_len out.old)) }
    ensures unchanged { OnErr result (out.new.items ≡ out.old.items) }
{
    let start = out.len();
    let mut kept = TypeCache::nothing(alloc, section);
    if count(section, &mut kept, typed, MOST_LEVELS, MOST_VISITS).is_none() {
        return Err(TypeError::TypeTooBig);
    }
    if append(section, strings, &kept, typed, name, out).is_err() {
        out.truncate(start);
        return Err(TypeError::NoMemory);
    }
    Ok(())
}

/// Appends the text of a type with a name. Names are looked up in the sections up to their last zero bytes: a name
/// without an end isn't looked for to the end of its section, as often as there are visits.
fn append<'a>(
    section: &'a Section,
    strings: &Strings<'a>,
    kept: &TypeCache<'a>,
    typed: Typed,
    name: &[u8],
    out: &mut Vec<u8>,
) -> Result<(), AllocError>
    requires { kept.now ≡ section.now }
    ensures { Puts out.old out.new (definition.say (source_of section.now strings.now) 64 typed name.now) result }
{
    let texts = trimmed(strings);
    say(section, &texts, kept, typed, MOST_LEVELS, name, out)
}

/// The type of which the text of an entry is.
fn subject(section: &Section, id: EntryId, entry: &EntryRef<'_>) -> Typed
    requires { IsSome (unit_at section.now.items id.item) }
    ensures { result ≡ definition.subject section.now.items id entry.now }
{
    match entry.tag() {
        DW_TAG_VARIABLE | DW_TAG_FORMAL_PARAMETER | DW_TAG_MEMBER => type_of(
            section, id.item, entry,
        ),
        _ => Typed::Entry(id),
    }
}

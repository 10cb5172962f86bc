//! What a caller of `type_text` gets beside the text: it is appended, with the name that the caller gives, and where
//! there is none, nothing is.
use crate::common::{FIFTEEN, TWO_TABLES, takes};
use dw_ctype::{TypeError, type_text};
use dw_leb::Order;
use dw_section::{EntryId, Section};
use dw_strings::Strings;
use std::alloc::Global;
use std::process::Abort;
use std::test::Fail;

const NO_TEXTS: Strings<'static> = Strings {
    str: &[],
    line_str: &[],
    str_offsets: &[],
};

/// What stands behind "before " once the type of an entry of the first item is asked for with the name "x".
fn appended(
    alloc: Global,
    section: &Section,
    offset: u64,
    text: &[u8],
) -> Result<(Result<(), TypeError>, bool), Fail> {
    let mut out = Vec::from_slice(alloc, b"before ")?;
    let id = EntryId { item: 0, offset };
    let answer = type_text(alloc, section, &NO_TEXTS, id, b"x", &mut out);
    Ok((answer, out.as_slice() == text))
}

#[test]
fn texts_are_appended(rt: HostRuntime) -> Result<(), Fail> {
    let mut section = Section::new(rt.alloc(), Order::Little);
    assert!(rt; takes(rt.alloc(), &mut section, &TWO_TABLES, &FIFTEEN)?);
    let tag = appended(rt.alloc(), &section, 12, b"before <tag> x")?;
    assert!(rt; tag == (Ok(()), true));
    let none = appended(rt.alloc(), &section, 13, b"before ")?;
    assert!(rt; none == (Err(TypeError::NoEntry), true));
    Ok(())
}

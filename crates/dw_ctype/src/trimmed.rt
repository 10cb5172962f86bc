//! Sections of texts up to their last zero bytes, so that no text without an end is looked for again and again.
ghost use Rattle.std.specs.Prelude.{◌≡◌};
ghost use Rattle.dw_strings.specs.TextView.{sections_of};
ghost use Rattle.dw_ctype.specs.SameTexts.{SameIn, SameTexts};

use dw_strings::Strings;
use memchr::memrchr;

/// The same sections, each without the bytes behind its last zero byte. The texts that can be read are the same.
pub(crate) fn trimmed<'a>(strings: &Strings<'a>) -> Strings<'a>
    ensures { SameTexts (sections_of strings.now) (sections_of result) }
{
    Strings {
        str: up_to_last_zero(strings.str),
        line_str: up_to_last_zero(strings.line_str),
        str_offsets: strings.str_offsets,
    }
}

/// The bytes of a section up to its last zero byte, that one included.
fn up_to_last_zero(section: &[u8]) -> &[u8]
    ensures { SameIn section.now result.now }
{
    match memrchr(0, section) {
        Some(last) => &section[..last + 1],
        None => &section[..0],
    }
}

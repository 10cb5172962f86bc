//! Where the texts of a section end. So it is known of each offset whether it has a text, and none is looked at.
ghost use Rattle.std.specs.Prelude.{◌≡◌, ℕ};
ghost use Rattle.dw_strings.specs.Text.{InStr, StringSections, text_in_place};
ghost use Rattle.dw_strings.specs.TextView.{place_of, sections_of};
ghost use Rattle.dw_check.specs.Ends.{AreEnds, IsEnd};
ghost use Rattle.dw_check.specs.Findings.{is_unreadable};

use dw_strings::{Strings, TextPlace};
use memchr::memrchr;

/// Where the texts of both sections of texts end, each counted from its section's first byte: exactly the offsets
/// before it have a text.
#[derive(Clone, Copy)]
pub(crate) struct TextEnds {
    pub(crate) str: u64,
    pub(crate) line_str: u64,
}

impl TextEnds {
    /// Those of these sections.
    pub(crate) fn of(strings: &Strings<'_>) -> TextEnds
        ensures { AreEnds (sections_of strings.now) result }
    {
        TextEnds {
            str: end_of(strings.str),
            line_str: end_of(strings.line_str),
        }
    }

    /// Whether there is no text at a place in `.debug_str`.
    pub(crate) fn has_none(self, place: TextPlace<'_>) -> bool
        requires { (offset : ℕ) × (place_of place ≡ InStr offset) }
        ensures { (s : StringSections) → AreEnds s self → result
            ≡ is_unreadable (text_in_place s (place_of place.entry)) }
    {
        match place {
            TextPlace::Str(offset) => offset >= self.str,
            TextPlace::Own(_) | TextPlace::LineStr(_) => unreachable!(),
        }
    }
}

/// Behind the last zero byte.
fn end_of(section: &[u8]) -> u64
    ensures { IsEnd section.now result }
{
    match memrchr(0, section) {
        Some(last) => last as u64 + 1,
        None => 0,
    }
}

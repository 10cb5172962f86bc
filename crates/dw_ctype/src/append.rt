//! Texts that are appended to a vector.
ghost use Rattle.dw_ctype.specs.Append.{Puts};
ghost use Rattle.dw_ctype.specs.InOrder.{when, word_before};

use std::alloc::AllocError;

/// Appends the text.
pub(crate) fn push(text: &[u8], out: &mut Vec<u8>) -> Result<(), AllocError>
    ensures { Puts out.old out.new text.now result }
{
    out.extend_from_slice(text)
}

/// Appends the text where it is wanted.
pub(crate) fn push_if(wanted: bool, text: &[u8], out: &mut Vec<u8>) -> Result<(), AllocError>
    ensures { Puts out.old out.new (when wanted text.now) result }
{
    if wanted { push(text, out) } else { Ok(()) }
}

/// Appends a word that stands before a declarator: a space is between them, where the declarator isn't empty.
pub(crate) fn push_word(word: &[u8], empty: bool, out: &mut Vec<u8>) -> Result<(), AllocError>
    ensures { Puts out.old out.new (word_before word.now empty) result }
{
    push(word, out)?;
    push_if(!empty, b" ", out)
}

//! The contexts in which a case is judged: each order, format and size of an address, or those alone that the clause
//! `in` means, as `in little 32-bit 8`.
use crate::parts::words::clause;
use dw_form::Ctx;
use dw_leb::{Format, Order};

/// Where the answer depends on no context.
pub const FIRST: Ctx = Ctx {
    order: Order::Little,
    format: Format::Dwarf32,
    address_size: 8,
};

/// Whether the answers to the cases of a file depend on the context.
pub fn depends_on_context(file: &str) -> bool {
    !matches!(
        file,
        "numbers" | "lengths" | "names" | "tables" | "builders" | "headers"
    )
}

/// Whether the case means this context.
pub fn is_meant(ctx: Ctx, input: &str) -> bool {
    let words = clause(input, "in").unwrap_or("");
    for word in words.split_whitespace() {
        if !is_of(ctx, word) {
            return false;
        }
    }
    true
}

/// Whether a context is as a word says: its order, its format, or the count of bytes of an address.
fn is_of(ctx: Ctx, word: &str) -> bool {
    match word {
        "little" => ctx.order == Order::Little,
        "big" => ctx.order == Order::Big,
        "32-bit" => ctx.format == Format::Dwarf32,
        "64-bit" => ctx.format == Format::Dwarf64,
        _ => word.parse() == Ok(ctx.address_size),
    }
}

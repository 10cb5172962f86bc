//! The form table (section 7.5.6).
ghost use Rattle.dw_form.specs.Form.{IsContext};

use crate::parts::error::CaseError;
use crate::parts::words::{allow, number};
use dw_form::{Ctx, Shape};

/// Appends the shape of a form.
pub fn answer(ctx: Ctx, input: &str, text: &mut String) -> Result<(), CaseError>
    requires { IsContext ctx }
{
    allow(input, &["form", "in"])?;
    let form = number(input, "form")?;
    match Shape::of(form, ctx.address_size, ctx.format) {
        Some(shape) => write!(text, "{shape:?}")?,
        None => text.push_str("no form")?,
    }
    Ok(())
}

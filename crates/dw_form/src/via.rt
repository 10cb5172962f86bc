//! The form that an indirect value names, in four bytes.
ghost use Rattle.std.specs.Prelude.{◌≡◌, ◌<◌, ◌^◌};
ghost use Rattle.dw_leb.specs.Number.{Unsigned, UlebFits};
ghost use Rattle.dw_leb.specs.View.{uleb_of};

use dw_leb::Uleb;

/// The number of a form and the width in which it is written. Every form of the table has a number
/// of 16 bits.
#[derive(Clone, Copy, Debug)]
pub(crate) struct Via {
    form: u16,
    width: u8,
    ghost fits: { UlebFits (record { value = form; width = width }) },
}

impl Via {
    pub(crate) fn new(form: Uleb) -> Via
        requires { form.value < 2 ^ 16 }
        ensures form { result.form ≡ form.value }
        ensures width { result.width ≡ form.width }
    {
        Via {
            form: form.value as u16,
            width: form.width,
        }
    }

    pub(crate) fn number(self) -> Uleb
        ensures { uleb_of result ≡ record { value = self.form; width = self.width } }
    {
        match Uleb::with_width(self.form as u64, self.width) {
            Some(form) => form,
            None => unreachable!(),
        }
    }
}

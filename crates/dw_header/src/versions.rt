//! The versions that a reader accepts.
ghost use Rattle.std.specs.Prelude.{◌≡◌, None, Some, if◌then◌else◌};
ghost use Rattle.dw_leb.specs.declared.errors.Reason.TheVariants.{BadVersion};
ghost use Rattle.dw_header.specs.Header.{bad_version_under};

/// The versions of the standard whose unit headers a reader accepts.
#[derive(Clone, Copy, Debug, PartialEq, Eq)]
pub enum Versions {
    /// Version 5 alone (section 7.5.1).
    Five,
    /// Version 5, and version 4 (section 7.5.1.1 of DWARF 4).
    FourAndFive,
}

impl Versions {
    /// Whether a header of this version is refused.
    pub(crate) fn refuse(self, version: u64) -> bool
        ensures { bad_version_under self version ≡ (if result then Some BadVersion else None) }
    {
        match self {
            Versions::Five => version != 5,
            Versions::FourAndFive => version != 5 && version != 4,
        }
    }
}

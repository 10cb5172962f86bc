//! What is found wrong, and where.
ghost use Rattle.std.specs.Prelude.{◌≡◌, ◌++◌, OnOk, Some};
ghost use Rattle.dw_check.specs.Findings.{finding_if};
ghost use Rattle.dw_check.specs.Kinds.{kind_name, kind_number};

use std::alloc::AllocError;
use std::fmt;

/// What is wrong in a place. The variants have the numbers from 1 on.
#[derive(Clone, Copy, Debug, PartialEq, Eq)]
pub enum FindingKind {
    /// A reference under another name than DW_AT_sibling that names no entry (sections 2.2 and 7.5.5). One to an
    /// entry of a supplementary file isn't looked up.
    BadReference = 1,
    /// A DW_AT_sibling that isn't the offset just behind the entry and all entries below it (section 2.3), or
    /// whose form is none of such an offset: ref1, ref2, ref4, ref8, ref_udata or ref_addr. Of the last entry of a
    /// chain that is the offset of the null which ends the chain.
    BadSibling,
    /// The tag of a unit's root is none of those for the unit's kind (section 3.1): DW_TAG_compile_unit or
    /// DW_TAG_partial_unit for a compile or partial unit and for one of version 4, DW_TAG_type_unit for a type unit,
    /// DW_TAG_skeleton_unit or DW_TAG_compile_unit for a skeleton unit.
    RootTag,
    /// No entry of the type unit begins at the type_offset of its header (section 7.5.1.3).
    TypeOffset,
    /// A text that can't be looked up (sections 7.5.5 and 7.26). One of a supplementary file isn't looked up.
    BadText,
    /// An earlier attribute of the entry has the same name (section 2.2).
    RepeatedName,
}

impl FindingKind {
    /// Its number, which is `kind as u8` too.
    pub fn number(self) -> u8
        ensures { result ≡ kind_number self }
    {
        self as u8
    }

    /// Its name, as `BadReference`.
    pub fn name(self) -> &'static str
        ensures { result.now ≡ kind_name self }
    {
        match self {
            FindingKind::BadReference => "BadReference",
            FindingKind::BadSibling => "BadSibling",
            FindingKind::RootTag => "RootTag",
            FindingKind::TypeOffset => "TypeOffset",
            FindingKind::BadText => "BadText",
            FindingKind::RepeatedName => "RepeatedName",
        }
    }
}

/// The text is the kind's name, as `BadReference`.
impl fmt::Display for FindingKind {
    ghost output = { λ kind. Some (kind_name kind) };

    fn fmt<W: fmt::Write>(&self, f: &mut fmt::Formatter<W>) -> fmt::Result {
        f.write_str(self.name())
    }
}

/// Something that is wrong in an entry.
#[derive(Clone, Copy, Debug, PartialEq, Eq)]
pub struct Finding {
    /// Where the entry begins, counted from the section's first byte.
    pub offset: u64,
    /// Which of its attributes it is, counted from 1 in their order; 0 is the whole entry.
    pub position: u64,
    /// What is wrong.
    pub kind: FindingKind,
}

/// One more finding, where something is wrong.
pub(crate) fn push_if(
    found: &mut Vec<Finding>,
    wrong: bool,
    offset: u64,
    position: u64,
    kind: FindingKind,
) -> Result<(), AllocError>
    ensures { OnOk result (found.new.items ≡ found.old.items ++ finding_if wrong offset position kind) }
{
    if wrong {
        found.push(Finding {
            offset,
            position,
            kind,
        })?;
    }
    Ok(())
}

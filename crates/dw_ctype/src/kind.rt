//! How the entries of types are written, by their tags (chapter 5).
ghost use Rattle.std.specs.Prelude.{◌≡◌};
ghost use Rattle.dw_form.specs.Form.{at_number};
ghost use Rattle.dw_ctype.specs.Names as definition;

use dw_leb::constants::tag::*;

/// The word before the name of a structure, a union, an enumeration or a class.
#[derive(Clone, Copy, PartialEq, Eq)]
pub(crate) enum Keyword {
    Struct,
    Union,
    Enum,
    Class,
}

/// What a declarator gets for a type that refers to another one.
#[derive(Clone, Copy, PartialEq, Eq)]
pub(crate) enum PointerKind {
    Pointer,
    Reference,
    RvalueReference,
}

/// A qualifier of a type.
#[derive(Clone, Copy, PartialEq, Eq)]
pub(crate) enum Qualifier {
    Const,
    Volatile,
    Restrict,
    Atomic,
}

/// How a type is written.
#[derive(Clone, Copy, PartialEq, Eq)]
pub(crate) enum Kind {
    /// By its name.
    Named,
    /// By a keyword and its name.
    Tagged(Keyword),
    /// By a mark before the declarator.
    Marked(PointerKind),
    /// By a qualifier.
    Qualified(Qualifier),
    /// By dimensions behind the declarator.
    Array,
    /// By parameters behind the declarator.
    Function,
    /// Not as a type.
    Other,
}

impl Kind {
    /// How an entry of this tag is written.
    pub(crate) fn of(tag: u64) -> Kind
        ensures { result ≡ definition.kind tag }
    {
        match tag {
            DW_TAG_BASE_TYPE | DW_TAG_TYPEDEF | DW_TAG_UNSPECIFIED_TYPE => Kind::Named,
            DW_TAG_STRUCTURE_TYPE => Kind::Tagged(Keyword::Struct),
            DW_TAG_UNION_TYPE => Kind::Tagged(Keyword::Union),
            DW_TAG_ENUMERATION_TYPE => Kind::Tagged(Keyword::Enum),
            DW_TAG_CLASS_TYPE => Kind::Tagged(Keyword::Class),
            DW_TAG_POINTER_TYPE => Kind::Marked(PointerKind::Pointer),
            DW_TAG_REFERENCE_TYPE => Kind::Marked(PointerKind::Reference),
            DW_TAG_RVALUE_REFERENCE_TYPE => Kind::Marked(PointerKind::RvalueReference),
            DW_TAG_CONST_TYPE => Kind::Qualified(Qualifier::Const),
            DW_TAG_VOLATILE_TYPE => Kind::Qualified(Qualifier::Volatile),
            DW_TAG_RESTRICT_TYPE => Kind::Qualified(Qualifier::Restrict),
            DW_TAG_ATOMIC_TYPE => Kind::Qualified(Qualifier::Atomic),
            DW_TAG_ARRAY_TYPE => Kind::Array,
            DW_TAG_SUBROUTINE_TYPE | DW_TAG_SUBPROGRAM => Kind::Function,
            _ => Kind::Other,
        }
    }
}

impl Keyword {
    /// The word, with a space behind it.
    pub(crate) fn text(self) -> &'static [u8]
        ensures { result.now ≡ definition.keyword self }
    {
        match self {
            Keyword::Struct => b"struct ",
            Keyword::Union => b"union ",
            Keyword::Enum => b"enum ",
            Keyword::Class => b"class ",
        }
    }
}

impl PointerKind {
    /// The mark.
    pub(crate) fn text(self) -> &'static [u8]
        ensures { result.now ≡ definition.mark self }
    {
        match self {
            PointerKind::Pointer => b"*",
            PointerKind::Reference => b"&",
            PointerKind::RvalueReference => b"&&",
        }
    }
}

impl Qualifier {
    /// The word.
    pub(crate) fn text(self) -> &'static [u8]
        ensures { result.now ≡ definition.qualifier self }
    {
        match self {
            Qualifier::Const => b"const",
            Qualifier::Volatile => b"volatile",
            Qualifier::Restrict => b"restrict",
            Qualifier::Atomic => b"_Atomic",
        }
    }
}

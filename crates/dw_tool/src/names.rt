//! The names of tags and attributes (sections 7.5.3 and 7.5.4, tables 7.3 and 7.5): those that this
//! project prints.
ghost use Rattle.std.specs.Prelude.{◌≡◌, ◌≤◌, ◌++◌, IfSome, Some, length, option_map};
ghost use Rattle.dw_tool.specs.Names.{attribute_names, name_in, number_named, tag_names};
ghost use Rattle.dw_tool.specs.Pieces.{attribute_label, padding, tag_label};

use dw_leb::constants::attribute::*;
use dw_leb::constants::tag::*;

// The greatest attribute that has a name here.
const LAST_NAMED: u64 = DW_AT_LOCLISTS_BASE;

/// How many spaces are behind a label: enough that each has 32 bytes, which are moved at once (`Output::append_front`).
pub(crate) const PADDING: usize = 24;

// The name of a tag between two texts.
macro_rules! named_tag {
    ($tag:expr, $before:literal, $behind:literal) => {
        match $tag {
            DW_TAG_ARRAY_TYPE => Some(concat!($before, "array_type", $behind)),
            DW_TAG_CLASS_TYPE => Some(concat!($before, "class_type", $behind)),
            DW_TAG_ENUMERATION_TYPE => Some(concat!($before, "enumeration_type", $behind)),
            DW_TAG_FORMAL_PARAMETER => Some(concat!($before, "formal_parameter", $behind)),
            DW_TAG_LABEL => Some(concat!($before, "label", $behind)),
            DW_TAG_LEXICAL_BLOCK => Some(concat!($before, "lexical_block", $behind)),
            DW_TAG_MEMBER => Some(concat!($before, "member", $behind)),
            DW_TAG_POINTER_TYPE => Some(concat!($before, "pointer_type", $behind)),
            DW_TAG_REFERENCE_TYPE => Some(concat!($before, "reference_type", $behind)),
            DW_TAG_COMPILE_UNIT => Some(concat!($before, "compile_unit", $behind)),
            DW_TAG_STRUCTURE_TYPE => Some(concat!($before, "structure_type", $behind)),
            DW_TAG_SUBROUTINE_TYPE => Some(concat!($before, "subroutine_type", $behind)),
            DW_TAG_TYPEDEF => Some(concat!($before, "typedef", $behind)),
            DW_TAG_UNION_TYPE => Some(concat!($before, "union_type", $behind)),
            DW_TAG_UNSPECIFIED_PARAMETERS => Some(concat!($before, "unspecified_parameters", $behind)),
            DW_TAG_INHERITANCE => Some(concat!($before, "inheritance", $behind)),
            DW_TAG_INLINED_SUBROUTINE => Some(concat!($before, "inlined_subroutine", $behind)),
            DW_TAG_SUBRANGE_TYPE => Some(concat!($before, "subrange_type", $behind)),
            DW_TAG_BASE_TYPE => Some(concat!($before, "base_type", $behind)),
            DW_TAG_CONST_TYPE => Some(concat!($before, "const_type", $behind)),
            DW_TAG_ENUMERATOR => Some(concat!($before, "enumerator", $behind)),
            DW_TAG_SUBPROGRAM => Some(concat!($before, "subprogram", $behind)),
            DW_TAG_VARIABLE => Some(concat!($before, "variable", $behind)),
            DW_TAG_VOLATILE_TYPE => Some(concat!($before, "volatile_type", $behind)),
            DW_TAG_RESTRICT_TYPE => Some(concat!($before, "restrict_type", $behind)),
            DW_TAG_NAMESPACE => Some(concat!($before, "namespace", $behind)),
            DW_TAG_UNSPECIFIED_TYPE => Some(concat!($before, "unspecified_type", $behind)),
            DW_TAG_PARTIAL_UNIT => Some(concat!($before, "partial_unit", $behind)),
            DW_TAG_TYPE_UNIT => Some(concat!($before, "type_unit", $behind)),
            DW_TAG_RVALUE_REFERENCE_TYPE => Some(concat!($before, "rvalue_reference_type", $behind)),
            DW_TAG_ATOMIC_TYPE => Some(concat!($before, "atomic_type", $behind)),
            DW_TAG_CALL_SITE => Some(concat!($before, "call_site", $behind)),
            DW_TAG_CALL_SITE_PARAMETER => Some(concat!($before, "call_site_parameter", $behind)),
            DW_TAG_SKELETON_UNIT => Some(concat!($before, "skeleton_unit", $behind)),
            _ => None,
        }
    };
}

// The name of an attribute between two texts.
macro_rules! named_attribute {
    ($attribute:expr, $before:literal, $behind:literal) => {
        match $attribute {
            DW_AT_SIBLING => Some(concat!($before, "sibling", $behind)),
            DW_AT_LOCATION => Some(concat!($before, "location", $behind)),
            DW_AT_NAME => Some(concat!($before, "name", $behind)),
            DW_AT_BYTE_SIZE => Some(concat!($before, "byte_size", $behind)),
            DW_AT_BIT_SIZE => Some(concat!($before, "bit_size", $behind)),
            DW_AT_STMT_LIST => Some(concat!($before, "stmt_list", $behind)),
            DW_AT_LOW_PC => Some(concat!($before, "low_pc", $behind)),
            DW_AT_HIGH_PC => Some(concat!($before, "high_pc", $behind)),
            DW_AT_LANGUAGE => Some(concat!($before, "language", $behind)),
            DW_AT_COMP_DIR => Some(concat!($before, "comp_dir", $behind)),
            DW_AT_CONST_VALUE => Some(concat!($before, "const_value", $behind)),
            DW_AT_INLINE => Some(concat!($before, "inline", $behind)),
            DW_AT_LOWER_BOUND => Some(concat!($before, "lower_bound", $behind)),
            DW_AT_PRODUCER => Some(concat!($before, "producer", $behind)),
            DW_AT_PROTOTYPED => Some(concat!($before, "prototyped", $behind)),
            DW_AT_UPPER_BOUND => Some(concat!($before, "upper_bound", $behind)),
            DW_AT_ABSTRACT_ORIGIN => Some(concat!($before, "abstract_origin", $behind)),
            DW_AT_ACCESSIBILITY => Some(concat!($before, "accessibility", $behind)),
            DW_AT_ARTIFICIAL => Some(concat!($before, "artificial", $behind)),
            DW_AT_COUNT => Some(concat!($before, "count", $behind)),
            DW_AT_DATA_MEMBER_LOCATION => Some(concat!($before, "data_member_location", $behind)),
            DW_AT_DECL_COLUMN => Some(concat!($before, "decl_column", $behind)),
            DW_AT_DECL_FILE => Some(concat!($before, "decl_file", $behind)),
            DW_AT_DECL_LINE => Some(concat!($before, "decl_line", $behind)),
            DW_AT_DECLARATION => Some(concat!($before, "declaration", $behind)),
            DW_AT_ENCODING => Some(concat!($before, "encoding", $behind)),
            DW_AT_EXTERNAL => Some(concat!($before, "external", $behind)),
            DW_AT_FRAME_BASE => Some(concat!($before, "frame_base", $behind)),
            DW_AT_SPECIFICATION => Some(concat!($before, "specification", $behind)),
            DW_AT_TYPE => Some(concat!($before, "type", $behind)),
            DW_AT_RANGES => Some(concat!($before, "ranges", $behind)),
            DW_AT_CALL_COLUMN => Some(concat!($before, "call_column", $behind)),
            DW_AT_CALL_FILE => Some(concat!($before, "call_file", $behind)),
            DW_AT_CALL_LINE => Some(concat!($before, "call_line", $behind)),
            DW_AT_SIGNATURE => Some(concat!($before, "signature", $behind)),
            DW_AT_DATA_BIT_OFFSET => Some(concat!($before, "data_bit_offset", $behind)),
            DW_AT_LINKAGE_NAME => Some(concat!($before, "linkage_name", $behind)),
            DW_AT_STR_OFFSETS_BASE => Some(concat!($before, "str_offsets_base", $behind)),
            DW_AT_ADDR_BASE => Some(concat!($before, "addr_base", $behind)),
            DW_AT_RNGLISTS_BASE => Some(concat!($before, "rnglists_base", $behind)),
            DW_AT_CALL_ALL_CALLS => Some(concat!($before, "call_all_calls", $behind)),
            DW_AT_CALL_RETURN_PC => Some(concat!($before, "call_return_pc", $behind)),
            DW_AT_CALL_VALUE => Some(concat!($before, "call_value", $behind)),
            DW_AT_CALL_ORIGIN => Some(concat!($before, "call_origin", $behind)),
            DW_AT_NORETURN => Some(concat!($before, "noreturn", $behind)),
            DW_AT_ALIGNMENT => Some(concat!($before, "alignment", $behind)),
            DW_AT_LOCLISTS_BASE => Some(concat!($before, "loclists_base", $behind)),
            _ => None,
        }
    };
}

/// The name of a tag without its prefix `DW_TAG_`, or `None` where this project has none for it.
pub fn tag_name(tag: u64) -> Option<&'static str>
    ensures { option_map (λ name. name.now) result ≡ name_in tag_names tag }
{
    named_tag!(tag, "", "")
}

/// The name of an attribute without its prefix `DW_AT_`, or `None` where this project has none for
/// it.
pub fn attribute_name(attribute: u64) -> Option<&'static str>
    ensures { option_map (λ name. name.now) result ≡ name_in attribute_names attribute }
{
    named_attribute!(attribute, "", "")
}

/// What stands for a tag in the line of its entry: a space, the prefix and the name, in one piece, and behind it the
/// padding. `None` where it has no name.
#[inline(always)]
pub(crate) fn tag_label(tag: u64) -> Option<&'static str>
    ensures label { option_map (λ label. label.now) result
        ≡ option_map (λ name. tag_label name ++ padding) (name_in tag_names tag) }
    ensures long { IfSome result (λ label. 32 ≤ length label.now) }
    ensures short { IfSome result (λ label. length label.now ≤ 56) }
{
    padded_tag(tag)
}

/// The same, of which the names tell how long it is.
#[inline(always)]
fn padded_tag(tag: u64) -> Option<&'static str>
    ensures { option_map (λ label. label.now) result
        ≡ option_map (λ name. tag_label name ++ padding) (name_in tag_names tag) }
{
    named_tag!(tag, " DW_TAG_", "                        ")
}

/// What stands before the value of an attribute: the newline that ends the line before, the prefix with its spaces, the
/// name and a space, in one piece, and behind it the padding. `None` where it has no name.
#[inline(always)]
pub(crate) fn attribute_label(attribute: u64) -> Option<&'static str>
    ensures label { option_map (λ label. label.now) result
        ≡ option_map (λ name. attribute_label name ++ padding) (name_in attribute_names attribute) }
    ensures long { IfSome result (λ label. 32 ≤ length label.now) }
    ensures short { IfSome result (λ label. length label.now ≤ 56) }
{
    padded_attribute(attribute)
}

/// The same, of which the names tell how long it is.
#[inline(always)]
fn padded_attribute(attribute: u64) -> Option<&'static str>
    ensures { option_map (λ label. label.now) result
        ≡ option_map (λ name. attribute_label name ++ padding) (name_in attribute_names attribute) }
{
    named_attribute!(attribute, "\n  DW_AT_", "                         ")
}

/// The number of the attribute with this name, without its prefix `DW_AT_`, or `None` where this project has none of
/// this name.
pub fn attribute_named(name: &str) -> Option<u64>
    ensures exact { result ≡ number_named attribute_names name.now }
    ensures inverse { IfSome result (λ number. name_in attribute_names number ≡ Some name.now) }
{
    let mut number = 0;
    while number <= LAST_NAMED {
        if attribute_name(number) == Some(name) {
            return Some(number);
        }
        number += 1;
    }
    None
}

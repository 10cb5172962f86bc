//! The tags of entries, `DW_TAG_..` (section 7.5.3, table 7.3).

/// `DW_TAG_array_type`.
pub const DW_TAG_ARRAY_TYPE: u64 = 0x01;

/// `DW_TAG_class_type`.
pub const DW_TAG_CLASS_TYPE: u64 = 0x02;

/// `DW_TAG_entry_point`.
pub const DW_TAG_ENTRY_POINT: u64 = 0x03;

/// `DW_TAG_enumeration_type`.
pub const DW_TAG_ENUMERATION_TYPE: u64 = 0x04;

/// `DW_TAG_formal_parameter`.
pub const DW_TAG_FORMAL_PARAMETER: u64 = 0x05;

/// `DW_TAG_imported_declaration`.
pub const DW_TAG_IMPORTED_DECLARATION: u64 = 0x08;

/// `DW_TAG_label`.
pub const DW_TAG_LABEL: u64 = 0x0a;

/// `DW_TAG_lexical_block`.
pub const DW_TAG_LEXICAL_BLOCK: u64 = 0x0b;

/// `DW_TAG_member`.
pub const DW_TAG_MEMBER: u64 = 0x0d;

/// `DW_TAG_pointer_type`.
pub const DW_TAG_POINTER_TYPE: u64 = 0x0f;

/// `DW_TAG_reference_type`.
pub const DW_TAG_REFERENCE_TYPE: u64 = 0x10;

/// `DW_TAG_compile_unit`.
pub const DW_TAG_COMPILE_UNIT: u64 = 0x11;

/// `DW_TAG_string_type`.
pub const DW_TAG_STRING_TYPE: u64 = 0x12;

/// `DW_TAG_structure_type`.
pub const DW_TAG_STRUCTURE_TYPE: u64 = 0x13;

/// `DW_TAG_subroutine_type`.
pub const DW_TAG_SUBROUTINE_TYPE: u64 = 0x15;

/// `DW_TAG_typedef`.
pub const DW_TAG_TYPEDEF: u64 = 0x16;

/// `DW_TAG_union_type`.
pub const DW_TAG_UNION_TYPE: u64 = 0x17;

/// `DW_TAG_unspecified_parameters`.
pub const DW_TAG_UNSPECIFIED_PARAMETERS: u64 = 0x18;

/// `DW_TAG_variant`.
pub const DW_TAG_VARIANT: u64 = 0x19;

/// `DW_TAG_common_block`.
pub const DW_TAG_COMMON_BLOCK: u64 = 0x1a;

/// `DW_TAG_common_inclusion`.
pub const DW_TAG_COMMON_INCLUSION: u64 = 0x1b;

/// `DW_TAG_inheritance`.
pub const DW_TAG_INHERITANCE: u64 = 0x1c;

/// `DW_TAG_inlined_subroutine`.
pub const DW_TAG_INLINED_SUBROUTINE: u64 = 0x1d;

/// `DW_TAG_module`.
pub const DW_TAG_MODULE: u64 = 0x1e;

/// `DW_TAG_ptr_to_member_type`.
pub const DW_TAG_PTR_TO_MEMBER_TYPE: u64 = 0x1f;

/// `DW_TAG_set_type`.
pub const DW_TAG_SET_TYPE: u64 = 0x20;

/// `DW_TAG_subrange_type`.
pub const DW_TAG_SUBRANGE_TYPE: u64 = 0x21;

/// `DW_TAG_with_stmt`.
pub const DW_TAG_WITH_STMT: u64 = 0x22;

/// `DW_TAG_access_declaration`.
pub const DW_TAG_ACCESS_DECLARATION: u64 = 0x23;

/// `DW_TAG_base_type`.
pub const DW_TAG_BASE_TYPE: u64 = 0x24;

/// `DW_TAG_catch_block`.
pub const DW_TAG_CATCH_BLOCK: u64 = 0x25;

/// `DW_TAG_const_type`.
pub const DW_TAG_CONST_TYPE: u64 = 0x26;

/// `DW_TAG_constant`.
pub const DW_TAG_CONSTANT: u64 = 0x27;

/// `DW_TAG_enumerator`.
pub const DW_TAG_ENUMERATOR: u64 = 0x28;

/// `DW_TAG_file_type`.
pub const DW_TAG_FILE_TYPE: u64 = 0x29;

/// `DW_TAG_friend`.
pub const DW_TAG_FRIEND: u64 = 0x2a;

/// `DW_TAG_namelist`.
pub const DW_TAG_NAMELIST: u64 = 0x2b;

/// `DW_TAG_namelist_item`.
pub const DW_TAG_NAMELIST_ITEM: u64 = 0x2c;

/// `DW_TAG_packed_type`.
pub const DW_TAG_PACKED_TYPE: u64 = 0x2d;

/// `DW_TAG_subprogram`.
pub const DW_TAG_SUBPROGRAM: u64 = 0x2e;

/// `DW_TAG_template_type_parameter`.
pub const DW_TAG_TEMPLATE_TYPE_PARAMETER: u64 = 0x2f;

/// `DW_TAG_template_value_parameter`.
pub const DW_TAG_TEMPLATE_VALUE_PARAMETER: u64 = 0x30;

/// `DW_TAG_thrown_type`.
pub const DW_TAG_THROWN_TYPE: u64 = 0x31;

/// `DW_TAG_try_block`.
pub const DW_TAG_TRY_BLOCK: u64 = 0x32;

/// `DW_TAG_variant_part`.
pub const DW_TAG_VARIANT_PART: u64 = 0x33;

/// `DW_TAG_variable`.
pub const DW_TAG_VARIABLE: u64 = 0x34;

/// `DW_TAG_volatile_type`.
pub const DW_TAG_VOLATILE_TYPE: u64 = 0x35;

/// `DW_TAG_dwarf_procedure`.
pub const DW_TAG_DWARF_PROCEDURE: u64 = 0x36;

/// `DW_TAG_restrict_type`.
pub const DW_TAG_RESTRICT_TYPE: u64 = 0x37;

/// `DW_TAG_interface_type`.
pub const DW_TAG_INTERFACE_TYPE: u64 = 0x38;

/// `DW_TAG_namespace`.
pub const DW_TAG_NAMESPACE: u64 = 0x39;

/// `DW_TAG_imported_module`.
pub const DW_TAG_IMPORTED_MODULE: u64 = 0x3a;

/// `DW_TAG_unspecified_type`.
pub const DW_TAG_UNSPECIFIED_TYPE: u64 = 0x3b;

/// `DW_TAG_partial_unit`.
pub const DW_TAG_PARTIAL_UNIT: u64 = 0x3c;

/// `DW_TAG_imported_unit`.
pub const DW_TAG_IMPORTED_UNIT: u64 = 0x3d;

/// `DW_TAG_condition`.
pub const DW_TAG_CONDITION: u64 = 0x3f;

/// `DW_TAG_shared_type`.
pub const DW_TAG_SHARED_TYPE: u64 = 0x40;

/// `DW_TAG_type_unit`.
pub const DW_TAG_TYPE_UNIT: u64 = 0x41;

/// `DW_TAG_rvalue_reference_type`.
pub const DW_TAG_RVALUE_REFERENCE_TYPE: u64 = 0x42;

/// `DW_TAG_template_alias`.
pub const DW_TAG_TEMPLATE_ALIAS: u64 = 0x43;

/// `DW_TAG_coarray_type`.
pub const DW_TAG_COARRAY_TYPE: u64 = 0x44;

/// `DW_TAG_generic_subrange`.
pub const DW_TAG_GENERIC_SUBRANGE: u64 = 0x45;

/// `DW_TAG_dynamic_type`.
pub const DW_TAG_DYNAMIC_TYPE: u64 = 0x46;

/// `DW_TAG_atomic_type`.
pub const DW_TAG_ATOMIC_TYPE: u64 = 0x47;

/// `DW_TAG_call_site`.
pub const DW_TAG_CALL_SITE: u64 = 0x48;

/// `DW_TAG_call_site_parameter`.
pub const DW_TAG_CALL_SITE_PARAMETER: u64 = 0x49;

/// `DW_TAG_skeleton_unit`.
pub const DW_TAG_SKELETON_UNIT: u64 = 0x4a;

/// `DW_TAG_immutable_type`.
pub const DW_TAG_IMMUTABLE_TYPE: u64 = 0x4b;

/// `DW_TAG_lo_user`.
pub const DW_TAG_LO_USER: u64 = 0x4080;

/// `DW_TAG_hi_user`.
pub const DW_TAG_HI_USER: u64 = 0xffff;

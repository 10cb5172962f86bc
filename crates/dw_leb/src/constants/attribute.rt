//! The names of attributes, `DW_AT_..` (section 7.5.4, table 7.5).

/// `DW_AT_sibling`.
pub const DW_AT_SIBLING: u64 = 0x01;

/// `DW_AT_location`.
pub const DW_AT_LOCATION: u64 = 0x02;

/// `DW_AT_name`.
pub const DW_AT_NAME: u64 = 0x03;

/// `DW_AT_ordering`.
pub const DW_AT_ORDERING: u64 = 0x09;

/// `DW_AT_byte_size`.
pub const DW_AT_BYTE_SIZE: u64 = 0x0b;

/// `DW_AT_bit_size`.
pub const DW_AT_BIT_SIZE: u64 = 0x0d;

/// `DW_AT_stmt_list`.
pub const DW_AT_STMT_LIST: u64 = 0x10;

/// `DW_AT_low_pc`.
pub const DW_AT_LOW_PC: u64 = 0x11;

/// `DW_AT_high_pc`.
pub const DW_AT_HIGH_PC: u64 = 0x12;

/// `DW_AT_language`.
pub const DW_AT_LANGUAGE: u64 = 0x13;

/// `DW_AT_discr`.
pub const DW_AT_DISCR: u64 = 0x15;

/// `DW_AT_discr_value`.
pub const DW_AT_DISCR_VALUE: u64 = 0x16;

/// `DW_AT_visibility`.
pub const DW_AT_VISIBILITY: u64 = 0x17;

/// `DW_AT_import`.
pub const DW_AT_IMPORT: u64 = 0x18;

/// `DW_AT_string_length`.
pub const DW_AT_STRING_LENGTH: u64 = 0x19;

/// `DW_AT_common_reference`.
pub const DW_AT_COMMON_REFERENCE: u64 = 0x1a;

/// `DW_AT_comp_dir`.
pub const DW_AT_COMP_DIR: u64 = 0x1b;

/// `DW_AT_const_value`.
pub const DW_AT_CONST_VALUE: u64 = 0x1c;

/// `DW_AT_containing_type`.
pub const DW_AT_CONTAINING_TYPE: u64 = 0x1d;

/// `DW_AT_default_value`.
pub const DW_AT_DEFAULT_VALUE: u64 = 0x1e;

/// `DW_AT_inline`.
pub const DW_AT_INLINE: u64 = 0x20;

/// `DW_AT_is_optional`.
pub const DW_AT_IS_OPTIONAL: u64 = 0x21;

/// `DW_AT_lower_bound`.
pub const DW_AT_LOWER_BOUND: u64 = 0x22;

/// `DW_AT_producer`.
pub const DW_AT_PRODUCER: u64 = 0x25;

/// `DW_AT_prototyped`.
pub const DW_AT_PROTOTYPED: u64 = 0x27;

/// `DW_AT_return_addr`.
pub const DW_AT_RETURN_ADDR: u64 = 0x2a;

/// `DW_AT_start_scope`.
pub const DW_AT_START_SCOPE: u64 = 0x2c;

/// `DW_AT_bit_stride`.
pub const DW_AT_BIT_STRIDE: u64 = 0x2e;

/// `DW_AT_upper_bound`.
pub const DW_AT_UPPER_BOUND: u64 = 0x2f;

/// `DW_AT_abstract_origin`.
pub const DW_AT_ABSTRACT_ORIGIN: u64 = 0x31;

/// `DW_AT_accessibility`.
pub const DW_AT_ACCESSIBILITY: u64 = 0x32;

/// `DW_AT_address_class`.
pub const DW_AT_ADDRESS_CLASS: u64 = 0x33;

/// `DW_AT_artificial`.
pub const DW_AT_ARTIFICIAL: u64 = 0x34;

/// `DW_AT_base_types`.
pub const DW_AT_BASE_TYPES: u64 = 0x35;

/// `DW_AT_calling_convention`.
pub const DW_AT_CALLING_CONVENTION: u64 = 0x36;

/// `DW_AT_count`.
pub const DW_AT_COUNT: u64 = 0x37;

/// `DW_AT_data_member_location`.
pub const DW_AT_DATA_MEMBER_LOCATION: u64 = 0x38;

/// `DW_AT_decl_column`.
pub const DW_AT_DECL_COLUMN: u64 = 0x39;

/// `DW_AT_decl_file`.
pub const DW_AT_DECL_FILE: u64 = 0x3a;

/// `DW_AT_decl_line`.
pub const DW_AT_DECL_LINE: u64 = 0x3b;

/// `DW_AT_declaration`.
pub const DW_AT_DECLARATION: u64 = 0x3c;

/// `DW_AT_discr_list`.
pub const DW_AT_DISCR_LIST: u64 = 0x3d;

/// `DW_AT_encoding`.
pub const DW_AT_ENCODING: u64 = 0x3e;

/// `DW_AT_external`.
pub const DW_AT_EXTERNAL: u64 = 0x3f;

/// `DW_AT_frame_base`.
pub const DW_AT_FRAME_BASE: u64 = 0x40;

/// `DW_AT_friend`.
pub const DW_AT_FRIEND: u64 = 0x41;

/// `DW_AT_identifier_case`.
pub const DW_AT_IDENTIFIER_CASE: u64 = 0x42;

/// `DW_AT_namelist_item`.
pub const DW_AT_NAMELIST_ITEM: u64 = 0x44;

/// `DW_AT_priority`.
pub const DW_AT_PRIORITY: u64 = 0x45;

/// `DW_AT_segment`.
pub const DW_AT_SEGMENT: u64 = 0x46;

/// `DW_AT_specification`.
pub const DW_AT_SPECIFICATION: u64 = 0x47;

/// `DW_AT_static_link`.
pub const DW_AT_STATIC_LINK: u64 = 0x48;

/// `DW_AT_type`.
pub const DW_AT_TYPE: u64 = 0x49;

/// `DW_AT_use_location`.
pub const DW_AT_USE_LOCATION: u64 = 0x4a;

/// `DW_AT_variable_parameter`.
pub const DW_AT_VARIABLE_PARAMETER: u64 = 0x4b;

/// `DW_AT_virtuality`.
pub const DW_AT_VIRTUALITY: u64 = 0x4c;

/// `DW_AT_vtable_elem_location`.
pub const DW_AT_VTABLE_ELEM_LOCATION: u64 = 0x4d;

/// `DW_AT_allocated`.
pub const DW_AT_ALLOCATED: u64 = 0x4e;

/// `DW_AT_associated`.
pub const DW_AT_ASSOCIATED: u64 = 0x4f;

/// `DW_AT_data_location`.
pub const DW_AT_DATA_LOCATION: u64 = 0x50;

/// `DW_AT_byte_stride`.
pub const DW_AT_BYTE_STRIDE: u64 = 0x51;

/// `DW_AT_entry_pc`.
pub const DW_AT_ENTRY_PC: u64 = 0x52;

/// `DW_AT_use_UTF8`.
pub const DW_AT_USE_UTF8: u64 = 0x53;

/// `DW_AT_extension`.
pub const DW_AT_EXTENSION: u64 = 0x54;

/// `DW_AT_ranges`.
pub const DW_AT_RANGES: u64 = 0x55;

/// `DW_AT_trampoline`.
pub const DW_AT_TRAMPOLINE: u64 = 0x56;

/// `DW_AT_call_column`.
pub const DW_AT_CALL_COLUMN: u64 = 0x57;

/// `DW_AT_call_file`.
pub const DW_AT_CALL_FILE: u64 = 0x58;

/// `DW_AT_call_line`.
pub const DW_AT_CALL_LINE: u64 = 0x59;

/// `DW_AT_description`.
pub const DW_AT_DESCRIPTION: u64 = 0x5a;

/// `DW_AT_binary_scale`.
pub const DW_AT_BINARY_SCALE: u64 = 0x5b;

/// `DW_AT_decimal_scale`.
pub const DW_AT_DECIMAL_SCALE: u64 = 0x5c;

/// `DW_AT_small`.
pub const DW_AT_SMALL: u64 = 0x5d;

/// `DW_AT_decimal_sign`.
pub const DW_AT_DECIMAL_SIGN: u64 = 0x5e;

/// `DW_AT_digit_count`.
pub const DW_AT_DIGIT_COUNT: u64 = 0x5f;

/// `DW_AT_picture_string`.
pub const DW_AT_PICTURE_STRING: u64 = 0x60;

/// `DW_AT_mutable`.
pub const DW_AT_MUTABLE: u64 = 0x61;

/// `DW_AT_threads_scaled`.
pub const DW_AT_THREADS_SCALED: u64 = 0x62;

/// `DW_AT_explicit`.
pub const DW_AT_EXPLICIT: u64 = 0x63;

/// `DW_AT_object_pointer`.
pub const DW_AT_OBJECT_POINTER: u64 = 0x64;

/// `DW_AT_endianity`.
pub const DW_AT_ENDIANITY: u64 = 0x65;

/// `DW_AT_elemental`.
pub const DW_AT_ELEMENTAL: u64 = 0x66;

/// `DW_AT_pure`.
pub const DW_AT_PURE: u64 = 0x67;

/// `DW_AT_recursive`.
pub const DW_AT_RECURSIVE: u64 = 0x68;

/// `DW_AT_signature`.
pub const DW_AT_SIGNATURE: u64 = 0x69;

/// `DW_AT_main_subprogram`.
pub const DW_AT_MAIN_SUBPROGRAM: u64 = 0x6a;

/// `DW_AT_data_bit_offset`.
pub const DW_AT_DATA_BIT_OFFSET: u64 = 0x6b;

/// `DW_AT_const_expr`.
pub const DW_AT_CONST_EXPR: u64 = 0x6c;

/// `DW_AT_enum_class`.
pub const DW_AT_ENUM_CLASS: u64 = 0x6d;

/// `DW_AT_linkage_name`.
pub const DW_AT_LINKAGE_NAME: u64 = 0x6e;

/// `DW_AT_string_length_bit_size`.
pub const DW_AT_STRING_LENGTH_BIT_SIZE: u64 = 0x6f;

/// `DW_AT_string_length_byte_size`.
pub const DW_AT_STRING_LENGTH_BYTE_SIZE: u64 = 0x70;

/// `DW_AT_rank`.
pub const DW_AT_RANK: u64 = 0x71;

/// `DW_AT_str_offsets_base`.
pub const DW_AT_STR_OFFSETS_BASE: u64 = 0x72;

/// `DW_AT_addr_base`.
pub const DW_AT_ADDR_BASE: u64 = 0x73;

/// `DW_AT_rnglists_base`.
pub const DW_AT_RNGLISTS_BASE: u64 = 0x74;

/// `DW_AT_dwo_name`.
pub const DW_AT_DWO_NAME: u64 = 0x76;

/// `DW_AT_reference`.
pub const DW_AT_REFERENCE: u64 = 0x77;

/// `DW_AT_rvalue_reference`.
pub const DW_AT_RVALUE_REFERENCE: u64 = 0x78;

/// `DW_AT_macros`.
pub const DW_AT_MACROS: u64 = 0x79;

/// `DW_AT_call_all_calls`.
pub const DW_AT_CALL_ALL_CALLS: u64 = 0x7a;

/// `DW_AT_call_all_source_calls`.
pub const DW_AT_CALL_ALL_SOURCE_CALLS: u64 = 0x7b;

/// `DW_AT_call_all_tail_calls`.
pub const DW_AT_CALL_ALL_TAIL_CALLS: u64 = 0x7c;

/// `DW_AT_call_return_pc`.
pub const DW_AT_CALL_RETURN_PC: u64 = 0x7d;

/// `DW_AT_call_value`.
pub const DW_AT_CALL_VALUE: u64 = 0x7e;

/// `DW_AT_call_origin`.
pub const DW_AT_CALL_ORIGIN: u64 = 0x7f;

/// `DW_AT_call_parameter`.
pub const DW_AT_CALL_PARAMETER: u64 = 0x80;

/// `DW_AT_call_pc`.
pub const DW_AT_CALL_PC: u64 = 0x81;

/// `DW_AT_call_tail_call`.
pub const DW_AT_CALL_TAIL_CALL: u64 = 0x82;

/// `DW_AT_call_target`.
pub const DW_AT_CALL_TARGET: u64 = 0x83;

/// `DW_AT_call_target_clobbered`.
pub const DW_AT_CALL_TARGET_CLOBBERED: u64 = 0x84;

/// `DW_AT_call_data_location`.
pub const DW_AT_CALL_DATA_LOCATION: u64 = 0x85;

/// `DW_AT_call_data_value`.
pub const DW_AT_CALL_DATA_VALUE: u64 = 0x86;

/// `DW_AT_noreturn`.
pub const DW_AT_NORETURN: u64 = 0x87;

/// `DW_AT_alignment`.
pub const DW_AT_ALIGNMENT: u64 = 0x88;

/// `DW_AT_export_symbols`.
pub const DW_AT_EXPORT_SYMBOLS: u64 = 0x89;

/// `DW_AT_deleted`.
pub const DW_AT_DELETED: u64 = 0x8a;

/// `DW_AT_defaulted`.
pub const DW_AT_DEFAULTED: u64 = 0x8b;

/// `DW_AT_loclists_base`.
pub const DW_AT_LOCLISTS_BASE: u64 = 0x8c;

/// `DW_AT_lo_user`.
pub const DW_AT_LO_USER: u64 = 0x2000;

/// `DW_AT_hi_user`.
pub const DW_AT_HI_USER: u64 = 0x3fff;

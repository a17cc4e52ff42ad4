//! The numbers of DWARF 5, by the names that they have there.

// units (section 7.5.1)
pub const DW_UT_compile: u8 = 0x01;

pub const DW_UT_type: u8 = 0x02;

pub const DW_UT_partial: u8 = 0x03;

pub const DW_UT_skeleton: u8 = 0x04;

pub const DW_UT_split_compile: u8 = 0x05;

pub const DW_UT_split_type: u8 = 0x06;

// tags (section 7.5.3)
pub const DW_TAG_inlined_subroutine: u64 = 0x1d;

pub const DW_TAG_subprogram: u64 = 0x2e;

// whether an entry has children (section 7.5.3)
pub const DW_CHILDREN_no: u8 = 0x00;

pub const DW_CHILDREN_yes: u8 = 0x01;

// attributes (section 7.5.4)
pub const DW_AT_name: u64 = 0x03;

pub const DW_AT_stmt_list: u64 = 0x10;

pub const DW_AT_low_pc: u64 = 0x11;

pub const DW_AT_high_pc: u64 = 0x12;

pub const DW_AT_language: u64 = 0x13;

pub const DW_AT_comp_dir: u64 = 0x1b;

pub const DW_AT_abstract_origin: u64 = 0x31;

pub const DW_AT_specification: u64 = 0x47;

pub const DW_AT_ranges: u64 = 0x55;

pub const DW_AT_call_column: u64 = 0x57;

pub const DW_AT_call_file: u64 = 0x58;

pub const DW_AT_call_line: u64 = 0x59;

pub const DW_AT_linkage_name: u64 = 0x6e;

pub const DW_AT_str_offsets_base: u64 = 0x72;

pub const DW_AT_addr_base: u64 = 0x73;

pub const DW_AT_rnglists_base: u64 = 0x74;
// of older compilers
pub const DW_AT_MIPS_linkage_name: u64 = 0x2007;

// forms (section 7.5.6)
pub const DW_FORM_addr: u64 = 0x01;

pub const DW_FORM_block2: u64 = 0x03;

pub const DW_FORM_block4: u64 = 0x04;

pub const DW_FORM_data2: u64 = 0x05;

pub const DW_FORM_data4: u64 = 0x06;

pub const DW_FORM_data8: u64 = 0x07;

pub const DW_FORM_string: u64 = 0x08;

pub const DW_FORM_block: u64 = 0x09;

pub const DW_FORM_block1: u64 = 0x0a;

pub const DW_FORM_data1: u64 = 0x0b;

pub const DW_FORM_flag: u64 = 0x0c;

pub const DW_FORM_sdata: u64 = 0x0d;

pub const DW_FORM_strp: u64 = 0x0e;

pub const DW_FORM_udata: u64 = 0x0f;

pub const DW_FORM_ref_addr: u64 = 0x10;

pub const DW_FORM_ref1: u64 = 0x11;

pub const DW_FORM_ref2: u64 = 0x12;

pub const DW_FORM_ref4: u64 = 0x13;

pub const DW_FORM_ref8: u64 = 0x14;

pub const DW_FORM_ref_udata: u64 = 0x15;

pub const DW_FORM_indirect: u64 = 0x16;

pub const DW_FORM_sec_offset: u64 = 0x17;

pub const DW_FORM_exprloc: u64 = 0x18;

pub const DW_FORM_flag_present: u64 = 0x19;

pub const DW_FORM_strx: u64 = 0x1a;

pub const DW_FORM_addrx: u64 = 0x1b;

pub const DW_FORM_ref_sup4: u64 = 0x1c;

pub const DW_FORM_strp_sup: u64 = 0x1d;

pub const DW_FORM_data16: u64 = 0x1e;

pub const DW_FORM_line_strp: u64 = 0x1f;

pub const DW_FORM_ref_sig8: u64 = 0x20;

pub const DW_FORM_implicit_const: u64 = 0x21;

pub const DW_FORM_loclistx: u64 = 0x22;

pub const DW_FORM_rnglistx: u64 = 0x23;

pub const DW_FORM_ref_sup8: u64 = 0x24;

pub const DW_FORM_strx1: u64 = 0x25;

pub const DW_FORM_strx2: u64 = 0x26;

pub const DW_FORM_strx3: u64 = 0x27;

pub const DW_FORM_strx4: u64 = 0x28;

pub const DW_FORM_addrx1: u64 = 0x29;

pub const DW_FORM_addrx2: u64 = 0x2a;

pub const DW_FORM_addrx3: u64 = 0x2b;

pub const DW_FORM_addrx4: u64 = 0x2c;
// of supplementary files before version 5
pub const DW_FORM_GNU_ref_alt: u64 = 0x1f20;

pub const DW_FORM_GNU_strp_alt: u64 = 0x1f21;

// languages (section 7.12)
pub const DW_LANG_C_plus_plus: u64 = 0x04;

pub const DW_LANG_C_plus_plus_03: u64 = 0x19;

pub const DW_LANG_C_plus_plus_11: u64 = 0x1a;

pub const DW_LANG_Rust: u64 = 0x1c;

pub const DW_LANG_C_plus_plus_14: u64 = 0x21;

pub const DW_LANG_C_plus_plus_17: u64 = 0x2a;

pub const DW_LANG_C_plus_plus_20: u64 = 0x2b;

// standard opcodes of line programs (section 7.22)
pub const DW_LNS_copy: u8 = 0x01;

pub const DW_LNS_advance_pc: u8 = 0x02;

pub const DW_LNS_advance_line: u8 = 0x03;

pub const DW_LNS_set_file: u8 = 0x04;

pub const DW_LNS_set_column: u8 = 0x05;

pub const DW_LNS_negate_stmt: u8 = 0x06;

pub const DW_LNS_set_basic_block: u8 = 0x07;

pub const DW_LNS_const_add_pc: u8 = 0x08;

pub const DW_LNS_fixed_advance_pc: u8 = 0x09;

pub const DW_LNS_set_prologue_end: u8 = 0x0a;

pub const DW_LNS_set_epilogue_begin: u8 = 0x0b;

pub const DW_LNS_set_isa: u8 = 0x0c;

// extended opcodes of line programs (section 7.22)
pub const DW_LNE_end_sequence: u8 = 0x01;

pub const DW_LNE_set_address: u8 = 0x02;

pub const DW_LNE_define_file: u8 = 0x03;

// contents of the tables of directories and files (section 7.22)
pub const DW_LNCT_path: u64 = 0x01;

pub const DW_LNCT_directory_index: u64 = 0x02;

// columns of the index of a package (section 7.3.5.3)
pub const DW_SECT_INFO: u32 = 1;

pub const DW_SECT_ABBREV: u32 = 3;

pub const DW_SECT_STR_OFFSETS: u32 = 6;

pub const DW_SECT_RNGLISTS: u32 = 8;

// entries of lists of ranges (section 7.25)
pub const DW_RLE_end_of_list: u8 = 0x00;

pub const DW_RLE_base_addressx: u8 = 0x01;

pub const DW_RLE_startx_endx: u8 = 0x02;

pub const DW_RLE_startx_length: u8 = 0x03;

pub const DW_RLE_offset_pair: u8 = 0x04;

pub const DW_RLE_base_address: u8 = 0x05;

pub const DW_RLE_start_end: u8 = 0x06;

pub const DW_RLE_start_length: u8 = 0x07;

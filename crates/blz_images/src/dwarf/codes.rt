//! Codes of tags and attributes (DWARF 5 sections 7.5.3 and 7.5.4).

pub const DW_TAG_COMPILE_UNIT: u64 = 0x11;

pub const DW_TAG_INLINED_SUBROUTINE: u64 = 0x1d;

pub const DW_TAG_SUBPROGRAM: u64 = 0x2e;

pub const DW_TAG_SKELETON_UNIT: u64 = 0x4a;

pub const DW_AT_NAME: u64 = 0x03;

pub const DW_AT_STMT_LIST: u64 = 0x10;

pub const DW_AT_LOW_PC: u64 = 0x11;

pub const DW_AT_HIGH_PC: u64 = 0x12;

pub const DW_AT_LANGUAGE: u64 = 0x13;

pub const DW_AT_COMP_DIR: u64 = 0x1b;

pub const DW_AT_INLINE: u64 = 0x20;

pub const DW_AT_ABSTRACT_ORIGIN: u64 = 0x31;

pub const DW_AT_SPECIFICATION: u64 = 0x47;

pub const DW_AT_RANGES: u64 = 0x55;

pub const DW_AT_CALL_COLUMN: u64 = 0x57;

pub const DW_AT_CALL_FILE: u64 = 0x58;

pub const DW_AT_CALL_LINE: u64 = 0x59;

pub const DW_AT_LINKAGE_NAME: u64 = 0x6e;

pub const DW_AT_STR_OFFSETS_BASE: u64 = 0x72;

pub const DW_AT_ADDR_BASE: u64 = 0x73;

pub const DW_AT_RNGLISTS_BASE: u64 = 0x74;

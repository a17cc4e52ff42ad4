//! ELF images for tests, in plain words: of both classes and in both byte orders. No crate of the product stands on it.
//!
//! An image is its header, the section headers, the bytes of the sections one after the other without gaps, and the
//! program headers. The sections are the null section, `.shstrtab`, `.symtab` and `.strtab` where there are symbols,
//! `.dynsym` and `.dynstr` where there are dynamic ones, and then the others in the order in which they were added.
#![tactic(auto)]

mod class;
pub mod dwarf;
mod image;
mod layout;
mod links;
mod one_section;
mod section;
mod segment;
mod strings;
mod symbol;
mod walk;
mod worked;
mod writer;

pub use blz_model::ByteOrder;
pub use class::Class;
pub use dwarf::attribute::{Attribute, Value};
pub use dwarf::debug_info::{DebugInfo, UnitKind};
pub use dwarf::debug_line::DebugLine;
pub use dwarf::package::{UnitIndex, package_of_unit};
pub use dwarf::tables::{
    INDEX_BASE, RANGE_LISTS_BASE, address_ranges, address_table, range_lists, range_pairs,
    string_offsets,
};
pub use image::Image;
pub use links::{build_id_note, debug_altlink, debug_link, debug_sup, note};
pub use one_section::{with_build_id, with_compressed_section, with_section};
pub use section::Section;
pub use segment::Segment;
pub use strings::Strings;
pub use symbol::Symbol;
pub use walk::realistic_walk;
pub use worked::{
    last_addresses, nested_functions, no_sections, same_start, sizeless_dynamic_symbol,
    sizeless_symbol, undefined_symbol_inside, with_nested_functions,
};
pub use writer::{Writer, patched, prefix};

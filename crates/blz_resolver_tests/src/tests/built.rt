//! Images with debug information, from lists of what their units hold.
use blz_images::{Attribute, ByteOrder, DebugInfo, DebugLine, UnitKind};
use std::alloc::{AllocError, Global};

/// An image or a section, or no memory for it.
pub type Built = Result<Vec<u8>, AllocError>;

/// The byte order of an image, and the version of its units.
pub type Format = (ByteOrder, u16);

/// Both byte orders, and all versions of units.
pub const FORMATS: [Format; 8] = [
    (ByteOrder::Little, 2),
    (ByteOrder::Little, 3),
    (ByteOrder::Little, 4),
    (ByteOrder::Little, 5),
    (ByteOrder::Big, 2),
    (ByteOrder::Big, 3),
    (ByteOrder::Big, 4),
    (ByteOrder::Big, 5),
];

/// Little-endian, with units of version 4.
pub const LITTLE4: Format = (ByteOrder::Little, 4);

/// What is written of a unit, one after the other.
#[derive(Clone, Copy)]
pub enum Step<'a> {
    /// The root of a unit at [low, low + size).
    Unit(u64, u32),
    /// A function of a name at [low, low + size).
    Function(&'a str, u64, u32),
    /// A function at [0x10, 0x20), whose name is that of another entry.
    FunctionOf(Attribute<'a>),
    /// An entry of a tag, without children.
    Entry(u64, &'a [Attribute<'a>]),
    /// An entry of a tag, whose children follow up to `Close`.
    Open(u64, &'a [Attribute<'a>]),
    Close,
    /// Bytes in place of an entry.
    Raw(&'a [u8]),
    /// The end of the root's children, and of the unit.
    EndUnit,
}

fn write(entries: &mut DebugInfo, step: &Step<'_>) -> Result<(), AllocError> {
    match step {
        Step::Unit(low, size) => entries.open_unit(*low, *size),
        Step::Function(name, low, size) => entries.function(name, *low, *size),
        Step::FunctionOf(origin) => entries.function_of(*origin, 0x10, 0x10),
        Step::Entry(tag, attributes) => entries.entry(*tag, attributes),
        Step::Open(tag, attributes) => entries.open(*tag, attributes),
        Step::Close => entries.close(),
        Step::Raw(bytes) => entries.raw(bytes),
        Step::EndUnit => entries.close_unit(),
    }
}

/// Units of a kind.
pub fn written(
    alloc: Global,
    format: Format,
    kind: UnitKind,
    steps: &[Step<'_>],
) -> Result<DebugInfo, AllocError> {
    let mut entries = DebugInfo::new(alloc, format.0, format.1);
    entries.of_kind(kind);
    for step in steps {
        write(&mut entries, step)?;
    }
    Ok(entries)
}

/// An image with whole units, and the sections of these names beside them.
pub fn image_of(
    alloc: Global,
    format: Format,
    steps: &[Step<'_>],
    sections: &[(&str, &[u8])],
) -> Built {
    let entries = written(alloc, format, UnitKind::Whole, steps)?;
    entries.image(alloc, sections)
}

/// `.debug_line` with files in the first directory; the opcodes begin at an address.
pub fn lines_of(
    alloc: Global,
    format: Format,
    directories: &[&str],
    files: &[&str],
    begin: u64,
    opcodes: &[u8],
) -> Built {
    let mut lines = DebugLine::new(alloc, format.0, format.1);
    for directory in directories {
        lines.directory(directory)?;
    }
    for file in files {
        lines.file(file, 0)?;
    }
    lines.set_address(begin)?;
    lines.raw(opcodes)?;
    lines.bytes()
}

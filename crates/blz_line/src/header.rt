//! Headers of line tables.
ghost use Rattle.std.specs.Prelude.{◌≡◌, ◌≤◌, ◌+◌, ◌-◌, length, IfSome, IfOk};
ghost use Rattle.blz_error.specs.declared.kind.ErrorKind.TheVariants.{InvalidDwarf};
ghost use Rattle.blz_model.specs.Part.{Gives, or_mark};
ghost use Rattle.blz_info.specs.Contents.{section_view, number_at, offset_len};
ghost use Rattle.blz_line.specs.Headers.{with_address_size, encoding_at, program_at, max_ops_at, signed_byte, is_usable, rules_at, usable_rules_at, paths_at, fields_at, header_at, rules_of};
ghost use Rattle.blz_line.specs.HeaderFacts.{IsInside, IsReady};
ghost use Rattle.blz_line.specs.UnitLines.{counts_of};

use crate::broken::broken;
use crate::formats::formatted_paths;
use crate::paths::{FileEntry, Paths, listed_paths};
use crate::rules::Rules;
use crate::table::Table;
use blz_bytes::{Room, piece_at, u8_at, u16_at};
use blz_entry::{Encoding, Section, Sections, Width, cut, extent_at, fixed_at};
use blz_error::Result;
use std::alloc::Global;

/// The header of a line table, with its tables of directories and files (DWARF 5 section 6.2.4).
#[derive(Drop)]
pub struct LineHeader {
    /// The version, 2 to 5.
    pub version: u16,
    /// The bytes of an address, 4 or 8.
    pub address_size: u8,
    /// Where the program begins in `.debug_line`.
    pub program: usize,
    /// Where the program ends.
    pub end: usize,
    /// The bytes of the smallest instruction.
    pub min_length: u8,
    /// The operations of an instruction, at most.
    pub max_ops: u8,
    /// What the least special opcode adds to the line.
    pub line_base: i8,
    /// The number of different additions to the line that special opcodes make.
    pub line_range: u8,
    /// The first special opcode.
    pub opcode_base: u8,
    // where the numbers of operands of the standard opcodes stand
    counts: usize,
    paths: Paths,
}

fn with_address_size(encoding: Encoding, at: usize) -> Option<(Encoding, usize)>
    ensures { result ≡ with_address_size encoding at }
{
    if encoding.address_size == 4 || encoding.address_size == 8 {
        Some((encoding, at))
    } else {
        None
    }
}

/// The version and the sizes.
#[tactic(auto, unfolding(crate::specs::Headers::encoding_at))]
fn encoding_at(
    wide: bool,
    address_size: u8,
    section: &Section<'_, '_>,
    at: usize,
) -> Option<(Encoding, usize)>
    ensures { result ≡ encoding_at wide address_size (section_view section.now) at }
{
    let (version, next) = u16_at(section.bytes, at, section.order)?;
    match version {
        5 => {
            let (address_size, next) = u8_at(section.bytes, next)?;
            let (selector_size, next) = u8_at(section.bytes, next)?;
            if selector_size != 0 {
                return None;
            }
            let encoding = Encoding {
                version,
                wide,
                address_size,
            };
            with_address_size(encoding, next)
        }
        2..=4 => {
            let encoding = Encoding {
                version,
                wide,
                address_size,
            };
            with_address_size(encoding, next)
        }
        _ => None,
    }
}

fn header_len_at(wide: bool, section: &Section<'_, '_>, at: usize) -> Option<(u64, usize)>
    ensures value { result ≡ number_at (offset_len wide) (section_view section.now) at }
    ensures within { IfSome result (λ r. r.1 ≤ length section.now.bytes.now) }
{
    if wide {
        fixed_at(Width::Eight, section, at)
    } else {
        fixed_at(Width::Four, section, at)
    }
}

/// Where the program begins, and the offset behind the header's length.
#[tactic(auto, unfolding(crate::specs::Headers::program_at))]
fn program_at(wide: bool, section: &Section<'_, '_>, at: usize) -> Option<(usize, usize)>
    ensures value { result ≡ program_at wide (section_view section.now) at }
    ensures within { IfSome result (λ r. r.0 ≤ length section.now.bytes.now) }
{
    let (len, next) = header_len_at(wide, section, at)?;
    if len > (section.bytes.len() - next) as u64 {
        return None;
    }
    Some((next + len as usize, next))
}

#[tactic(auto, unfolding(crate::specs::Headers::max_ops_at))]
fn max_ops_at(version: u16, section: &Section<'_, '_>, at: usize) -> Option<(u8, usize)>
    ensures { result ≡ max_ops_at version (section_view section.now) at }
{
    if version >= 4 {
        u8_at(section.bytes, at)
    } else {
        Some((1, at))
    }
}

fn signed_byte(byte: u8) -> i8
    ensures { result ≡ signed_byte byte }
{
    if byte < 128 {
        byte as i8
    } else {
        (i16::from(byte) - 256) as i8
    }
}

fn is_usable(rules: &Rules) -> bool
    ensures { result ≡ is_usable rules.now }
{
    rules.min_length != 0 && rules.max_ops != 0 && rules.line_range != 0 && rules.opcode_base != 0
}

#[tactic(auto, unfolding(crate::specs::Headers::rules_at))]
fn rules_at(encoding: Encoding, section: &Section<'_, '_>, at: usize) -> Option<(Rules, usize)>
    ensures { result ≡ rules_at encoding (section_view section.now) at }
{
    let bytes = section.bytes;
    let (min_length, next) = u8_at(bytes, at)?;
    let (max_ops, next) = max_ops_at(encoding.version, section, next)?;
    let (_default_is_stmt, next) = u8_at(bytes, next)?;
    let (line_base, next) = u8_at(bytes, next)?;
    let (line_range, next) = u8_at(bytes, next)?;
    let (opcode_base, next) = u8_at(bytes, next)?;
    let rules = Rules {
        version: encoding.version,
        address_size: encoding.address_size,
        min_length,
        max_ops,
        line_base: signed_byte(line_base),
        line_range,
        opcode_base,
    };
    Some((rules, next))
}

#[tactic(auto, unfolding(crate::specs::Headers::usable_rules_at))]
fn usable_rules_at(
    encoding: Encoding,
    section: &Section<'_, '_>,
    at: usize,
) -> Option<(Rules, usize)>
    ensures value { result ≡ usable_rules_at encoding (section_view section.now) at }
    ensures usable { IfSome result (λ r. IsReady r.0) }
{
    let (rules, next) = rules_at(encoding, section, at)?;
    if is_usable(&rules) {
        Some((rules, next))
    } else {
        None
    }
}

/// The tables of directories and files.
fn paths_at(
    alloc: Global,
    room: &mut Room,
    encoding: Encoding,
    section: &Section<'_, '_>,
    at: usize,
) -> Result<Paths>
    ensures { Gives (λ p. p) result
        (or_mark (paths_at encoding (section_view section.now) at) InvalidDwarf) }
{
    if encoding.version == 5 {
        formatted_paths(alloc, room, encoding, section, at)
    } else {
        listed_paths(alloc, room, section.bytes, at)
    }
}

/// What lies inside the header's length; the section ends where the program begins.
#[tactic(auto, unfolding(crate::specs::Headers::fields_at, blz_model::specs::Reads::passed_over))]
fn fields_at(
    alloc: Global,
    room: &mut Room,
    encoding: Encoding,
    program: usize,
    end: usize,
    section: &Section<'_, '_>,
    at: usize,
) -> Result<LineHeader>
    ensures value { Gives (λ h. h) result
        (or_mark (fields_at encoding program end (section_view section.now) at) InvalidDwarf) }
    ensures ready { IfOk result (λ h. IsReady (rules_of h)) }
    ensures offsets { IfOk result (λ h. (h.program ≡ program) × (h.end ≡ end)
        × (h.counts + (h.opcode_base - 1) ≤ length section.now.bytes.now)) }
{
    let Some((rules, counts)) = usable_rules_at(encoding, section, at) else {
        return Err(broken());
    };
    let Some((_, behind)) = piece_at(section.bytes, counts, usize::from(rules.opcode_base - 1))
    else {
        return Err(broken());
    };
    let paths = paths_at(alloc, room, encoding, section, behind)?;
    Ok(LineHeader {
        version: rules.version,
        address_size: rules.address_size,
        program,
        end,
        min_length: rules.min_length,
        max_ops: rules.max_ops,
        line_base: rules.line_base,
        line_range: rules.line_range,
        opcode_base: rules.opcode_base,
        counts,
        paths,
    })
}

/// The header at an offset of `.debug_line`. Its bytes and its entries take of the room.
#[tactic(auto, unfolding(crate::specs::Headers::header_at))]
pub(crate) fn header_at(
    alloc: Global,
    room: &mut Room,
    section: &Section<'_, '_>,
    at: usize,
    address_size: u8,
) -> Result<LineHeader>
    ensures value { Gives (λ h. h) result
        (or_mark (header_at (section_view section.now) at address_size) InvalidDwarf) }
    ensures ready { IfOk result (λ h. IsReady (rules_of h)) }
    ensures inside { IfOk result (λ h. IsInside h section.now.bytes.now) }
{
    let Some((extent, next)) = extent_at(section, at) else {
        return Err(broken());
    };
    let whole = cut(section, extent.end);
    let Some((encoding, next)) = encoding_at(extent.wide, address_size, &whole, next) else {
        return Err(broken());
    };
    let Some((program, next)) = program_at(extent.wide, &whole, next) else {
        return Err(broken());
    };
    room.take(program.saturating_sub(at) as u64)?;
    let header = cut(section, program);
    fields_at(alloc, room, encoding, program, extent.end, &header, next)
}

impl LineHeader {
    /// The header at an offset of `.debug_line`; before version 5 addresses have the given size. InvalidDwarf exactly
    /// where that is no header.
    pub fn parse(
        alloc: Global,
        sections: &Sections<'_, '_>,
        at: u64,
        address_size: u8,
    ) -> Result<LineHeader>
        ensures { Gives (λ h. h) result
            (or_mark (header_at (section_view sections.now.line) at address_size) InvalidDwarf) }
    {
        LineHeader::parse_within(alloc, &mut Room::endless(), sections, at, address_size)
    }

    /// The same, which takes what it reads and keeps of a file's room.
    pub fn parse_within(
        alloc: Global,
        room: &mut Room,
        sections: &Sections<'_, '_>,
        at: u64,
        address_size: u8,
    ) -> Result<LineHeader>
        ensures { Gives (λ h. h) result
            (or_mark (header_at (section_view sections.now.line) at address_size) InvalidDwarf) }
    {
        header_at(alloc, room, &sections.line, at as usize, address_size)
    }

    pub(crate) fn rules(&self) -> Rules
        ensures { result ≡ rules_of self.now }
    {
        Rules {
            version: self.version,
            address_size: self.address_size,
            min_length: self.min_length,
            max_ops: self.max_ops,
            line_base: self.line_base,
            line_range: self.line_range,
            opcode_base: self.opcode_base,
        }
    }

    /// The numbers of operands of the standard opcodes.
    pub(crate) fn counts<'b>(&self, section: &Section<'_, 'b>) -> &'b [u8]
        requires ready { IsReady (rules_of self.now) }
        requires inside { IsInside self.now section.now.bytes.now }
        ensures { result.now ≡ counts_of (section_view section.now) self.now }
    {
        &section.bytes[self.counts..self.counts + usize::from(self.opcode_base - 1)]
    }

    /// The tables of directories and files.
    pub(crate) fn into_paths(self) -> (Table<FileEntry>, Table<FileEntry>)
        ensures directories { result.0 ≡ self.paths.directories }
        ensures files { result.1 ≡ self.paths.files }
    {
        (self.paths.directories, self.paths.files)
    }
}

//! A package of split units (DWARF 5 section 7.3.5).
ghost use Rattle.std.specs.Prelude.{◌≡◌, ◌≤◌, ◌+◌, ◌<◌, length, None, Some, IfOk, IfSome, slice_range, codes, nat_le};
ghost use Rattle.blz_error.specs.declared.kind.ErrorKind.TheVariants.{InvalidDwarf};
ghost use Rattle.blz_model.specs.Part.{Exactly, or_mark};
ghost use Rattle.blz_image.specs.Images.{image_order, image_data_named};
ghost use Rattle.blz_info.specs.Contents.{section_view};
ghost use Rattle.blz_split.specs.Contributions.{index_tables, found_row, contribution};
ghost use Rattle.blz_info.specs.FileSections.{sections_view};
ghost use Rattle.blz_split.specs.SplitSections.{split_sections, piece_of};
ghost use Rattle.blz_split.specs.PackageParts.{package_view, package_of, package_size, row_pieces, unit_of_row, split_unit, PiecesFit, IfPiecesFit, Inside};
ghost use Rattle.blz_split.specs.IndexRows.{AreRowsOf};
ghost use Rattle.blz_split.specs.SectionNames.{name_of};
ghost use Rattle.blz_split.specs.TablesFit.{TablesFit};

use crate::dwo_section::DwoSection;
use crate::id_rows::IdRows;
use crate::split_unit::{Piece, SplitUnit};
use crate::tables::{Tables, index_tables};
use blz_constants::dwarf;
use blz_elf::ElfParser;
use blz_entry::{Section, Sections};
use blz_error::{Error, ErrorKind, Result, Str};
use blz_model::ByteOrder;
use blz_relocations::RelocationMap;
use std::alloc::{AllocError, Global};

/// The sections of a package, and its unit index.
#[derive(Clone, Copy)]
pub struct Package<'b> {
    abbrev: &'b [u8],
    index: &'b [u8],
    info: &'b [u8],
    rnglists: &'b [u8],
    strings: &'b [u8],
    str_offsets: &'b [u8],
    order: ByteOrder,
}

fn invalid(text: &'static str) -> Error
    ensures { result.kind ≡ InvalidDwarf }
{
    Error::new(ErrorKind::InvalidDwarf, Str::fixed(text))
}

fn part_of<'b>(bytes: &'b [u8], piece: &Piece) -> &'b [u8]
    requires { Inside piece.now bytes.now }
    ensures { result.now ≡ piece_of bytes.now piece.now }
{
    &bytes[piece.start..piece.start + piece.len]
}

// the byte order of an image that a parser stands for
fn order_of<'b>(parser: &mut ElfParser<'b>, image: &'b [u8]) -> Result<ByteOrder>
    requires { parser.old.image ≡ image.now }
    ensures value { Exactly (λ o. o) result (image_order image.now) }
    ensures same { parser.new ≡ parser.old }
{
    parser.order()
}

// the data of a section of an image that a parser stands for
fn data_of<'b>(parser: &mut ElfParser<'b>, image: &'b [u8], section: DwoSection) -> Result<&'b [u8]>
    requires { parser.old.image ≡ image.now }
    ensures value { Exactly (λ d. d.now) result (image_data_named image.now (name_of section)) }
    ensures same { parser.new ≡ parser.old }
{
    parser.data_named(section.name())
}

// the tables of an index, which has to have a value
fn tables_of(order: ByteOrder, index: &[u8]) -> Result<Tables>
    ensures value { Exactly (λ t. t) result (or_mark (index_tables order index.now) InvalidDwarf) }
    ensures fit { IfOk result (TablesFit (length index.now)) }
{
    match index_tables(order, index) {
        Some(tables) => Ok(tables),
        None => Err(invalid("the index of a package is not whole or not of a known version")),
    }
}

#[tactic(auto, unfolding(crate::specs::PackageParts::package_of))]
fn read<'b>(parser: &mut ElfParser<'b>, image: &'b [u8]) -> Result<Package<'b>>
    requires { parser.old.image ≡ image.now }
    ensures value { Exactly package_view result (package_of image.now) }
    ensures same { parser.new ≡ parser.old }
{
    let order = order_of(parser, image)?;
    let abbrev = data_of(parser, image, DwoSection::Abbrev)?;
    let index = data_of(parser, image, DwoSection::Index)?;
    let info = data_of(parser, image, DwoSection::Info)?;
    let rnglists = data_of(parser, image, DwoSection::RngLists)?;
    let strings = data_of(parser, image, DwoSection::Strings)?;
    let str_offsets = data_of(parser, image, DwoSection::StrOffsets)?;
    tables_of(order, index)?;
    Ok(Package {
        abbrev,
        index,
        info,
        rnglists,
        strings,
        str_offsets,
        order,
    })
}

impl<'b> Package<'b> {
    /// The package of an image. Refused by the first mark of header, section table, section names and the data of its
    /// sections in the order of their names; InvalidDwarf where its index has no value.
    pub fn load(parser: &mut ElfParser<'b>) -> Result<Package<'b>>
        ensures value { Exactly package_view result (package_of parser.old.image) }
        ensures same { parser.new ≡ parser.old }
    {
        let image = parser.image();
        read(parser, image)
    }

    /// How many bytes its sections have.
    pub fn size(&self) -> u128
        ensures { result ≡ package_size (package_view self.now) }
    {
        self.abbrev.len() as u128
            + self.index.len() as u128
            + self.info.len() as u128
            + self.rnglists.len() as u128
            + self.strings.len() as u128
            + self.str_offsets.len() as u128
    }

    /// The same package for as long as it is lent.
    pub fn lent<'u>(&'u self) -> Package<'u>
        ensures { result ≡ self.now }
    {
        Package {
            abbrev: self.abbrev,
            index: self.index,
            info: self.info,
            rnglists: self.rnglists,
            strings: self.strings,
            str_offsets: self.str_offsets,
            order: self.order,
        }
    }

    /// The whole data of `.debug_abbrev.dwo`.
    pub fn abbrev(&self) -> &'b [u8]
        ensures { result.now ≡ (package_view self.now).«abbrev» }
    {
        self.abbrev
    }

    /// The whole data of `.debug_info.dwo`.
    pub fn info(&self) -> &'b [u8]
        ensures { result.now ≡ (package_view self.now).info }
    {
        self.info
    }

    /// The whole data of `.debug_str.dwo`.
    pub fn strings(&self) -> &'b [u8]
        ensures { result.now ≡ (package_view self.now).strings }
    {
        self.strings
    }

    #[tactic(auto, unfolding(crate::specs::PackageParts::row_pieces))]
    fn row_pieces(&self, tables: &Tables, row: u32) -> Option<SplitUnit>
        requires fit { TablesFit (length self.now.index.now) tables.now }
        requires row { (0 < row) × (row ≤ tables.now.units) }
        ensures value { result ≡ row_pieces (package_view self.now) tables.now row }
        ensures fit { IfPiecesFit (package_view self.now) result }
    {
        let info = tables.contribution(
            self.order,
            self.index,
            row,
            dwarf::DW_SECT_INFO,
            self.info.len(),
        )?;
        let abbrev = tables.contribution(
            self.order,
            self.index,
            row,
            dwarf::DW_SECT_ABBREV,
            self.abbrev.len(),
        )?;
        let str_offsets = tables.contribution(
            self.order,
            self.index,
            row,
            dwarf::DW_SECT_STR_OFFSETS,
            self.str_offsets.len(),
        )?;
        let rnglists = tables.contribution(
            self.order,
            self.index,
            row,
            dwarf::DW_SECT_RNGLISTS,
            self.rnglists.len(),
        )?;
        Some(SplitUnit {
            info,
            abbrev,
            str_offsets,
            rnglists,
        })
    }

    /// The pieces of the unit whose row was found.
    fn unit_of_row(&self, tables: &Tables, row: Option<u32>) -> Result<Option<SplitUnit>>
        requires fit { TablesFit (length self.now.index.now) tables.now }
        requires row { IfSome row (λ r. 0 < r) }
        ensures value { Exactly (λ u. u) result
            (or_mark (unit_of_row (package_view self.now) tables.now row) InvalidDwarf) }
        ensures fit { IfOk result (IfPiecesFit (package_view self.now)) }
    {
        let Some(row) = row else {
            return Ok(None);
        };
        if row as usize > tables.units {
            return Err(invalid("a slot of the index of a package names a row that is not there"));
        }
        match self.row_pieces(tables, row) {
            Some(unit) => Ok(Some(unit)),
            None => Err(invalid("a contribution of a package passes its section")),
        }
    }

    /// The pieces of the split unit of an id: the first slot that has the id together with a row number that is not 0
    /// decides, and None exactly where there is no such slot. InvalidDwarf exactly where the row or one of its four
    /// contributions lies outside.
    #[tactic(auto, unfolding(crate::specs::PackageParts::split_unit))]
    pub fn find_cu(&self, id: u64) -> Result<Option<SplitUnit>>
        ensures value { Exactly (λ u. u) result
            (or_mark (split_unit (package_view self.now) id) InvalidDwarf) }
        ensures fit { IfOk result (IfPiecesFit (package_view self.now)) }
    {
        let tables = tables_of(self.order, self.index)?;
        self.unit_of_row(&tables, tables.find_row(self.order, self.index, id))
    }

    /// The rows of all ids, for many searches: one goes over half of the slots.
    pub fn rows(&self, alloc: Global) -> std::result::Result<IdRows, AllocError>
        ensures { IfOk result (AreRowsOf (package_view self.now)) }
    {
        match index_tables(self.order, self.index) {
            Some(tables) => IdRows::read(alloc, self.order, self.index, &tables),
            None => Ok(IdRows::new(alloc)),
        }
    }

    /// What `find_cu` gives, by the rows of all ids.
    #[tactic(auto, unfolding(crate::specs::PackageParts::split_unit))]
    pub fn find_by(&self, rows: &IdRows, id: u64) -> Result<Option<SplitUnit>>
        requires { AreRowsOf (package_view self.now) rows.now }
        ensures value { Exactly (λ u. u) result
            (or_mark (split_unit (package_view self.now) id) InvalidDwarf) }
        ensures fit { IfOk result (IfPiecesFit (package_view self.now)) }
    {
        let tables = tables_of(self.order, self.index)?;
        self.unit_of_row(&tables, rows.get(id))
    }

    /// The sections that a split unit is read from: its pieces and the strings of this package, and the addresses of the
    /// main file. `none` relocates nothing.
    pub fn sections<'s>(
        &self,
        unit: &SplitUnit,
        main: &Sections<'s, 'b>,
        none: &'s RelocationMap,
    ) -> Sections<'s, 'b>
        requires { PiecesFit (package_view self.now) unit.now }
        ensures { sections_view result
            ≡ split_sections (package_view self.now) unit.now (sections_view main.now) none.now }
    {
        Sections {
            abbrev: self.section(part_of(self.abbrev, &unit.abbrev), none),
            addr: main.addr,
            aranges: main.aranges,
            info: self.section(part_of(self.info, &unit.info), none),
            line: main.line,
            line_str: main.line_str,
            ranges: main.ranges,
            rnglists: self.section(part_of(self.rnglists, &unit.rnglists), none),
            strings: self.section(self.strings, none),
            str_offsets: self.section(part_of(self.str_offsets, &unit.str_offsets), none),
            sup_strings: main.sup_strings,
            shift: unit.info.start,
            split: true,
            sup: main.sup,
        }
    }

    fn section<'s>(&self, bytes: &'b [u8], relocations: &'s RelocationMap) -> Section<'s, 'b>
        ensures { section_view result
            ≡ record { bytes = bytes.now; relocations = relocations.now; order = self.now.order } }
    {
        Section {
            bytes,
            relocations,
            order: self.order,
        }
    }
}

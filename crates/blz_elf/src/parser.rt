//! One image, as it is asked.
ghost use Rattle.std.specs.Prelude.{◌≡◌, false, IfOk};
ghost use Rattle.std.specs.Option.{option_map};
ghost use Rattle.blz_model.specs.Part.{Exactly, Gives};
ghost use Rattle.blz_image.specs.Headers.{header_of};
ghost use Rattle.blz_image.specs.Formats.{section_size};
ghost use Rattle.blz_image.specs.Images.{elf_of, image_order, image_sections, image_section, image_section_data, image_data_named, image_holds_bytes, image_is_relocatable};
ghost use Rattle.blz_image.specs.Segments.{ComesBack, image_file_place, image_address_of};
ghost use Rattle.blz_symbols.specs.SymbolRule.{image_symbol};
ghost use Rattle.blz_elf.specs.AnswerView.{answer_view};
ghost use Rattle.blz_image.specs.Places.{RowsFit, sections_in};
ghost use Rattle.blz_image.specs.Views.{header_view};
ghost use Rattle.blz_image.specs.Frames.{FrameFits, frame_view};

mod headers;
mod listing;
mod naming;
mod prepared;
mod relocations;

use crate::answer::Answer;
use crate::fill::{fill_table, look, look_dynamic, sort_from_second};
use crate::opts::FindSymOpts;
use crate::warm::ElfWarm;
use blz_bytes::{ByteOrder, Orders};
use blz_error::{Error, Result, Str};
use blz_image::header::{Header, read_header};
use blz_image::image::{Frame, Image, read_frame};
use blz_image::record::Records;
use blz_image::section::{data_at, sections};
use blz_image::segments::{address_of, file_place, segments};
use blz_image::span::Rows;
use blz_image::symbols::TableKind;
use blz_model::Cache;
use std::alloc::Global;
use std::marker::Model;

/// One ELF image: its sections, and the symbols of its addresses. What was read is kept.
pub struct ElfParser<'b> {
    image: &'b [u8],
    module: Option<&'b str>,
    warm: ElfWarm,
}

// Written out, so that letting go of one is a call, which is proved once, and not a walk through it at each place.
impl<'b> Drop for ElfParser<'b> {
    fn drop(self) {
        let ElfParser {
            image: _,
            module: _,
            warm: _,
        } = self;
    }
}

impl<'b> Model for ElfParser<'b> {
    ghost use Rattle.std.specs.Option.{option_map};
    ghost use Rattle.blz_model.specs.Kept.{is_kept};
    ghost use Rattle.blz_elf.specs.Sources.{Source};
    ghost use Rattle.blz_elf.specs.Warm.{Fits};

    ghost Value = { Source };

    ghost view = { λ p. record { image = p.image.now; module_name = option_map (λ m. m.now) p.module; prepared = p.warm.prepared; relocated = is_kept p.warm.relocations } };

    ghost invariant = { λ p. Fits p.image.now p.warm };
}

impl<'b> ElfParser<'b> {
    /// A parser of an image, named `module` in its answers; reads nothing.
    pub fn from_mem(alloc: Global, image: &'b [u8], module: Option<&'b str>) -> ElfParser<'b>
        ensures image { result.image ≡ image.now }
        ensures module_name { result.module_name ≡ option_map (λ m. m.now) «module».entry }
        ensures prepared { result.prepared ≡ false }
        ensures relocated { result.relocated ≡ false }
    {
        let warm = ElfWarm {
            header: Cache::Empty,
            sections: Cache::Empty,
            frame: Cache::Empty,
            symtab: Cache::Empty,
            dynsym: Cache::Empty,
            symtab_names: Cache::Empty,
            dynsym_names: Cache::Empty,
            relocations: Cache::Empty,
            prepared: false,
            alloc,
        };
        ElfParser {
            image,
            module,
            warm,
        }
    }

    /// The name of the image in its answers.
    pub fn module(&self) -> Option<&'b str>
        ensures { option_map (λ m. m.now) result ≡ self.now.module_name }
    {
        self.module
    }

    /// The bytes of the image.
    pub fn image(&self) -> &'b [u8]
        ensures { result.now ≡ self.now.image }
    {
        self.image
    }

    /// Whether `prepare` has filled each cache.
    pub fn is_prepared(&self) -> bool
        ensures { result ≡ self.now.prepared }
    {
        self.warm.prepared
    }

    /// Whether `fill_relocations` has read the relocations.
    pub fn is_relocated(&self) -> bool
        ensures { result ≡ self.now.relocated }
    {
        !matches!(&self.warm.relocations, Cache::Empty)
    }

    /// The byte order of the image; refused by the first mark of the header.
    #[tactic(auto, unfolding(blz_image::specs::Images::image_order))]
    pub fn order(&mut self) -> Result<ByteOrder>
        ensures value { Exactly (λ o. o) result (image_order self.old.image) }
        ensures same { self.new ≡ self.old }
    {
        let header = self.header()?;
        Ok(header.format.order)
    }

    /// The header.
    fn header(&mut self) -> Result<Header>
        ensures value { Exactly header_view result (header_of self.old.image) }
        ensures same { self.new ≡ self.old }
    {
        match &self.warm.header {
            Cache::Value(header) => Ok(*header),
            Cache::Mark(kind) => Err(Error::new(*kind, Str::fixed("header"))),
            Cache::Empty => match read_header(self.image) {
                Ok(header) => {
                    self.warm.header = Cache::Value(header);
                    Ok(header)
                },
                Err(e) => {
                    self.warm.header = Cache::Mark(e.kind());
                    Err(e)
                },
            },
        }
    }

    #[tactic(auto, unfolding(blz_image::specs::Images::image_sections))]
    fn rows(&mut self) -> Result<Rows>
        ensures value { Exactly (sections_in self.old.image) result
            (image_sections self.old.image) }
        ensures fits { IfOk result (RowsFit section_size self.old.image) }
        ensures same { self.new ≡ self.old }
    {
        match &self.warm.sections {
            Cache::Value(rows) => Ok(*rows),
            Cache::Mark(kind) => Err(Error::new(*kind, Str::fixed("section table"))),
            Cache::Empty => {
                let header = self.header();
                let read = match &header {
                    Ok(header) => sections(self.image, header),
                    Err(e) => Err(Error::new(e.kind(), Str::fixed("header"))),
                };
                match read {
                    Ok(rows) => {
                        self.warm.sections = Cache::Value(rows);
                        Ok(rows)
                    },
                    Err(e) => {
                        self.warm.sections = Cache::Mark(e.kind());
                        Err(e)
                    },
                }
            },
        }
    }

    #[tactic(auto, unfolding(blz_image::specs::Images::elf_of, blz_image::specs::Images::image_sections))]
    fn read_frame(&mut self) -> Result<Frame>
        ensures value { Exactly (frame_view self.old.image) result (elf_of self.old.image) }
        ensures fits { IfOk result (FrameFits self.old.image) }
        ensures same { self.new ≡ self.old }
    {
        let header = self.header()?;
        let rows = self.rows()?;
        read_frame(self.image, header, rows)
    }

    fn frame(&mut self) -> Result<Frame>
        ensures value { Exactly (frame_view self.old.image) result (elf_of self.old.image) }
        ensures fits { IfOk result (FrameFits self.old.image) }
        ensures same { self.new ≡ self.old }
    {
        match &self.warm.frame {
            Cache::Value(frame) => Ok(*frame),
            Cache::Mark(kind) => Err(Error::new(*kind, Str::fixed("names"))),
            Cache::Empty => match self.read_frame() {
                Ok(frame) => {
                    self.warm.frame = Cache::Value(frame);
                    Ok(frame)
                },
                Err(e) => {
                    self.warm.frame = Cache::Mark(e.kind());
                    Err(e)
                },
            },
        }
    }

    /// The image as it was read, with its names.
    fn parts(&mut self) -> Result<Image<'b>>
        ensures value { Exactly (λ e. e) result (elf_of self.old.image) }
        ensures bytes { IfOk result (λ e. e.image ≡ self.old.image) }
        ensures same { self.new ≡ self.old }
    {
        let frame = self.frame()?;
        Ok(Image::open(self.image, frame))
    }

    /// The index of the first section of that name, from 1 up (ELF gABI, Sections). Refused by the first mark of
    /// header, section table and section names: InvalidData, InvalidInput or Unsupported.
    #[tactic(auto, unfolding(blz_image::specs::Images::image_section))]
    pub fn find_section(&mut self, name: &str) -> Result<Option<usize>>
        ensures value { Exactly (λ i. i) result (image_section self.old.image name.now) }
        ensures same { self.new ≡ self.old }
    {
        let parts = self.parts()?;
        Ok(parts.find(name))
    }

    /// The data of the section at an index (ELF gABI, Sections), nothing of a NOBITS one. InvalidInput where the index
    /// lies outside the table, InvalidData where the bytes lie past the image, Unsupported where they are compressed.
    #[tactic(auto, unfolding(blz_image::specs::Images::image_section_data, blz_image::specs::Images::image_sections))]
    pub fn section_data(&mut self, idx: usize) -> Result<&'b [u8]>
        ensures value { Exactly (λ d. d.now) result (image_section_data self.old.image idx) }
        ensures same { self.new ≡ self.old }
    {
        let header = self.header()?;
        let rows = self.rows()?;
        data_at(self.image, header, rows, idx)
    }

    /// The data of the first section of that name, nothing where there is none; refused as `find_section` and
    /// `section_data` are.
    #[tactic(auto, unfolding(blz_image::specs::Images::image_data_named))]
    pub fn data_named(&mut self, name: &str) -> Result<&'b [u8]>
        ensures value { Exactly (λ d. d.now) result (image_data_named self.old.image name.now) }
        ensures same { self.new ≡ self.old }
    {
        self.parts()?.data_named(name)
    }

    /// Whether a section of that name is there, not NOBITS, and of a size that is not 0; refused as `find_section` is.
    #[tactic(auto, unfolding(blz_image::specs::Images::image_holds_bytes))]
    pub fn holds_bytes(&mut self, name: &str) -> Result<bool>
        ensures value { Exactly (λ b. b) result (image_holds_bytes self.old.image name.now) }
        ensures same { self.new ≡ self.old }
    {
        Ok(self.parts()?.holds_bytes(name))
    }

    /// Whether the image is a relocatable file; refused as `find_section` is.
    #[tactic(auto, unfolding(blz_image::specs::Images::image_is_relocatable))]
    pub fn is_relocatable(&mut self) -> Result<bool>
        ensures value { Exactly (λ b. b) result (image_is_relocatable self.old.image) }
        ensures same { self.new ≡ self.old }
    {
        Ok(self.parts()?.is_relocatable())
    }

    /// The place in the file of `size` bytes at an address (ELF gABI, Program Header): by the first loaded segment that
    /// holds the address; none where no segment does. Where no two loaded segments share a place in the file, the place of
    /// some bytes leads back to the address. Refused by the first mark of header and segments: InvalidData or Unsupported.
    #[tactic(auto, unfolding(blz_image::specs::Segments::image_file_place, blz_image::specs::Segments::image_segments))]
    pub fn find_file_offset(&mut self, addr: u64, size: u64) -> Result<Option<u64>>
        ensures value { Exactly (λ o. o) result (image_file_place self.old.image addr size) }
        ensures round_trip { IfOk result (ComesBack self.old.image addr size) }
        ensures same { self.new ≡ self.old }
    {
        let header = self.header()?;
        let rows = segments(self.image, &header)?;
        Ok(file_place(&Records::open(self.image, rows), addr, size))
    }

    /// The address of a place in the file, by the first loaded segment that holds it; none where no segment does.
    /// Refused as `find_file_offset` is.
    #[tactic(auto, unfolding(blz_image::specs::Segments::image_address_of, blz_image::specs::Segments::image_segments))]
    pub fn file_offset_to_virt_offset(&mut self, offset: u64) -> Result<Option<u64>>
        ensures value { Exactly (λ o. o) result (image_address_of self.old.image offset) }
        ensures same { self.new ≡ self.old }
    {
        let header = self.header()?;
        let rows = segments(self.image, &header)?;
        Ok(address_of(&Records::open(self.image, rows), offset))
    }

    /// The symbol of an address: of the symbols with the greatest value up to it, the largest that is defined and covers
    /// it (ELF gABI, Symbol Table). The first that is asked is found by a scan, and from the second on by the order. Refused
    /// as `find_section` is, and by a broken table or name of that symbol.
    #[tactic(auto, unfolding(blz_symbols::specs::SymbolRule::image_symbol, blz_symbols::specs::SymbolRule::symbol_for, blz_image::specs::SymbolTables::image_table))]
    pub fn find_sym<O: Orders>(
        &mut self,
        alloc: Global,
        orders: &mut O,
        addr: u64,
        opts: &FindSymOpts,
    ) -> Result<Answer<'b>>
        ensures value { Gives answer_view result
            (image_symbol self.old.image self.old.module_name addr) }
        ensures same { self.new ≡ self.old }
    {
        let parts = self.parts()?;
        fill_table(&mut self.warm.symtab, &parts, TableKind::Symtab);
        sort_from_second(
            alloc,
            orders,
            self.image,
            TableKind::Symtab,
            &mut self.warm.symtab,
        )?;
        let found = look(
            alloc,
            self.module,
            &parts,
            TableKind::Symtab,
            &self.warm.symtab,
            addr,
        )?;
        if let Some(answer) = found {
            return Ok(answer);
        }
        fill_table(&mut self.warm.dynsym, &parts, TableKind::Dynsym);
        sort_from_second(
            alloc,
            orders,
            self.image,
            TableKind::Dynsym,
            &mut self.warm.dynsym,
        )?;
        look_dynamic(
            alloc,
            self.module,
            &parts,
            &self.warm.symtab,
            &self.warm.dynsym,
            addr,
        )
    }
}

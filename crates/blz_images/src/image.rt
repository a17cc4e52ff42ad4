//! An image that is made of its symbols, sections and segments.
use crate::layout::Layout;
use crate::strings::Strings;
use crate::{ByteOrder, Class, Section, Segment, Symbol, Writer};
use std::alloc::{AllocError, Global};

/// SHT_SYMTAB.
const SYMBOLS: u32 = 2;

/// SHT_STRTAB.
const STRINGS: u32 = 3;

/// SHT_DYNSYM.
const DYNAMIC_SYMBOLS: u32 = 11;

/// An executable image in plain words, as `Image::elf64(alloc).symbol("A", 0, 100)?.bytes()?`. With no symbols and no
/// sections it has no section table.
#[derive(Drop)]
pub struct Image<'a> {
    alloc: Global,
    class: Class,
    order: ByteOrder,
    file_type: u16,
    symbols: Vec<Symbol<'a>>,
    dynamic_symbols: Vec<Symbol<'a>>,
    sections: Vec<Section<'a>>,
    segments: Vec<Segment>,
}

impl<'a> Image<'a> {
    /// An image of 64 bits in little-endian order.
    pub fn elf64(alloc: Global) -> Image<'a> {
        Image::of_class(alloc, Class::Elf64)
    }

    /// An image of 32 bits in little-endian order.
    pub fn elf32(alloc: Global) -> Image<'a> {
        Image::of_class(alloc, Class::Elf32)
    }

    /// An image of a class in little-endian order.
    pub fn of_class(alloc: Global, class: Class) -> Image<'a> {
        Image {
            alloc,
            class,
            order: ByteOrder::Little,
            file_type: 2,
            symbols: Vec::new(alloc),
            dynamic_symbols: Vec::new(alloc),
            sections: Vec::new(alloc),
            segments: Vec::new(alloc),
        }
    }

    /// Writes the greatest byte of each number first.
    pub fn big_endian(self) -> Image<'a> {
        self.in_order(ByteOrder::Big)
    }

    /// Writes the numbers in an order.
    pub fn in_order(self, order: ByteOrder) -> Image<'a> {
        let mut image = self;
        image.order = order;
        image
    }

    /// Sets the type of the file: 1 for a relocatable one, 2 for an executable one, 3 for a shared one.
    pub fn file_type(self, file_type: u16) -> Image<'a> {
        let mut image = self;
        image.file_type = file_type;
        image
    }

    /// Adds a function to `.symtab`.
    pub fn symbol(self, name: &'a str, start: u64, size: u64) -> Result<Image<'a>, AllocError> {
        self.add_symbol(Symbol::function(name, start, size))
    }

    /// Adds an undefined function to `.symtab`.
    pub fn undefined_symbol(
        self,
        name: &'a str,
        start: u64,
        size: u64,
    ) -> Result<Image<'a>, AllocError> {
        self.add_symbol(Symbol::function(name, start, size).undefined())
    }

    /// Adds a function to `.dynsym`.
    pub fn dynamic_symbol(
        self,
        name: &'a str,
        start: u64,
        size: u64,
    ) -> Result<Image<'a>, AllocError> {
        self.add_dynamic_symbol(Symbol::function(name, start, size))
    }

    /// Adds a symbol to `.symtab`.
    pub fn add_symbol(mut self, symbol: Symbol<'a>) -> Result<Image<'a>, AllocError> {
        self.symbols.push(symbol)?;
        Ok(self)
    }

    /// Adds a symbol to `.dynsym`.
    pub fn add_dynamic_symbol(mut self, symbol: Symbol<'a>) -> Result<Image<'a>, AllocError> {
        self.dynamic_symbols.push(symbol)?;
        Ok(self)
    }

    /// Adds a section of a type, with its bytes.
    pub fn section(
        self,
        name: &'a str,
        kind: u32,
        bytes: &'a [u8],
    ) -> Result<Image<'a>, AllocError> {
        self.add_section(Section::new(name, kind, bytes))
    }

    /// Adds a section.
    pub fn add_section(mut self, section: Section<'a>) -> Result<Image<'a>, AllocError> {
        self.sections.push(section)?;
        Ok(self)
    }

    /// Adds a segment that is loaded.
    pub fn segment(
        self,
        address: u64,
        offset: u64,
        file_size: u64,
    ) -> Result<Image<'a>, AllocError> {
        self.add_segment(Segment {
            kind: 1,
            offset,
            address,
            file_size,
        })
    }

    /// Adds a segment.
    pub fn add_segment(mut self, segment: Segment) -> Result<Image<'a>, AllocError> {
        self.segments.push(segment)?;
        Ok(self)
    }

    /// The bytes of the image.
    pub fn bytes(&self) -> Result<Vec<u8>, AllocError> {
        let mut out = Writer::new(self.alloc, self.class, self.order);
        let headers = self.class.header_size() as u64;
        if self.symbols.is_empty() && self.dynamic_symbols.is_empty() && self.sections.is_empty() {
            self.write_header(&mut out, 0, 0, headers)?;
        } else {
            let layout = self.layout()?;
            self.write_header(&mut out, headers, self.section_count(), layout.end())?;
            layout.write(&mut out)?;
        }
        for segment in &self.segments {
            segment.write(&mut out)?;
        }
        Ok(out.into_bytes())
    }

    // the sections beside the null section and `.shstrtab`, and these two
    fn section_count(&self) -> u16 {
        let own = u16::try_from(self.sections.len()).unwrap_or(0);
        let symbols = if self.symbols.is_empty() { 2 } else { 4 };
        let dynamic_symbols = if self.dynamic_symbols.is_empty() {
            0
        } else {
            2
        };
        own.saturating_add(symbols + dynamic_symbols)
    }

    // the names of all sections, in order
    fn section_names(&self) -> Result<Strings, AllocError> {
        let mut names = Strings::new(self.alloc)?;
        names.put(".shstrtab")?;
        if !self.symbols.is_empty() {
            names.put(".symtab")?;
            names.put(".strtab")?;
        }
        if !self.dynamic_symbols.is_empty() {
            names.put(".dynsym")?;
            names.put(".dynstr")?;
        }
        for section in &self.sections {
            names.put(section.name)?;
        }
        Ok(names)
    }

    // all sections, in order
    fn layout(&self) -> Result<Layout, AllocError> {
        let count = self.section_count();
        let mut layout = Layout::new(self.alloc, self.class, self.order, count)?;
        let names = self.section_names()?;
        layout.add(&Section::new(".shstrtab", STRINGS, names.bytes()))?;
        let mut strings = 3;
        if !self.symbols.is_empty() {
            let symtab = Section::new(".symtab", SYMBOLS, b"").linked(strings, 1);
            self.add_table(&mut layout, &self.symbols, symtab, ".strtab")?;
            strings = 5;
        }
        if !self.dynamic_symbols.is_empty() {
            let dynsym = Section::new(".dynsym", DYNAMIC_SYMBOLS, b"").linked(strings, 1);
            self.add_table(&mut layout, &self.dynamic_symbols, dynsym, ".dynstr")?;
        }
        for section in &self.sections {
            layout.add(section)?;
        }
        Ok(layout)
    }

    // a section of symbols, and behind it the one of their names
    fn add_table(
        &self,
        layout: &mut Layout,
        symbols: &[Symbol<'a>],
        section: Section<'_>,
        names: &str,
    ) -> Result<(), AllocError> {
        let table = self.table(symbols)?;
        let records = Section {
            entry_size: self.class.symbol_size() as u64,
            bytes: table.records.bytes(),
            ..section
        };
        layout.add(&records)?;
        layout.add(&Section::new(names, STRINGS, table.names.bytes()))
    }

    // the records of some symbols behind the null symbol, and their names
    fn table(&self, symbols: &[Symbol<'a>]) -> Result<SymbolTable, AllocError> {
        let mut records = Writer::new(self.alloc, self.class, self.order);
        let mut names = Strings::new(self.alloc)?;
        records.zeros(self.class.symbol_size())?;
        for symbol in symbols {
            let name = names.put(symbol.name)?;
            symbol.write(&mut records, name)?;
        }
        Ok(SymbolTable { records, names })
    }

    // the file header, with the places of the section headers and the program headers
    fn write_header(
        &self,
        out: &mut Writer,
        sections: u64,
        count: u16,
        segments: u64,
    ) -> Result<(), AllocError> {
        out.raw(b"\x7fELF")?;
        out.u8(self.class.number())?;
        out.u8(match self.order {
            ByteOrder::Little => 1,
            ByteOrder::Big => 2,
        })?;
        out.u8(1)?;
        out.zeros(9)?;
        out.u16(self.file_type)?;
        out.u16(62)?;
        out.u32(1)?;
        out.word(0)?;
        out.word(if self.segments.is_empty() {
            0
        } else {
            segments
        })?;
        out.word(sections)?;
        out.u32(0)?;
        out.u16(self.class.header_size())?;
        out.u16(self.class.segment_size())?;
        out.u16(u16::try_from(self.segments.len()).unwrap_or(0))?;
        out.u16(self.class.section_size())?;
        out.u16(count)?;
        out.u16(if count == 0 { 0 } else { 1 })
    }
}

// the bytes of `.symtab` and `.strtab`, or of `.dynsym` and `.dynstr`
#[derive(Drop)]
struct SymbolTable {
    records: Writer,
    names: Strings,
}

//! A line table.
use crate::{ByteOrder, Class, Writer};
use std::alloc::{AllocError, Global};

/// The opcodes with an operand or without, and how many operands each has (DWARF 5 section 6.2.5.2).
const OPERAND_COUNTS: [u8; 12] = [0, 1, 1, 1, 1, 0, 0, 0, 1, 0, 0, 1];

// where the paths of a table of version 5 stand
#[derive(Clone, Copy)]
enum Paths {
    Inline,
    LineStrings,
}

impl Paths {
    // DW_FORM_string, or DW_FORM_line_strp
    fn form(self) -> u8 {
        match self {
            Paths::Inline => 0x08,
            Paths::LineStrings => 0x1f,
        }
    }
}

/// The bytes of one line table in `.debug_line`, in 32-bit DWARF with addresses of 64 bits: directories, files, and the
/// opcodes that make its rows (DWARF 5 section 6.2). Instructions are of one byte.
#[derive(Drop)]
pub struct DebugLine {
    alloc: Global,
    order: ByteOrder,
    version: u16,
    paths: Paths,
    directories: Writer,
    directory_count: u64,
    files: Writer,
    file_count: u64,
    program: Writer,
}

impl DebugLine {
    /// No directory, no file and no row.
    pub fn new(alloc: Global, order: ByteOrder, version: u16) -> DebugLine {
        DebugLine::with_paths(alloc, order, version, Paths::Inline)
    }

    /// The same in version 5, with paths that stand in `.debug_line_str`.
    pub fn with_line_strings(alloc: Global, order: ByteOrder) -> DebugLine {
        DebugLine::with_paths(alloc, order, 5, Paths::LineStrings)
    }

    fn with_paths(alloc: Global, order: ByteOrder, version: u16, paths: Paths) -> DebugLine {
        DebugLine {
            alloc,
            order,
            version,
            paths,
            directories: Writer::new(alloc, Class::Elf64, order),
            directory_count: 0,
            files: Writer::new(alloc, Class::Elf64, order),
            file_count: 0,
            program: Writer::new(alloc, Class::Elf64, order),
        }
    }

    /// Adds a directory: in version 5 the first is that of the unit.
    pub fn directory(&mut self, name: &str) -> Result<(), AllocError> {
        self.directory_count = self.directory_count.saturating_add(1);
        self.directories.text(name)
    }

    /// Adds a file of a directory: in version 5 the first has number 0, before number 1.
    pub fn file(&mut self, name: &str, directory: u64) -> Result<(), AllocError> {
        self.file_count = self.file_count.saturating_add(1);
        self.files.text(name)?;
        self.files.uleb(directory)?;
        if self.version < 5 {
            // neither time nor length
            self.files.u16(0)?;
        }
        Ok(())
    }

    /// Adds a directory whose name stands at an offset in `.debug_line_str`.
    pub fn directory_at(&mut self, offset: u32) -> Result<(), AllocError> {
        self.directory_count = self.directory_count.saturating_add(1);
        self.directories.u32(offset)
    }

    /// Adds a file whose name stands at an offset in `.debug_line_str`.
    pub fn file_at(&mut self, offset: u32, directory: u64) -> Result<(), AllocError> {
        self.file_count = self.file_count.saturating_add(1);
        self.files.u32(offset)?;
        self.files.uleb(directory)
    }

    /// Begins a sequence at an address.
    pub fn set_address(&mut self, address: u64) -> Result<(), AllocError> {
        self.program.raw(&[0, 9, 2])?;
        self.program.u64(address)
    }

    /// Goes on by a number of bytes.
    pub fn advance(&mut self, bytes: u64) -> Result<(), AllocError> {
        self.program.u8(2)?;
        self.program.uleb(bytes)
    }

    /// Goes on by a number of lines, fewer than 64.
    pub fn advance_line(&mut self, lines: u8) -> Result<(), AllocError> {
        self.program.raw(&[3, lines % 64])
    }

    /// The file of the next rows.
    pub fn set_file(&mut self, file: u64) -> Result<(), AllocError> {
        self.program.u8(4)?;
        self.program.uleb(file)
    }

    /// The column of the next rows.
    pub fn set_column(&mut self, column: u64) -> Result<(), AllocError> {
        self.program.u8(5)?;
        self.program.uleb(column)
    }

    /// A row.
    pub fn row(&mut self) -> Result<(), AllocError> {
        self.program.u8(1)
    }

    /// Ends the sequence.
    pub fn end_sequence(&mut self) -> Result<(), AllocError> {
        self.program.raw(&[0, 1, 1])
    }

    /// Opcodes as they are.
    pub fn raw(&mut self, opcodes: &[u8]) -> Result<(), AllocError> {
        self.program.raw(opcodes)
    }

    /// The bytes of the table.
    pub fn bytes(&self) -> Result<Vec<u8>, AllocError> {
        let rest = self.after_header_length()?;
        let mut table = self.writer();
        table.u16(self.version)?;
        if self.version >= 5 {
            table.raw(&[8, 0])?;
        }
        table.u32(u32::try_from(rest.len()).unwrap_or(0))?;
        table.raw(rest.bytes())?;
        table.raw(self.program.bytes())?;
        let mut out = self.writer();
        out.u32(u32::try_from(table.len()).unwrap_or(0))?;
        out.raw(table.bytes())?;
        Ok(out.into_bytes())
    }

    // the header behind the field that tells its length
    fn after_header_length(&self) -> Result<Writer, AllocError> {
        let mut header = self.writer();
        header.u8(1)?;
        if self.version >= 4 {
            header.u8(1)?;
        }
        // rows are statements; line base -5, line range 14, opcode base 13
        header.raw(&[1, 0xfb, 14, 13])?;
        header.raw(&OPERAND_COUNTS)?;
        if self.version >= 5 {
            let path = self.paths.form();
            // the path
            header.raw(&[1, 1, path])?;
            header.uleb(self.directory_count)?;
            header.raw(self.directories.bytes())?;
            // the path, and the number of the directory
            header.raw(&[2, 1, path, 2, 15])?;
            header.uleb(self.file_count)?;
            header.raw(self.files.bytes())?;
        } else {
            header.raw(self.directories.bytes())?;
            header.u8(0)?;
            header.raw(self.files.bytes())?;
            header.u8(0)?;
        }
        Ok(header)
    }

    fn writer(&self) -> Writer {
        Writer::new(self.alloc, Class::Elf64, self.order)
    }
}

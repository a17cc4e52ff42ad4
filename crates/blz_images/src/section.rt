//! A section of an image.

/// A section: its name, the fields of its header and its bytes (ELF gABI, Sections).
#[derive(Clone, Copy)]
pub struct Section<'a> {
    pub name: &'a str,
    pub kind: u32,
    pub flags: u64,
    pub address: u64,
    pub link: u32,
    pub info: u32,
    pub entry_size: u64,
    pub bytes: &'a [u8],
}

impl<'a> Section<'a> {
    /// A section with no flags, no address, and no link.
    pub fn new(name: &'a str, kind: u32, bytes: &'a [u8]) -> Section<'a> {
        Section {
            name,
            kind,
            flags: 0,
            address: 0,
            link: 0,
            info: 0,
            entry_size: 0,
            bytes,
        }
    }

    /// Sets the flags.
    pub fn with_flags(mut self, flags: u64) -> Section<'a> {
        self.flags = flags;
        self
    }

    /// Sets the address.
    pub fn at_address(mut self, address: u64) -> Section<'a> {
        self.address = address;
        self
    }

    /// Sets the numbers of the sections that it belongs to, as relocations have them: the symbols, and the target.
    pub fn linked(mut self, link: u32, info: u32) -> Section<'a> {
        self.link = link;
        self.info = info;
        self
    }

    /// Sets the size of its entries, where it has some of one size.
    pub fn of_entries(mut self, entry_size: u64) -> Section<'a> {
        self.entry_size = entry_size;
        self
    }
}

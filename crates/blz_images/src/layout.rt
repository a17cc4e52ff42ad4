//! Where the sections of an image lie.
use crate::strings::Strings;
use crate::{ByteOrder, Class, Section, Writer};
use std::alloc::{AllocError, Global};

/// The section headers, and the bytes of the sections behind them.
#[derive(Drop)]
pub(crate) struct Layout {
    // where the bytes begin
    start: u64,
    // the names so far, by which a header has the place of its own
    names: Strings,
    headers: Writer,
    data: Writer,
}

impl Layout {
    // with room for that many headers, of which that of the null section is written
    pub(crate) fn new(
        alloc: Global,
        class: Class,
        order: ByteOrder,
        count: u16,
    ) -> Result<Layout, AllocError> {
        let table = count as u64 * class.section_size() as u64;
        let mut headers = Writer::new(alloc, class, order);
        headers.zeros(class.section_size())?;
        Ok(Layout {
            start: class.header_size() as u64 + table,
            names: Strings::new(alloc)?,
            headers,
            data: Writer::new(alloc, class, order),
        })
    }

    // the next section
    pub(crate) fn add(&mut self, section: &Section<'_>) -> Result<(), AllocError> {
        let name = self.names.put(section.name)?;
        let offset = self.start.saturating_add(self.data.len());
        self.headers.u32(name)?;
        self.headers.u32(section.kind)?;
        self.headers.word(section.flags)?;
        self.headers.word(section.address)?;
        self.headers.word(offset)?;
        self.headers.word(section.bytes.len() as u64)?;
        self.headers.u32(section.link)?;
        self.headers.u32(section.info)?;
        self.headers.word(1)?;
        self.headers.word(section.entry_size)?;
        self.data.raw(section.bytes)
    }

    // where the bytes end
    pub(crate) fn end(&self) -> u64 {
        self.start.saturating_add(self.data.len())
    }

    pub(crate) fn write(&self, out: &mut Writer) -> Result<(), AllocError> {
        out.raw(self.headers.bytes())?;
        out.raw(self.data.bytes())
    }
}

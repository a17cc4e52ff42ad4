//! The line programs of all units of a file.
use crate::debug_sections::{root_of, sections_of, units_of};
use blz_bytes::ByStdSort;
use blz_error::Result;
use blz_line::Lines;
use blz_relocations::RelocationMap;
use std::alloc::Global;

/// How much some line programs give.
#[derive(Clone, Copy)]
pub struct LineCounts {
    /// The units that have a line program.
    pub units: u64,
    pub sequences: u64,
    pub rows: u64,
}

impl LineCounts {
    // These, and those of one unit more.
    fn with(self, lines: &Lines) -> LineCounts {
        let sequences = lines.sequences();
        let mut rows = self.rows;
        for sequence in sequences {
            rows = rows.saturating_add(sequence.rows().len() as u64);
        }
        LineCounts {
            units: self.units.saturating_add(1),
            sequences: self.sequences.saturating_add(sequences.len() as u64),
            rows,
        }
    }
}

/// Runs the line programs of all units.
pub fn count_lines(alloc: Global, image: &[u8]) -> Result<LineCounts> {
    let none = RelocationMap::new(alloc);
    let sections = sections_of(alloc, image, &none)?;
    let units = units_of(alloc, sections.info)?;
    let mut counts = LineCounts {
        units: 0,
        sequences: 0,
        rows: 0,
    };
    for header in &units {
        let root = root_of(alloc, &sections, header)?;
        if let Some(lines) = Lines::parse(alloc, &mut ByStdSort, &sections, header, &root)? {
            counts = counts.with(&lines);
        }
    }
    Ok(counts)
}

//! The rows of all line programs of a file, as text.
use crate::debug_sections::{alone, root_of, sections_of, texts_of, units_of};
use blz_bytes::{ByStdSort, bytes_to_path};
use blz_entry::{Sections, Texts};
use blz_error::Result;
use blz_line::{LineSequence, Lines};
use blz_relocations::RelocationMap;
use std::alloc::Global;
use std::fmt::Write;

/// For each unit with a line program a line `unit PLACE PROGRAM`, both in hexadecimal; below it its files as `file NUMBER`
/// and the path, and its rows as `row ADDRESS FILE LINE COLUMN`, with `end ADDRESS` behind those of a sequence.
pub fn list_rows(alloc: Global, image: &[u8]) -> Result<String> {
    let none = RelocationMap::new(alloc);
    let sections = alone(sections_of(alloc, image, &none)?);
    let texts = texts_of(&sections);
    let units = units_of(alloc, sections.info)?;
    let mut text = String::new(alloc);
    for header in &units {
        let root = root_of(alloc, &sections, header)?;
        let Some(program) = root.line else {
            continue;
        };
        let start = header.start;
        writeln!(text, "unit {start:x} {program:x}")?;
        if let Some(lines) = Lines::parse(alloc, &mut ByStdSort, &sections, header, &root)? {
            list_files(alloc, &mut text, &texts, &lines)?;
            list_sequences(&mut text, &lines)?;
        }
    }
    Ok(text)
}

fn list_files(alloc: Global, text: &mut String, texts: &Texts<'_>, lines: &Lines) -> Result<()> {
    for number in 0..u64::MAX {
        let Some((dir, name)) = lines.file(texts, number) else {
            break;
        };
        let mut path = Vec::new(alloc);
        dir.write_to(&mut path)?;
        path.push(b'\t')?;
        path.extend_from_slice(name)?;
        let path = bytes_to_path(&path)?;
        writeln!(text, "file {number} {path}")?;
    }
    Ok(())
}

fn list_sequences(text: &mut String, lines: &Lines) -> Result<()> {
    for sequence in lines.sequences() {
        list_sequence(text, sequence)?;
    }
    Ok(())
}

fn list_sequence(text: &mut String, sequence: &LineSequence) -> Result<()> {
    for row in sequence.rows() {
        let address = row.address;
        let file = row.file_index;
        let line = row.line;
        let column = row.column;
        writeln!(text, "row {address:x} {file} {line} {column}")?;
    }
    let end = sequence.end;
    writeln!(text, "end {end:x}")?;
    Ok(())
}

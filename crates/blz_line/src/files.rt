//! The files that rows name.
ghost use Rattle.std.specs.Prelude.{◌≡◌, option_map, slice_get, IfOk};
ghost use Rattle.std.specs.Arc.{arc_value};
ghost use Rattle.blz_line.specs.FileNames.{maybe_text, file_text, unit_file};
ghost use Rattle.blz_line.specs.ProgramFiles.{files_in, first_file, in_unit, names_of};

use crate::table::Table;
use blz_bytes::DirPath;
use blz_entry::{StrPlace, Texts, UnitRoot};
use std::alloc::AllocError;
use std::sync::Arc;

/// Where the parts of a file's name stand; the text of a part that is none is empty.
#[derive(Clone, Copy)]
pub struct FilePlaces {
    /// The directory of the unit.
    pub comp_dir: Option<StrPlace>,
    /// The directory that is joined to it.
    pub directory: Option<StrPlace>,
    pub name: Option<StrPlace>,
}

/// An empty file in an empty directory.
pub const NOWHERE: FilePlaces = FilePlaces {
    comp_dir: None,
    directory: None,
    name: None,
};

/// What a unit calls itself, and the directory that its files lie in.
#[derive(Clone, Copy)]
pub struct UnitNames {
    pub name: Option<StrPlace>,
    pub comp_dir: Option<StrPlace>,
}

/// What file 0 is.
#[derive(Clone, Copy)]
pub enum FirstFile {
    /// The first one of the table.
    Listed,
    /// None, where the table is empty.
    Nowhere,
    /// The unit's own, before version 5.
    OfUnit,
}

/// The files of a line program, by which each unit that shares it has its own.
#[derive(Drop)]
pub struct ProgramFiles {
    pub first: FirstFile,
    /// The files as a unit without names has them.
    pub table: Arc<Table<FilePlaces>>,
}

impl UnitNames {
    /// What a root tells.
    pub fn of(root: &UnitRoot) -> UnitNames
        ensures { result ≡ names_of root.now }
    {
        UnitNames {
            name: root.name,
            comp_dir: root.comp_dir,
        }
    }

    /// A file of a program in the directory of the unit.
    fn place(&self, file: FilePlaces) -> FilePlaces
        ensures { result ≡ in_unit self.now file }
    {
        FilePlaces {
            comp_dir: self.comp_dir,
            ..file
        }
    }

    /// The unit's own file.
    fn own_file(&self) -> FilePlaces
        ensures { result ≡ unit_file self.now.comp_dir self.now.name }
    {
        match self.name {
            None => NOWHERE,
            Some(name) => FilePlaces {
                comp_dir: self.comp_dir,
                directory: None,
                name: Some(name),
            },
        }
    }
}

impl FirstFile {
    /// File 0 in a unit, where the table does not have it.
    fn file(self, names: &UnitNames) -> Option<FilePlaces>
        ensures { result ≡ first_file self names.now }
    {
        match self {
            FirstFile::Listed => None,
            FirstFile::Nowhere => Some(NOWHERE),
            FirstFile::OfUnit => Some(names.own_file()),
        }
    }
}

impl ProgramFiles {
    /// The same files once more.
    pub fn share(&self) -> Result<ProgramFiles, AllocError>
        ensures first { IfOk result (λ f. f.first ≡ self.now.first) }
        ensures table { IfOk result (λ f. arc_value f.table ≡ arc_value self.now.table) }
    {
        let table = Arc::try_clone(&self.table)?;
        Ok(ProgramFiles {
            first: self.first,
            table,
        })
    }

    /// The file of a number in the table of a unit.
    fn listed(&self, names: &UnitNames, number: u64) -> Option<FilePlaces>
        ensures { result
            ≡ option_map (in_unit names.now) (slice_get (arc_value self.now.table) number) }
    {
        match self.table.get(number) {
            Some(file) => Some(names.place(file)),
            None => None,
        }
    }

    /// The file of a number, counted from 0, in a unit.
    pub fn get(&self, names: &UnitNames, number: u64) -> Option<FilePlaces>
        ensures { result ≡ slice_get (files_in names.now self.now) number }
    {
        match self.first.file(names) {
            None => self.listed(names, number),
            Some(first) => {
                if number == 0 {
                    Some(first)
                } else {
                    self.listed(names, number - 1)
                }
            }
        }
    }
}

/// The text of a place, where there is one.
fn maybe_text<'b>(texts: &Texts<'b>, place: Option<StrPlace>) -> &'b [u8]
    ensures { result.now ≡ maybe_text texts.now place }
{
    match place {
        Some(place) => texts.get(place),
        None => b"",
    }
}

/// The directory and the name of a file.
pub fn file_text<'b>(texts: &Texts<'b>, file: &FilePlaces) -> (DirPath<'b>, &'b [u8])
    ensures { (result.0, result.1.now) ≡ file_text texts.now file.now }
{
    let comp_dir = maybe_text(texts, file.comp_dir);
    let dir = match file.directory {
        Some(place) => DirPath::joined(comp_dir, texts.get(place)),
        None => DirPath::new(comp_dir),
    };
    (dir, maybe_text(texts, file.name))
}

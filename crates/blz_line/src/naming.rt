//! How the entries of a table of files become files.
ghost use Rattle.std.specs.Prelude.{◌≡◌, length, IfOk};
ghost use Rattle.std.specs.Arc.{arc_value};
ghost use Rattle.blz_error.specs.declared.kind.ErrorKind.TheVariants.{InvalidDwarf};
ghost use Rattle.blz_model.specs.Part.{Gives, or_mark};
ghost use Rattle.blz_line.specs.Tables.{copies};
ghost use Rattle.blz_line.specs.FileNames.{directory_path, file_of, all_files};
ghost use Rattle.blz_line.specs.NamingView.{naming_view};
ghost use Rattle.blz_line.specs.ProgramFiles.{first_of};

use crate::broken::broken;
use crate::files::{FilePlaces, FirstFile, ProgramFiles};
use crate::paths::FileEntry;
use crate::table::Table;
use blz_bytes::Room;
use blz_entry::{AttrValue, Sections, StrPlace, UnitHeader, UnitRoot, attr_string, search_words};
use blz_error::Result;
use std::alloc::{AllocError, Global};
use std::sync::Arc;

/// What a file that is kept takes of a file's room.
const FILE_WORDS: u64 = 12;

/// What the names of a table's files go by.
#[derive(Clone, Copy)]
pub struct Namer<'a, 's, 'b> {
    pub sections: &'a Sections<'s, 'b>,
    pub unit: &'a UnitHeader,
    pub root: &'a UnitRoot,
    pub version: u16,
    pub directories: &'a Table<FileEntry>,
}

impl Namer<'_, '_, '_> {
    fn directory_path(&self, number: u64) -> Option<AttrValue>
        ensures { result ≡ directory_path (naming_view self.now) number }
    {
        if number == 0 {
            return None;
        }
        let at = if self.version <= 4 {
            number - 1
        } else {
            number
        };
        match self.directories.get(at) {
            Some(entry) => Some(entry.path),
            None => None,
        }
    }

    /// The string of a value, where it has one. What was searched for its end takes of the room.
    fn string_at(
        &self,
        room: &mut Room,
        value: AttrValue,
    ) -> std::result::Result<Option<StrPlace>, AllocError>
        ensures { IfOk result (λ s. s ≡ (naming_view self.now).string_at value) }
    {
        let found = attr_string(self.sections, self.unit, self.root, value);
        room.take(search_words(self.sections, value, found))?;
        Ok(found)
    }

    /// The file of an entry, where its path and its directory can be read.
    #[tactic(auto, unfolding(crate::specs::FileNames::file_of, crate::specs::FileNames::file_in))]
    fn file_of(
        &self,
        room: &mut Room,
        entry: FileEntry,
    ) -> std::result::Result<Option<FilePlaces>, AllocError>
        ensures { IfOk result (λ f. f ≡ file_of (naming_view self.now) entry) }
    {
        room.take(FILE_WORDS)?;
        let Some(name) = self.string_at(room, entry.path)? else {
            return Ok(None);
        };
        let Some(path) = self.directory_path(entry.directory) else {
            return Ok(Some(FilePlaces {
                comp_dir: None,
                directory: None,
                name: Some(name),
            }));
        };
        let Some(directory) = self.string_at(room, path)? else {
            return Ok(None);
        };
        Ok(Some(FilePlaces {
            comp_dir: None,
            directory: Some(directory),
            name: Some(name),
        }))
    }

    /// The file of each of some equal entries.
    fn equal_files(
        &self,
        alloc: Global,
        room: &mut Room,
        repeated: Option<(u64, FileEntry)>,
    ) -> Result<Table<FilePlaces>>
        ensures { Gives (λ t. t) result
            (or_mark (all_files (naming_view self.now) (copies repeated)) InvalidDwarf) }
    {
        let Some((count, entry)) = repeated else {
            return Ok(Table::new(alloc));
        };
        if count == 0 {
            return Ok(Table::new(alloc));
        }
        let Some(file) = self.file_of(room, entry)? else {
            return Err(broken());
        };
        Ok(Table::of_equal(alloc, count, file))
    }

    /// The file of each entry.
    fn all_files(
        &self,
        alloc: Global,
        room: &mut Room,
        entries: &Table<FileEntry>,
    ) -> Result<Table<FilePlaces>>
        ensures { Gives (λ t. t) result
            (or_mark (all_files (naming_view self.now) entries.now) InvalidDwarf) }
    {
        let (repeated, listed) = entries.parts();
        let mut files = self.equal_files(alloc, room, repeated)?;
        for entry in listed {
            let Some(file) = self.file_of(room, *entry)? else {
                return Err(broken());
            };
            files.push(file)?;
        }
        Ok(files)
    }

    /// What file 0 is.
    fn first_of(&self, entries: &Table<FileEntry>) -> FirstFile
        ensures { result ≡ first_of self.now.version (length entries.now) }
    {
        if self.version <= 4 {
            return FirstFile::OfUnit;
        }
        match entries.get(0) {
            Some(_) => FirstFile::Listed,
            None => FirstFile::Nowhere,
        }
    }

    /// The files of the program; InvalidDwarf where a path or a directory cannot be read. Each file takes of the room, and
    /// what is searched for the ends of its names.
    pub fn files_of(
        &self,
        alloc: Global,
        room: &mut Room,
        entries: &Table<FileEntry>,
    ) -> Result<ProgramFiles>
        ensures table { Gives (λ f. arc_value f.table) result
            (or_mark (all_files (naming_view self.now) entries.now) InvalidDwarf) }
        ensures first { IfOk result
            (λ f. f.first ≡ first_of self.now.version (length entries.now)) }
    {
        let files = self.all_files(alloc, room, entries)?;
        let table = Arc::new(alloc, files)?;
        let first = self.first_of(entries);
        Ok(ProgramFiles { first, table })
    }
}

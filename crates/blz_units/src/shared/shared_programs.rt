//! Line programs, read once for all units that read them alike.
ghost use Rattle.std.specs.Prelude.{◌≡◌, ◌≢◌, map, None, option_map, IfOk, IfSome};
ghost use Rattle.blz_error.specs.declared.kind.ErrorKind.TheVariants.{InvalidDwarf, OutOfMemory};
ghost use Rattle.blz_info.specs.FileSections.{FileSections, sections_view};
ghost use Rattle.blz_line.specs.Lookups.{spans_of};
ghost use Rattle.blz_line.specs.ProgramTables.{program_at};
ghost use Rattle.blz_line.specs.UnitLines.{OrderedLines, lines_of};
ghost use Rattle.blz_model.specs.Part.{Gives, or_mark};
ghost use Rattle.blz_ranges.specs.Keyed.{IsAccepted, begin_key};
ghost use Rattle.blz_units.specs.SharedPrograms.{ArePrograms, IsProgramAt};

use crate::shared::program_key::{ProgramKey, program_key};
use blz_bytes::{Orders, Room};
use blz_entry::{Sections, UnitHeader, UnitRoot, invalid};
use blz_error::{Error, ErrorKind, Result};
use blz_line::{Lines, ProgramLines};
use std::alloc::{AllocError, Global};
use std::collections::BTreeMap;

/// The tables of line programs, by how they are read; none where a program has no value.
#[derive(Drop)]
pub struct SharedPrograms {
    pub kept: BTreeMap<ProgramKey, Option<ProgramLines>>,
}

impl SharedPrograms {
    /// No programs; takes no memory.
    pub fn new(alloc: Global) -> SharedPrograms
        ensures { (s : FileSections) → ArePrograms s result }
    {
        SharedPrograms {
            kept: BTreeMap::new(alloc),
        }
    }

    /// Keeps what the program of a key gives.
    fn keep(
        &mut self,
        key: ProgramKey,
        program: Option<ProgramLines>,
    ) -> std::result::Result<(), AllocError>
        ensures { (s : FileSections) → IsProgramAt s key program → ArePrograms s self.old
            → ArePrograms s self.new }
    {
        self.kept.insert(key, program)?;
        Ok(())
    }

    /// Keeps that the program of a key has no value, if that is why it can't be read.
    fn keep_fault(&mut self, key: ProgramKey, fault: &Error) -> std::result::Result<(), AllocError>
        ensures { (s : FileSections) → (fault.now.kind ≢ OutOfMemory → IsProgramAt s key None)
            → ArePrograms s self.old → ArePrograms s self.new }
    {
        match fault.kind() {
            ErrorKind::OutOfMemory => Ok(()),
            _ => self.keep(key, None),
        }
    }

    /// Reads a program that is not kept, and keeps what it gives.
    fn read_anew<O: Orders>(
        &mut self,
        alloc: Global,
        room: &mut Room,
        orders: &mut O,
        sections: &Sections<'_, '_>,
        header: &UnitHeader,
        root: &UnitRoot,
        at: u64,
    ) -> Result<ProgramLines>
        requires { ArePrograms (sections_view sections.now) self.old }
        ensures value { Gives (λ p. p.table) result
            (or_mark (program_at sections.now header.now root.now at) InvalidDwarf) }
        ensures accepted { IfOk result (λ p. IsAccepted O.pair_places
            (map begin_key (spans_of p.table.sequences)) p.ordered) }
        ensures kept { ArePrograms (sections_view sections.now) self.new }
    {
        let key = program_key(header, root, at);
        match ProgramLines::parse(alloc, room, orders, sections, header, root, at) {
            Ok(program) => {
                let kept = program.share()?;
                self.keep(key, Some(kept))?;
                Ok(program)
            },
            Err(fault) => {
                self.keep_fault(key, &fault)?;
                Err(fault)
            },
        }
    }

    /// The table of the line program at an offset, as a unit reads it. InvalidDwarf exactly where that, or the string of a
    /// file, has no value.
    fn read<O: Orders>(
        &mut self,
        alloc: Global,
        room: &mut Room,
        orders: &mut O,
        sections: &Sections<'_, '_>,
        header: &UnitHeader,
        root: &UnitRoot,
        at: u64,
    ) -> Result<ProgramLines>
        requires { ArePrograms (sections_view sections.now) self.old }
        ensures value { Gives (λ p. p.table) result
            (or_mark (program_at sections.now header.now root.now at) InvalidDwarf) }
        ensures accepted { IfOk result (λ p. IsAccepted O.pair_places
            (map begin_key (spans_of p.table.sequences)) p.ordered) }
        ensures kept { ArePrograms (sections_view sections.now) self.new }
    {
        match self.kept.get(&program_key(header, root, at)) {
            Some(Some(program)) => {
                room.take(program.sequences().len() as u64)?;
                Ok(program.asked_again(alloc, orders)?)
            },
            Some(None) => Err(invalid("a line program has no value")),
            None => self.read_anew(alloc, room, orders, sections, header, root, at),
        }
    }

    /// The lines of a unit; None exactly where its root tells no line program, and InvalidDwarf exactly where that, or the
    /// string of a file, has no value. What is read takes of the room.
    pub fn lines<O: Orders>(
        &mut self,
        alloc: Global,
        room: &mut Room,
        orders: &mut O,
        sections: &Sections<'_, '_>,
        header: &UnitHeader,
        root: &UnitRoot,
    ) -> Result<Option<Lines>>
        requires { ArePrograms (sections_view sections.now) self.old }
        ensures value { Gives (λ lines. option_map (λ (l : OrderedLines). l.table) lines) result
            (lines_of sections.now header.now root.now) }
        ensures accepted { IfOk result (λ lines. IfSome lines (λ (l : OrderedLines).
            IsAccepted O.pair_places (map begin_key (spans_of l.table.sequences)) l.ordered)) }
        ensures kept { ArePrograms (sections_view sections.now) self.new }
    {
        let Some(at) = root.line else {
            return Ok(None);
        };
        let program = self.read(alloc, room, orders, sections, header, root, at)?;
        Ok(Some(Lines::of_unit(program, root)))
    }
}

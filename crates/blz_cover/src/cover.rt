//! Counts by address, kept as counts by line.
ghost use Rattle.std.specs.Prelude.{◌≡◌, ◌+◌, ◌≤◌, ◌<◌, ◌^◌, true, false, [], length, slice_get, sum_by, is_some, Some, IfOk, IfErr, OnOk, OnErr};
ghost use Rattle.std.specs.Option.{option_map};
ghost use Rattle.blz_resolver.specs.Resolver.{has_debug};
ghost use Rattle.blz_cover.specs.Answers.{answer_at, is_answered, source_line};
ghost use Rattle.blz_cover.specs.Changes.{added, taken, total_of};
ghost use Rattle.blz_cover.specs.Covers.{AnswersFault, AppliesChange, IsMark, changed, covered, hit_fault, mark_fault, rest_of, unhit_fault};
ghost use Rattle.blz_cover.specs.Kept.{has_change};
ghost use Rattle.blz_cover.specs.LineViews.{line_view, source_view};

use crate::change::Change;
use crate::change_list::ChangeList;
use crate::cover_line::CoverLine;
use crate::fault::CoverFault;
use crate::homes::{add_at, home_of, take_at};
use crate::line_table::LineTable;
use crate::source_line::{SourceLine, line_in};
use crate::tally::{Home, Tally};
use blz_bytes::{Room, Steps};
use blz_elf::FindSymOpts;
use blz_resolver::ElfResolver;
use std::alloc::{AllocError, Global};
use std::collections::HashMap;
use std::marker::{Brand, Model};
use std::sync::ledger::{Blank, Ledger};

/// Counts by address, kept as counts by line, step by step. The changes themselves are not kept.
#[derive(Drop)]
pub struct Cover<'r, 'b> {
    alloc: Global,
    resolver: &'r ElfResolver<'b>,
    changes: ChangeList,
    tallies: HashMap<u64, Tally>,
    lines: LineTable,
    rest: u64,
    total: u64,
}

impl<'r, 'b> Model for Cover<'r, 'b> {
    ghost use Rattle.std.specs.Prelude.{nat_eq};
    ghost use Rattle.std.specs.HashMap as map;
    ghost use Rattle.blz_cover.specs.Covers.{Cover};
    ghost use Rattle.blz_cover.specs.Answers.{is_answered, source_line};
    ghost use Rattle.blz_cover.specs.CoverFits.{CoverFits};

    ghost Value = { Cover };

    ghost view = { λ c. record { images = c.resolver.now.images; changes = c.changes.items } };

    ghost invariant = { λ c. CoverFits c.resolver.now c.changes.items (λ a. map.get nat_eq c.tallies a) c.lines c.rest c.total };
}

impl<'r, 'b> Cover<'r, 'b> {
    /// No counts, over the debug information of a resolver that is prepared. Takes no memory.
    pub fn new(alloc: Global, resolver: &'r ElfResolver<'b>) -> Cover<'r, 'b>
        requires has_debug { has_debug resolver.now ≡ true }
        requires is_prepared { resolver.now.prepared ≡ true }
        ensures images { result.images ≡ resolver.entry.now.images }
        ensures changes { result.changes ≡ [] }
    {
        Cover::within(alloc, resolver, Room::endless())
    }

    /// The same, whose lines take of a room; where it has no more, `hit` is refused with Memory.
    pub(crate) fn within(alloc: Global, resolver: &'r ElfResolver<'b>, room: Room) -> Cover<'r, 'b>
        requires has_debug { has_debug resolver.now ≡ true }
        requires is_prepared { resolver.now.prepared ≡ true }
        ensures images { result.images ≡ resolver.entry.now.images }
        ensures changes { result.changes ≡ [] }
    {
        let changes = ChangeList::new();
        let tallies = HashMap::new(alloc);
        let lines = LineTable::new(alloc, room);
        Cover {
            alloc,
            resolver,
            changes,
            tallies,
            lines,
            rest: 0,
            total: 0,
        }
    }

    /// The number of lines.
    pub fn lines(&self) -> usize
        ensures { result ≡ length (covered self.now.images self.now.changes) }
    {
        self.lines.len()
    }

    // The line at which an address stands that is known to stand at one.
    fn line_known<L: Ledger>(&self, addr: u64, blank: Blank) -> SourceLine<'b>
        requires name { blank.name ≡ L.name }
        requires parts { blank.parts ≡ L.parts }
        requires some { 0 < blank.parts }
        requires answered { is_answered self.now.images addr ≡ true }
        requires line { is_some (source_line self.now.images addr) ≡ true }
        ensures { source_line self.now.images addr ≡ Some (source_view result) }
    {
        let mut steps: Steps<L> = Steps::new(blank);
        match self.line_of(addr, &mut steps) {
            Ok(Some(line)) => line,
            Ok(None) => unreachable!(),
            Err(_) => unreachable!(),
        }
    }

    /// The line of an index, counted from 0, in the order in which a count was first added at a line, with its directory and
    /// file as they stood there; None from the number of lines on.
    pub fn line_at(&self, place: usize) -> Option<CoverLine<'b>>
        ensures { option_map line_view result ≡ slice_get (covered self.now.images self.now.changes) place }
    {
        let counted = self.lines.get(place)?;
        let line = self.line_known::<Brand>(counted.addr, Blank::new(1));
        Some(CoverLine {
            dir: line.dir,
            file: line.file,
            line: line.line,
            count: counted.count,
        })
    }

    /// What is left of the addresses without a line.
    pub fn rest(&self) -> u64
        ensures { result ≡ rest_of self.now.images self.now.changes }
    {
        self.rest
    }

    /// What is left of all addresses: the counts of the lines and the rest together.
    pub fn total(&self) -> u64
        ensures value { result ≡ total_of self.now.changes }
        ensures law { sum_by (λ l. l.count) (covered self.now.images self.now.changes) + rest_of self.now.images self.now.changes ≡ result }
    {
        self.total
    }

    // Adds a count at an address that has a change; tells whether it has one.
    fn add_known(&mut self, addr: u64, count: u64) -> bool
        requires { total_of self.old.changes + count < 2 ^ 64 }
        ensures known { result ≡ has_change addr self.old.changes }
        ensures added { result ≡ true → self.new ≡ changed self.old (added addr count) }
        ensures answered { result ≡ true → is_answered self.old.images addr ≡ true }
        ensures kept { result ≡ false → self.new ≡ self.old }
    {
        let Some(tally) = self.tallies.get_mut(&addr) else {
            return false;
        };
        tally.count += count;
        let home = tally.home;
        add_at(&mut self.lines, &mut self.rest, home, count);
        self.total += count;
        self.changes = self.changes.with(&Change::added(addr, count));
        true
    }

    // Adds a count at an address without a change, which stands at a line or at none. After want of memory all is as before.
    fn add_new(
        &mut self,
        addr: u64,
        count: u64,
        line: Option<SourceLine<'b>>,
    ) -> Result<(), AllocError>
        requires room { total_of self.old.changes + count < 2 ^ 64 }
        requires unknown { has_change addr self.old.changes ≡ false }
        requires answered { is_answered self.old.images addr ≡ true }
        requires line { source_line self.old.images addr ≡ option_map source_view line }
        ensures ok { OnOk result (self.new ≡ changed self.old (added addr count)) }
        ensures err { OnErr result (self.new ≡ self.old) }
    {
        self.tallies.reserve(1)?;
        let home = home_of(self.alloc, &mut self.lines, addr, line)?;
        let _ = self.tallies.insert(addr, Tally { count, home });
        add_at(&mut self.lines, &mut self.rest, home, count);
        self.total += count;
        self.changes = self.changes.with(&Change::added(addr, count));
        Ok(())
    }

    /// Adds a count at an address. Refused with Full where the total would pass 2^64 - 1; with Mark where the debug
    /// information is broken for the address; with Memory. After a refusal all is as before.
    pub fn hit<L: Ledger>(
        &mut self,
        addr: u64,
        count: u64,
        steps: &mut Steps<L>,
    ) -> Result<(), CoverFault>
        requires { 1 ≤ count }
        ensures fault { AnswersFault result (hit_fault self.old addr count) }
        ensures change { AppliesChange result self.old self.new (added addr count) }
        ensures later { steps.old ≤ steps.new }
    {
        if count > u64::MAX - self.total {
            return Err(CoverFault::Full(self.total));
        }
        if self.add_known(addr, count) {
            return Ok(());
        }
        let line = self.line_of(addr, steps)?;
        match self.add_new(addr, count, line) {
            Ok(()) => Ok(()),
            Err(_) => Err(CoverFault::Memory),
        }
    }

    // The line at which an address stands, or the mark of its answer.
    fn line_of<L: Ledger>(
        &self,
        addr: u64,
        steps: &mut Steps<L>,
    ) -> Result<Option<SourceLine<'b>>, CoverFault>
        ensures good { IfOk result (λ l. option_map source_view l ≡ source_line self.now.images addr) }
        ensures answered { OnOk result (is_answered self.now.images addr ≡ true) }
        ensures mark { IfErr result (λ e. mark_fault (answer_at self.now.images addr) ≡ Some e) }
        ensures kind { IfErr result IsMark }
        ensures later { steps.old ≤ steps.new }
    {
        match self
            .resolver
            .find_sym_prepared(addr, &FindSymOpts::CodeInfo, steps)
        {
            Ok(answer) => Ok(line_in(answer)),
            Err(error) => Err(CoverFault::Mark(error.kind())),
        }
    }

    /// Takes a count from an address. Refused with Missing where the address has a smaller count. After a refusal all is as
    /// before.
    pub fn unhit<L: Ledger>(
        &mut self,
        addr: u64,
        count: u64,
        _steps: &mut Steps<L>,
    ) -> Result<(), CoverFault>
        requires { 1 ≤ count }
        ensures fault { AnswersFault result (unhit_fault self.old addr count) }
        ensures change { AppliesChange result self.old self.new (taken addr count) }
        ensures cost { _steps.new ≡ _steps.old }
    {
        let Some(tally) = self.tallies.get_mut(&addr) else {
            return Err(CoverFault::Missing(0));
        };
        if tally.count < count {
            return Err(CoverFault::Missing(tally.count));
        }
        tally.count -= count;
        let home = tally.home;
        take_at(&mut self.lines, &mut self.rest, home, count);
        self.total -= count;
        self.changes = self.changes.with(&Change::taken(addr, count));
        Ok(())
    }
}

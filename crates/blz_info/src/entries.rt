//! The entries of a unit, one after the other.
ghost use Rattle.std.specs.Prelude.{◌≡◌, ℕ, ◌≤◌, ◌<◌, ◌+◌, ◌^◌, ◌&&◌, nat_le, if◌then◌else◌, length, drop, [], Some, None, IfSome, IfOk, OnOk, MatchOption};
ghost use Rattle.std.specs.Option.{option_copied};
ghost use Rattle.blz_error.specs.declared.kind.ErrorKind.TheVariants.{InvalidDwarf};
ghost use Rattle.blz_model.specs.Part.{Exactly, Good, Broken};
ghost use Rattle.blz_info.specs.Attributes.{passed};
ghost use Rattle.blz_info.specs.Contents.{StaysIn};
ghost use Rattle.blz_info.specs.Passing.{past, past_one};
ghost use Rattle.blz_info.specs.Walks.{Steps, IsNext, walk_from, source_of, info_base, opened, next_of, value_of, skipped_of};
ghost use Rattle.blz_info.specs.Wanted.{wanted_of};

use crate::abbreviations::{Abbreviation, Abbreviations, AttrSpec};
use crate::attributes::{attribute, passed};
use crate::encoding::Encoding;
use crate::fault::{invalid, no_attribute};
use crate::forms::behind::over_from;
use crate::forms::value::AttrValue;
use crate::section::{Section, Sections, cut};
use crate::text::{StrBase, StrPart};
use crate::units::UnitHeader;
use crate::walking::passing::Passing;
use crate::walking::ready::next_wanted;
use crate::walking::runs::{Runs, passed_by, passed_by_runs};
use blz_bytes::uleb_at;
use blz_error::Result;
use std::marker::Model;

/// An entry without its attributes, or the zero that closes one.
#[derive(Clone, Copy)]
pub struct Entry {
    /// Where it begins, from the section's first byte.
    pub place: usize,
    /// How many entries are open at it.
    pub depth: i64,
    /// The code of its abbreviation; 0 is the end of the children of an entry.
    pub code: u64,
    /// Its tag.
    pub tag: u64,
    /// Whether its children follow.
    pub children: bool,
}

/// The entries of a unit (DWARF 5 section 7.5.3), one after the other, each with its depth.
#[derive(Drop)]
pub struct Entries<'s, 'b> {
    section: Section<'s, 'b>,
    base: StrBase,
    encoding: Encoding,
    abbreviations: &'s Abbreviations,
    end: usize,
    place: usize,
    pending: &'s [AttrSpec],
    // how what is pending is passed over, and read, where that is known; and how many runs were read
    passing: Option<&'s Runs>,
    reading: Option<&'s Runs>,
    taken: usize,
    depth: usize,
}

impl<'s, 'b> Model for Entries<'s, 'b> {
    ghost use Rattle.std.specs.Prelude.{◌≡◌, ◌≤◌, ◌<◌, ◌+◌, ◌^◌, length, IfSome, Some};
    ghost use Rattle.blz_info.specs.Contents.{section_view};
    ghost use Rattle.blz_info.specs.Codes.{walk_code};
    ghost use Rattle.blz_info.specs.Walks.{Walk};
    ghost use Rattle.blz_info.specs.AttributeRuns.{Passes, Reads};

    ghost Value = { Walk };

    ghost coded = { walk_code };

    ghost view = { λ e. record { source = record { section = section_view e.section; base = e.base; encoding = e.encoding; table = e.abbreviations.now; end = e.end }; place = e.place; pending = e.pending.now; depth = e.depth } };

    ghost invariant = { λ e. record { cut : length e.section.bytes.now ≤ e.end; texts : e.base.start + length e.section.bytes.now < 2 ^ 64; low : e.depth ≤ e.place; passing : IfSome e.passing (λ r. Passes e.encoding r.now e.pending.now); reading : IfSome e.reading (λ r. Reads e.encoding e.taken r.now e.pending.now) } };
}

/// Where the texts among the entries of a unit stand.
pub(crate) fn info_base(sections: &Sections<'_, '_>) -> StrBase
    ensures { result ≡ info_base sections.now }
{
    let part = if sections.split {
        StrPart::PackInfo
    } else if sections.sup {
        StrPart::SupInfo
    } else {
        StrPart::Info
    };
    StrBase {
        part,
        start: sections.shift,
    }
}

// how many entries are open behind an entry
fn depth_behind(depth: usize, children: bool) -> usize
    requires { depth < 2 ^ 63 }
    ensures value { result ≡ (if children then depth + 1 else depth) }
    ensures bound { result ≤ depth + 1 }
{
    if children { depth + 1 } else { depth }
}

impl<'s, 'b> Entries<'s, 'b> {
    /// The entries of a unit from a place on. InvalidDwarf exactly where the place is not among them. The header and the
    /// abbreviations are those of the unit.
    pub fn new(
        sections: Sections<'s, 'b>,
        header: UnitHeader,
        abbreviations: &'s Abbreviations,
        at: usize,
    ) -> Result<Entries<'s, 'b>>
        requires { sections.shift + length sections.info.bytes.now < 2 ^ 64 }
        ensures { Exactly (λ e. e) result (if nat_le header.entries at && nat_le at header.end
            then Good (walk_from (source_of sections.entry header abbreviations.entry.now) at)
            else Broken InvalidDwarf) }
    {
        if at < header.entries || at > header.end {
            return Err(invalid("a place is not among the entries of its unit"));
        }
        Ok(Entries {
            section: cut(&sections.info, header.end),
            base: info_base(&sections),
            encoding: header.encoding(),
            abbreviations,
            end: header.end,
            place: at,
            pending: &[],
            passing: None,
            reading: None,
            taken: 0,
            depth: 0,
        })
    }

    /// The entry at a place, which has to be one, before its first attribute. The header and the abbreviations are those of
    /// the unit.
    #[inline(always)]
    #[tactic(auto, unfolding(crate::specs::Walks::opened))]
    pub fn opened(
        sections: &Sections<'s, 'b>,
        header: &UnitHeader,
        abbreviations: &'s Abbreviations,
        at: usize,
    ) -> Option<Entries<'s, 'b>>
        requires { sections.now.shift + length sections.now.info.bytes.now < 2 ^ 64 }
        ensures { result ≡ opened (source_of sections.now header.now abbreviations.entry.now) at }
    {
        let section = cut(&sections.info, header.end);
        let (code, place) = uleb_at(section.bytes, at)?;
        if code == 0 {
            return None;
        }
        let abbreviation = abbreviations.get(code)?;
        let encoding = header.encoding();
        Some(Entries {
            section,
            base: info_base(sections),
            encoding,
            abbreviations,
            end: header.end,
            place,
            pending: abbreviation.attributes(),
            passing: abbreviation.passing(encoding),
            reading: abbreviation.reading(encoding),
            taken: 0,
            depth: 0,
        })
    }

    #[inline(always)]
    fn behind_pending(&self) -> Option<usize>
        ensures value { result ≡ passed self.now.pending self.now.source.encoding
            self.now.source.base self.now.source.section self.now.place }
        ensures within { IfSome result (λ n. (self.now.place ≤ n)
            × (self.now.place ≤ length self.now.source.section.bytes
            → n ≤ length self.now.source.section.bytes)) }
    {
        if let Some(runs) = self.passing {
            return passed_by(
                &runs.runs,
                runs.tail,
                self.encoding,
                &self.section,
                self.place,
            );
        }
        passed(
            self.pending,
            self.encoding,
            self.base,
            &self.section,
            self.place,
        )
    }

    /// The next entry, behind what was not read of the last one; None exactly at the unit's end. InvalidDwarf exactly
    /// where no entry can be read, and then nothing has changed.
    #[inline(always)]
    #[tactic(auto, unfolding(crate::specs::Walks::next_of, crate::specs::Walks::entry_from, crate::specs::Attributes::passed))]
    pub fn next_entry(&mut self) -> Result<Option<Entry>>
        ensures value { Steps (λ e. e) (next_of self.old) self.old result self.new }
        ensures source { self.new.source ≡ self.old.source }
        ensures cut { length self.old.source.section.bytes ≤ self.old.source.end }
        ensures ahead { IfOk result (λ r. IfSome r (λ e. (self.old.place ≤ e.place)
            × (e.place < self.new.place) × (self.new.place ≤ self.new.source.end))) }
    {
        let Some(at) = self.behind_pending() else {
            return Err(invalid("the attributes of an entry are not whole"));
        };
        if at >= self.end {
            self.place = at;
            self.pending = &[];
            self.passing = None;
            self.reading = None;
            return Ok(None);
        }
        let Some((code, next)) = uleb_at(self.section.bytes, at) else {
            return Err(invalid("an entry has no code"));
        };
        let depth = self.depth;
        if code == 0 {
            self.place = next;
            self.pending = &[];
            self.passing = None;
            self.reading = None;
            self.depth = depth.saturating_sub(1);
            return Ok(Some(Entry {
                place: at,
                depth: depth as i64,
                code: 0,
                tag: 0,
                children: false,
            }));
        }
        let Some(abbreviation) = self.abbreviations.get(code) else {
            return Err(invalid("an entry has a code that no abbreviation has"));
        };
        let passing = abbreviation.passing(self.encoding);
        let reading = abbreviation.reading(self.encoding);
        self.place = next;
        self.pending = abbreviation.attributes();
        self.passing = passing;
        self.reading = reading;
        self.taken = 0;
        self.depth = depth_behind(depth, abbreviation.children);
        Ok(Some(Entry {
            place: at,
            depth: depth as i64,
            code,
            tag: abbreviation.tag,
            children: abbreviation.children,
        }))
    }

    /// Where what is read next begins, from the section's first byte.
    pub fn place(&self) -> usize
        ensures { result ≡ self.now.place }
    {
        self.place
    }

    /// The attributes of the last entry that were not read.
    pub fn pending(&self) -> &'s [AttrSpec]
        ensures { result.now ≡ self.now.pending }
    {
        self.pending
    }

    /// The value of the entry's next attribute. InvalidDwarf exactly where it has none, and then nothing has changed.
    #[tactic(auto, unfolding(crate::specs::Walks::value_of))]
    pub fn read_attribute(&mut self, spec: AttrSpec) -> Result<AttrValue>
        requires { IsNext spec self.old.pending }
        ensures value { Steps (λ v. v) (value_of spec self.old) self.old result self.new }
        ensures left { OnOk result (self.new.pending ≡ drop 1 self.old.pending) }
        ensures depth { self.new.depth ≡ self.old.depth }
        ensures source { self.new.source ≡ self.old.source }
        ensures ahead { self.old.place ≤ self.new.place }
    {
        let Some((value, next)) = attribute(
            spec,
            self.encoding,
            self.base,
            &self.section,
            self.place,
        ) else {
            return Err(no_attribute());
        };
        self.place = next;
        self.pending = &self.pending[1..];
        self.passing = None;
        self.reading = None;
        Ok(value)
    }

    /// The next attribute of the entry that tells what a function, an inlined call or a unit is, with its name, and
    /// `Some(None)` where none is left: its names (`DW_AT_name`, `DW_AT_linkage_name`, `DW_AT_MIPS_linkage_name`), where
    /// they stand (`DW_AT_abstract_origin`, `DW_AT_specification`), what it covers (`DW_AT_low_pc`, `DW_AT_high_pc`,
    /// `DW_AT_ranges`), where it is called (`DW_AT_call_file`, `DW_AT_call_line`, `DW_AT_call_column`), and of a unit its
    /// lines, its language, its directory and its bases (`DW_AT_stmt_list`, `DW_AT_language`, `DW_AT_comp_dir`,
    /// `DW_AT_str_offsets_base`, `DW_AT_addr_base`, `DW_AT_rnglists_base`). Those before it are passed over. None, which
    /// a caller gives as the InvalidDwarf of [`no_attribute`], exactly where it or one of them has no value, and then
    /// nothing has changed: a result with room for an error is large, and there are many attributes.
    #[tactic(auto, unfolding(crate::specs::Wanted::wanted_of))]
    pub fn next_wanted(&mut self) -> Option<Option<(u64, AttrValue)>>
        ensures value { MatchOption result ((wanted_of self.old ≡ None) × (self.new ≡ self.old))
            (λ w. wanted_of self.old ≡ Some (w, self.new)) }
        ensures left { IfSome result (λ w. MatchOption w (self.new.pending ≡ [])
            (λ _. length self.new.pending < length self.old.pending)) }
        ensures depth { self.new.depth ≡ self.old.depth }
        ensures source { self.new.source ≡ self.old.source }
        ensures ahead { self.old.place ≤ self.new.place }
    {
        let met = next_wanted(
            self.reading,
            self.taken,
            self.pending,
            self.encoding,
            self.base,
            &self.section,
            self.place,
        )?;
        self.place = met.place;
        self.pending = &self.pending[met.count..];
        self.passing = None;
        if met.runs == 0 {
            self.reading = None;
            return Some(met.found);
        }
        self.taken = met.runs;
        Some(met.found)
    }

    /// Passes over the attributes of the entry that were not read. InvalidDwarf exactly where one has no value, and then
    /// nothing has changed.
    #[inline(always)]
    #[tactic(auto, unfolding(crate::specs::Walks::skipped_of))]
    pub fn skip_attributes(&mut self) -> Result<()>
        ensures value { Steps (λ _. tt) (skipped_of self.old) self.old result self.new }
        ensures source { self.new.source ≡ self.old.source }
        ensures ahead { self.old.place ≤ self.new.place }
    {
        let Some(at) = self.behind_pending() else {
            return Err(invalid("the attributes of an entry are not whole"));
        };
        self.place = at;
        self.pending = &[];
        self.passing = None;
        self.reading = None;
        Ok(())
    }

    /// The place behind the attributes of an entry, where the sizes of the unit tell it.
    #[inline(always)]
    fn behind_ready(&self, abbreviation: &Abbreviation, at: usize) -> Option<usize>
        requires { at ≤ length self.now.source.section.bytes }
        ensures value { IfSome result (λ n. passed abbreviation.now.specs self.now.source.encoding
            self.now.source.base self.now.source.section at ≡ Some n) }
        ensures within { IfSome result (λ n. StaysIn self.now.source.section.bytes at n) }
    {
        let runs = abbreviation.passing(self.encoding)?;
        let list = runs.runs.as_slice();
        // most entries have attributes of fixed sizes alone
        if list.is_empty() {
            return over_from(runs.tail, self.section.bytes, at);
        }
        passed_by_runs(runs, self.encoding, &self.section, at)
    }

    /// The place and the depth behind the entry at a place, where it is passed over and its size is known.
    #[inline(always)]
    #[tactic(auto, unfolding(crate::specs::Passing::past_one, crate::specs::Walks::next_of, crate::specs::Walks::entry_from, crate::specs::Walks::skipped_of, crate::specs::Attributes::passed))]
    fn past(&self, passing: Passing, tag: u64, at: usize, depth: usize) -> Option<(usize, usize)>
        requires { depth ≤ at }
        ensures value { IfSome result (λ r. past_one passing tag
            (record { source = self.now.source; place = at; pending = []; depth = depth })
            ≡ Some (record { source = self.now.source; place = r.0; pending = []; depth = r.1 })) }
        ensures ahead { IfSome result
            (λ r. (at < r.0) × (r.0 ≤ self.now.source.end) × (r.1 ≤ r.0)) }
    {
        // the bytes end at the unit's end at the latest
        let (code, next) = uleb_at(self.section.bytes, at)?;
        if code == 0 {
            if !passing.takes(tag, 0, false, false) {
                return None;
            }
            return Some((next, depth.saturating_sub(1)));
        }
        let abbreviation = self.abbreviations.get(code)?;
        let leaf = !abbreviation.children;
        if !passing.takes(tag, abbreviation.tag, leaf, abbreviation.places()) {
            return None;
        }
        let behind = self.behind_ready(abbreviation, next)?;
        Some((behind, depth_behind(depth, abbreviation.children)))
    }

    /// Passes over entries that are not looked at, where a tag is sought, as far as their sizes are known; how many
    /// these are is not told.
    pub fn pass_over(&mut self, passing: Passing, tag: u64)
        requires { self.old.pending ≡ [] }
        ensures passed { (n : ℕ) × (past n passing tag self.old ≡ Some self.new) }
        ensures source { self.new.source ≡ self.old.source }
        ensures pending { self.new.pending ≡ [] }
        ensures ahead { self.old.place ≤ self.new.place }
    {
        let mut place = self.place;
        let mut depth = self.depth;
        while let Some((next, deep)) = self.past(passing, tag, place, depth) {
            place = next;
            depth = deep;
        }
        self.place = place;
        self.depth = depth;
    }
}

//! Abbreviations: what the entries of a unit have in common.
ghost use Rattle.std.specs.Prelude.{◌≡◌, ◌++◌, ◌∷◌, [], ◌==◌, length, IfSome, IfErr, IfOk, OnOk, None};
ghost use Rattle.blz_error.specs.declared.kind.ErrorKind.TheVariants.{OutOfMemory};
ghost use Rattle.std.specs.Option.{option_copied};
ghost use Rattle.blz_model.specs.Part.{Gives};
ghost use Rattle.blz_info.specs.Marks.{or_invalid};
ghost use Rattle.blz_info.specs.Abbrevs.{of_code};
ghost use Rattle.blz_info.specs.AttributeRuns.{Passes, Reads};
ghost use Rattle.blz_info.specs.Wanted.{any_placing};
ghost use Rattle.blz_info.specs.AbbreviationTables.{spec_at, is_last, specs_in, has_children, abbreviation_at, has_code, abbreviations};

use crate::encoding::Encoding;
use crate::fault::invalid;
use crate::walking::ready::Ready;
use crate::walking::runs::Runs;
use blz_bytes::{Room, sleb_at, u8_at, uleb_at};
use blz_constants::dwarf;
use blz_error::Result;
use std::alloc::{AllocError, Global};
use std::collections::BTreeMap;
use std::marker::Model;

/// What an abbreviation takes of a file's room: its own words, those of its runs, and the place that is made for the
/// attributes that most have.
const ABBREVIATION_WORDS: u64 = 40;

/// What each of its attributes takes: its own words, those of its runs, and one for reading it.
const ATTRIBUTE_WORDS: u64 = 16;

/// As many attributes as most abbreviations have at most.
const USUAL_ATTRIBUTES: usize = 8;

/// An attribute of an abbreviation: its name, its form, and the value of `DW_FORM_implicit_const`, else 0.
#[derive(Clone, Copy)]
pub struct AttrSpec {
    pub name: u64,
    pub form: u64,
    pub constant: i64,
}

/// What the entries of one code have in common (DWARF 5 section 7.5.3).
#[derive(Drop)]
pub struct Abbreviation {
    code: u64,
    /// The tag of the entries.
    pub tag: u64,
    /// Whether they have children.
    pub children: bool,
    specs: Vec<AttrSpec>,
    // how the attributes are passed over and read
    ready: Ready,
}

impl Model for Abbreviation {
    ghost use Rattle.blz_info.specs.Abbrevs.{Abbrev};

    ghost Value = { Abbrev };

    ghost view = { λ a. record { code = a.code; tag = a.tag; children = a.children; specs = a.specs.items } };

    ghost use Rattle.blz_info.specs.AttributeRuns.{IsReady};

    ghost invariant = { λ a. IsReady a.ready a.specs.items };
}

impl Abbreviation {
    /// The attributes of the entries, in their order.
    pub fn attributes(&self) -> &[AttrSpec]
        ensures { result.now ≡ self.now.specs }
    {
        &self.specs
    }

    /// Whether one of the attributes tells addresses or refers to an entry.
    #[inline(always)]
    pub(crate) fn places(&self) -> bool
        ensures { result ≡ any_placing self.now.specs }
    {
        self.ready.placing
    }

    /// How the attributes are passed over, where this is known for the sizes of a unit.
    #[inline(always)]
    pub(crate) fn passing(&self, encoding: Encoding) -> Option<&Runs>
        ensures { IfSome result (λ r. Passes encoding r.now self.now.specs) }
    {
        if self.ready.encoding.is(encoding) {
            Some(&self.ready.passing)
        } else {
            None
        }
    }

    /// How those that are wanted are read, where this is known for the sizes of a unit.
    #[inline(always)]
    pub(crate) fn reading(&self, encoding: Encoding) -> Option<&Runs>
        ensures { IfSome result (λ r. Reads encoding 0 r.now self.now.specs) }
    {
        if !self.ready.encoding.is(encoding) {
            return None;
        }
        match &self.ready.reading {
            Some(runs) => Some(runs),
            None => None,
        }
    }
}

/// The abbreviations of a unit, as a finite map from their codes.
#[derive(Drop)]
pub struct Abbreviations {
    table: Vec<Abbreviation>,
    // the first so many have the codes 1, 2, 3 and so on, as compilers write them
    ordered: usize,
    // where each other code stands
    others: BTreeMap<u64, usize>,
}

impl Model for Abbreviations {
    ghost use Rattle.std.specs.Prelude.{List};
    ghost use Rattle.blz_info.specs.Abbrevs.{Abbrev, IsIndexed};

    ghost Value = { List Abbrev };

    ghost view = { λ a. a.table.items };

    ghost invariant = { λ a. IsIndexed a.ordered a.others a.table.items };
}

impl Abbreviations {
    fn empty(alloc: Global) -> Abbreviations
        ensures { result ≡ [] }
    {
        Abbreviations {
            table: Vec::new(alloc),
            ordered: 0,
            others: BTreeMap::new(alloc),
        }
    }

    /// The abbreviation of a code; None exactly where there is none.
    #[inline(always)]
    pub fn get(&self, code: u64) -> Option<&Abbreviation>
        ensures { option_copied result ≡ of_code code self.now }
    {
        if code > 0 && code <= self.ordered as u64 {
            return Some(&self.table[code as usize - 1]);
        }
        let place = self.others.get(&code)?;
        self.table.get(*place)
    }

    /// How many abbreviations the table keeps.
    pub fn len(&self) -> usize
        ensures { result ≡ length self.now }
    {
        self.table.len()
    }

    fn has(&self, code: u64) -> bool
        ensures { result ≡ has_code code self.now }
    {
        self.get(code).is_some()
    }

    fn add(&mut self, abbreviation: Abbreviation) -> Result<()>
        requires { of_code abbreviation.code self.old ≡ None }
        ensures ok { OnOk result (self.new ≡ self.old ++ abbreviation ∷ []) }
        ensures err { IfErr result (λ e. e.kind ≡ OutOfMemory) }
    {
        let code = abbreviation.code;
        let place = self.table.len();
        self.table.push(abbreviation)?;
        if self.ordered == place && code == place as u64 + 1 {
            self.ordered = place + 1;
            return Ok(());
        }
        if let Err(fault) = self.others.insert(code, place) {
            self.table.pop();
            return Err(AllocError::from(fault).into());
        }
        Ok(())
    }
}

impl Abbreviations {
    /// The abbreviations at an offset of `.debug_abbrev` (DWARF 5 section 7.5.3). InvalidDwarf exactly where they are
    /// not whole, or a code or a children byte is not as it has to be.
    pub fn parse(alloc: Global, abbrev: &[u8], at: u64) -> Result<Abbreviations>
        ensures { Gives (λ t. t) result (or_invalid (abbreviations «abbrev».now at)) }
    {
        let encoding = Encoding {
            version: 5,
            wide: false,
            address_size: 8,
        };
        Abbreviations::parse_for(alloc, &mut Room::endless(), abbrev, at, encoding)
    }

    /// The same, ready for units whose fields have the sizes of an encoding: their entries are walked over faster. Each
    /// abbreviation takes of the room.
    pub fn parse_for(
        alloc: Global,
        room: &mut Room,
        abbrev: &[u8],
        at: u64,
        encoding: Encoding,
    ) -> Result<Abbreviations>
        ensures { Gives (λ t. t) result (or_invalid (abbreviations «abbrev».now at)) }
    {
        if at > abbrev.len() as u64 {
            return Err(invalid("abbreviations lie outside their section"));
        }
        let mut table = Abbreviations::empty(alloc);
        let mut place = at as usize;
        for _ in 0..abbrev.len() {
            let Some((code, next)) = uleb_at(abbrev, place) else {
                return Err(invalid("an abbreviation has no code"));
            };
            if code == 0 {
                return Ok(table);
            }
            if table.has(code) {
                return Err(invalid("an abbreviation code stands twice"));
            }
            room.take(ABBREVIATION_WORDS)?;
            let (abbreviation, next) = abbreviation_at(alloc, room, encoding, code, abbrev, next)?;
            table.add(abbreviation)?;
            place = next;
        }
        Err(invalid("abbreviations do not end"))
    }
}

#[tactic(auto, unfolding(crate::specs::AbbreviationTables::spec_at))]
fn spec_at(bytes: &[u8], at: usize) -> Option<(AttrSpec, usize)>
    ensures { result ≡ spec_at bytes.now at }
{
    let (name, next) = uleb_at(bytes, at)?;
    let (form, next) = uleb_at(bytes, next)?;
    if form == dwarf::DW_FORM_implicit_const {
        let (constant, next) = sleb_at(bytes, next)?;
        Some((
            AttrSpec {
                name,
                form,
                constant,
            },
            next,
        ))
    } else {
        Some((
            AttrSpec {
                name,
                form,
                constant: 0,
            },
            next,
        ))
    }
}

fn is_last(spec: AttrSpec) -> bool
    ensures { result ≡ is_last spec }
{
    spec.name == 0 && spec.form == 0
}

fn specs_at(
    alloc: Global,
    room: &mut Room,
    bytes: &[u8],
    at: usize,
) -> Result<(Vec<AttrSpec>, usize)>
    ensures { Gives (λ x. (x.0.items, x.1)) result
        (or_invalid (specs_in (length bytes.now) [] bytes.now at)) }
{
    let mut specs = Vec::with_capacity(alloc, USUAL_ATTRIBUTES)?;
    let mut place = at;
    for _ in 0..bytes.len() {
        let Some((spec, next)) = spec_at(bytes, place) else {
            return Err(invalid("an attribute of an abbreviation is not whole"));
        };
        place = next;
        if is_last(spec) {
            return Ok((specs, place));
        }
        room.take(ATTRIBUTE_WORDS)?;
        specs.push(spec)?;
    }
    Err(invalid("the attributes of an abbreviation do not end"))
}

fn has_children(flag: u8) -> Option<bool>
    ensures { result ≡ has_children flag }
{
    match flag {
        dwarf::DW_CHILDREN_no => Some(false),
        dwarf::DW_CHILDREN_yes => Some(true),
        _ => None,
    }
}

#[tactic(auto, unfolding(crate::specs::AbbreviationTables::abbreviation_at))]
fn abbreviation_at(
    alloc: Global,
    room: &mut Room,
    encoding: Encoding,
    code: u64,
    bytes: &[u8],
    at: usize,
) -> Result<(Abbreviation, usize)>
    ensures value { Gives (λ x. x) result (or_invalid (abbreviation_at code bytes.now at)) }
    ensures code { IfOk result (λ x. x.0.code ≡ code) }
{
    let Some((tag, next)) = uleb_at(bytes, at) else {
        return Err(invalid("an abbreviation has no tag"));
    };
    let Some((flag, next)) = u8_at(bytes, next) else {
        return Err(invalid("an abbreviation ends at its tag"));
    };
    let Some(children) = has_children(flag) else {
        return Err(invalid("the children byte of an abbreviation is neither 0 nor 1"));
    };
    let (specs, next) = specs_at(alloc, room, bytes, next)?;
    let ready = Ready::of(alloc, tag, &specs, encoding)?;
    let abbreviation = Abbreviation {
        code,
        tag,
        children,
        specs,
        ready,
    };
    Ok((abbreviation, next))
}

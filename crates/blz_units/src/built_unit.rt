//! Units that are built, as places and numbers.
ghost use Rattle.std.specs.Prelude.{◌≡◌, false, ◌≤◌, ◌<◌, ◌+◌, ◌^◌, ◌&&◌, length, is_some, IfOk, IfSome, Option};
ghost use Rattle.std.specs.Arc.{arc_value};
ghost use Rattle.blz_model.specs.Part.{Gives, Exactly};
ghost use Rattle.blz_info.specs.Marks.{or_invalid};
ghost use Rattle.blz_entry.specs.Roots.{root_of};
ghost use Rattle.blz_units.specs.BuiltUnits.{built, built_view, first_unit, has_lines, has_id, not_empty, parts_of, pieces_of, reading, rooted_on, sections_from, split_built, files_view, BuiltFits, IsInside, IsReadable};
ghost use Rattle.blz_functions.specs.Leaves.{lying};
ghost use Rattle.blz_units.specs.declared.dwarf.Origin.TheVariants.{Split};
ghost use Rattle.blz_functions.specs.Opened.{open_view, CanBeOpened};
ghost use Rattle.blz_units.specs.SharedPackage.{IsPackageShared};
ghost use Rattle.blz_units.specs.Sharing.{AreShared};
ghost use Rattle.blz_info.specs.FileSections.{sections_view};

use crate::dwarf::{Dwarf, Origin};
use crate::shared::shared_package::SharedPackage;
use crate::shared::shared_parts::SharedParts;
use crate::words::{UNIT_WORDS, attribute_words, longest_search, names_words};
use blz_bytes::Room;
use blz_entry::{Abbreviations, Sections, UnitHeader, UnitHeaders, UnitKind, UnitRoot, invalid};
use blz_error::Result;
use blz_functions::OpenUnit;
use blz_split::SplitUnit;
use std::alloc::Global;
use std::ops::Deref;
use std::sync::Arc;

/// A unit that is built: its abbreviations and its root are read, and its line program has a header. Units with one table
/// of abbreviations share it.
#[derive(Drop)]
pub struct BuiltUnit {
    pub header: UnitHeader,
    pub abbreviations: Arc<Abbreviations>,
    pub root: UnitRoot,
    pub origin: Origin,
}

/// Whether a unit has an id, by which a package may have its split unit.
fn has_id(kind: UnitKind) -> bool
    ensures { result ≡ has_id kind }
{
    match kind {
        UnitKind::Skeleton | UnitKind::SplitCompile => true,
        UnitKind::Compile | UnitKind::TypeUnit | UnitKind::Partial | UnitKind::SplitType => false,
    }
}

/// Whether the functions of a unit may stand in a package.
#[tactic(auto, unfolding(crate::specs::BuiltUnits::reading, crate::specs::BuiltUnits::pieces_of))]
pub fn may_be_split(dwarf: &Dwarf<'_, '_>, header: &UnitHeader) -> bool
    ensures value { result ≡ has_id header.now.kind && is_some dwarf.now.package }
    ensures whole { result ≡ false → reading (files_view dwarf.now) header.now
        ≡ built (files_view dwarf.now).main header.now }
{
    match header.kind {
        UnitKind::Skeleton | UnitKind::SplitCompile => dwarf.package.is_some(),
        _ => false,
    }
}

/// Asks for the header of a line program, where a root tells one.
fn check_lines(
    alloc: Global,
    room: &mut Room,
    sections: &Sections<'_, '_>,
    shared: &mut SharedParts,
    header: &UnitHeader,
    line: Option<u64>,
) -> Result<()>
    requires { AreShared (sections_view sections.now) shared.old }
    ensures value { Gives (λ _. tt) result
        (or_invalid (has_lines (sections_view sections.now) header.now line)) }
    ensures shared { AreShared (sections_view sections.now) shared.new }
{
    match line {
        Some(at) => shared.check_header(alloc, room, sections, at, header.address_size),
        None => Ok(()),
    }
}

/// The header of the first unit of a section, which has to be there.
#[tactic(auto, unfolding(crate::specs::BuiltUnits::first_unit))]
fn first_header(sections: &Sections<'_, '_>) -> Result<UnitHeader>
    ensures value { Exactly (λ h. h) result
        (or_invalid (first_unit (sections_view sections.now))) }
    ensures ordered { IfOk result (λ h. h.entries ≤ h.end) }
{
    let mut headers = UnitHeaders::new(sections.info);
    match headers.next_header()? {
        Some(header) => Ok(header),
        None => Err(invalid("a contribution of a package has no unit")),
    }
}

/// The root of a unit.
fn parse_root(
    sections: &Sections<'_, '_>,
    header: &UnitHeader,
    abbreviations: &Abbreviations,
) -> Result<UnitRoot>
    requires { sections.now.shift + length sections.now.info.bytes.now < 2 ^ 64 }
    ensures { Exactly (λ r. r) result
        (or_invalid (root_of (lying (sections_view sections.now)) header.now abbreviations.now)) }
{
    UnitRoot::parse(sections, header, abbreviations)
}

/// The same, where what is read takes of the room.
fn root_of(
    room: &mut Room,
    sections: &Sections<'_, '_>,
    header: &UnitHeader,
    abbreviations: &Abbreviations,
) -> Result<UnitRoot>
    requires { sections.now.shift + length sections.now.info.bytes.now < 2 ^ 64 }
    ensures { Gives (λ r. r) result
        (or_invalid (root_of (lying (sections_view sections.now)) header.now abbreviations.now)) }
{
    room.take(attribute_words(sections, header, abbreviations))?;
    match parse_root(sections, header, abbreviations) {
        Ok(root) => {
            room.take(names_words(sections, &root))?;
            Ok(root)
        },
        Err(fault) => {
            room.take(longest_search(sections))?;
            Err(fault)
        },
    }
}

/// The abbreviations and the root of a unit.
#[tactic(auto, unfolding(crate::specs::BuiltUnits::built))]
fn read(
    alloc: Global,
    room: &mut Room,
    sections: &Sections<'_, '_>,
    shared: &mut SharedParts,
    header: &UnitHeader,
) -> Result<(Arc<Abbreviations>, UnitRoot)>
    requires fits { sections.now.shift + length sections.now.info.bytes.now < 2 ^ 64 }
    requires shared { AreShared (sections_view sections.now) shared.old }
    ensures value { Gives
        (λ r. parts_of (sections_view sections.now) header.now (arc_value r.0, r.1)) result
        (or_invalid (built (sections_view sections.now) header.now)) }
    ensures shared { AreShared (sections_view sections.now) shared.new }
{
    let abbreviations = shared.table(alloc, room, sections, header)?;
    let root = root_of(room, sections, header, abbreviations.deref())?;
    check_lines(alloc, room, sections, shared, header, root.line)?;
    Ok((abbreviations, root))
}

/// The pieces of the split unit of a unit, where the package has one that is not empty.
#[tactic(auto, unfolding(crate::specs::BuiltUnits::pieces_of))]
fn pieces_of(
    alloc: Global,
    dwarf: &Dwarf<'_, '_>,
    packed: &mut SharedPackage,
    header: &UnitHeader,
) -> Result<Option<SplitUnit>>
    requires { IsPackageShared (files_view dwarf.now) packed.old }
    ensures value { Gives (λ p. p) result
        (or_invalid (pieces_of (files_view dwarf.now) header.now)) }
    ensures inside { IfOk result
        (λ o. IfSome o (λ p. IsInside (files_view dwarf.now).«package» (Split p))) }
    ensures packed { IsPackageShared (files_view dwarf.now) packed.new }
{
    if !has_id(header.kind) {
        return Ok(None);
    }
    let Some(parts) = &dwarf.package else {
        return Ok(None);
    };
    let pieces = packed.find_cu(alloc, parts, header.id)?;
    Ok(not_empty(pieces))
}

/// Pieces in which a unit can stand.
fn not_empty(pieces: Option<SplitUnit>) -> Option<SplitUnit>
    ensures { result ≡ not_empty pieces }
{
    match pieces {
        Some(unit) if unit.info.len == 0 => None,
        _ => pieces,
    }
}

impl BuiltUnit {
    /// Builds a unit of an origin. InvalidDwarf exactly where its abbreviations, its root or the header of its line
    /// program have no value.
    #[tactic(auto, using(crate::proofs::SharedSteps::shared_to, crate::proofs::SharedSteps::shared_from))]
    pub fn of_file(
        alloc: Global,
        room: &mut Room,
        dwarf: &Dwarf<'_, '_>,
        shared: &mut SharedParts,
        origin: Origin,
        header: &UnitHeader,
    ) -> Result<BuiltUnit>
        requires readable { IsReadable dwarf.now }
        requires inside { IsInside (files_view dwarf.now).«package» origin }
        requires ordered { header.now.entries ≤ header.now.end }
        requires shared { AreShared (sections_from (files_view dwarf.now) origin) shared.old }
        ensures value { Gives (built_view (files_view dwarf.now)) result
            (or_invalid (built (sections_from (files_view dwarf.now) origin) header.now)) }
        ensures fits { IfOk result (BuiltFits (files_view dwarf.now)) }
        ensures origin { IfOk result (λ u. u.origin ≡ origin) }
        ensures shared { AreShared (sections_from (files_view dwarf.now) origin) shared.new }
    {
        room.take(UNIT_WORDS)?;
        let sections = dwarf.sections(&origin);
        let (abbreviations, root) = read(alloc, room, &sections, shared, header)?;
        Ok(BuiltUnit {
            header: *header,
            abbreviations,
            root,
            origin,
        })
    }

    /// The unit with addresses and ranges that count from those of its main unit.
    fn based_on(self, main: &UnitRoot) -> BuiltUnit
        ensures { result ≡ record self { root = rooted_on main.now self.root } }
    {
        let root = UnitRoot {
            addr_base: main.addr_base,
            low_pc: main.low_pc,
            ..self.root
        };
        BuiltUnit { root, ..self }
    }

    /// The unit of the pieces of a package, based on the main unit that has its id. It shares nothing with others.
    #[tactic(auto, unfolding(crate::specs::BuiltUnits::split_built))]
    fn of_pieces(
        alloc: Global,
        room: &mut Room,
        dwarf: &Dwarf<'_, '_>,
        pieces: SplitUnit,
        main: &UnitRoot,
    ) -> Result<BuiltUnit>
        requires readable { IsReadable dwarf.now }
        requires inside { IsInside (files_view dwarf.now).«package» (Split pieces) }
        ensures value { Gives (built_view (files_view dwarf.now)) result (or_invalid
            (split_built (sections_from (files_view dwarf.now) (Split pieces)) main.now)) }
        ensures fits { IfOk result (BuiltFits (files_view dwarf.now)) }
    {
        let origin = Origin::Split(pieces);
        let header = first_header(&dwarf.sections(&origin))?;
        let mut shared = SharedParts::new(alloc);
        let unit = BuiltUnit::of_file(alloc, room, dwarf, &mut shared, origin, &header)?;
        Ok(unit.based_on(main))
    }

    /// The unit from which the functions of a unit of the main file are read: the split unit of its id where the package
    /// has one that is not empty, and else the unit itself. InvalidDwarf exactly where that cannot be built, or the index
    /// of the package has no value for the id.
    #[tactic(auto, unfolding(crate::specs::BuiltUnits::reading))]
    pub fn reading(
        alloc: Global,
        room: &mut Room,
        dwarf: &Dwarf<'_, '_>,
        shared: &mut SharedParts,
        packed: &mut SharedPackage,
        header: &UnitHeader,
    ) -> Result<BuiltUnit>
        requires readable { IsReadable dwarf.now }
        requires ordered { header.now.entries ≤ header.now.end }
        requires shared { AreShared (files_view dwarf.now).main shared.old }
        requires packed { IsPackageShared (files_view dwarf.now) packed.old }
        ensures value { Gives (built_view (files_view dwarf.now)) result
            (or_invalid (reading (files_view dwarf.now) header.now)) }
        ensures fits { IfOk result (BuiltFits (files_view dwarf.now)) }
        ensures shared { AreShared (files_view dwarf.now).main shared.new }
        ensures packed { IsPackageShared (files_view dwarf.now) packed.new }
    {
        let Some(pieces) = pieces_of(alloc, dwarf, packed, header)? else {
            return BuiltUnit::of_file(alloc, room, dwarf, shared, Origin::Main, header);
        };
        let main = BuiltUnit::of_file(alloc, room, dwarf, shared, Origin::Main, header)?;
        BuiltUnit::of_pieces(alloc, room, dwarf, pieces, &main.root)
    }

    /// The unit with the sections that it was built from.
    pub fn open<'u, 'b>(&'u self, dwarf: &'u Dwarf<'_, 'b>) -> OpenUnit<'u, 'b>
        requires readable { IsReadable dwarf.now }
        requires fits { BuiltFits (files_view dwarf.now) self.now }
        ensures view { open_view result ≡ built_view (files_view dwarf.now) self.now }
        ensures opened { CanBeOpened result }
    {
        OpenUnit {
            sections: dwarf.sections(&self.origin),
            header: self.header,
            abbreviations: self.abbreviations.deref(),
            root: self.root,
        }
    }
}

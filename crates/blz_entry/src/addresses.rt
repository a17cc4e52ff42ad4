//! Addresses by their index.
ghost use Rattle.std.specs.Prelude.{◌≡◌};
ghost use Rattle.blz_model.specs.Part.{Exactly};
ghost use Rattle.blz_info.specs.Marks.{or_invalid};
ghost use Rattle.blz_entry.specs.AddressIndexes.{address_of, value_address};

use crate::root::UnitRoot;
use blz_error::Result;
use blz_info::{AttrValue, Sections, UnitHeader, indexed_address, invalid};

#[tactic(auto, unfolding(crate::specs::AddressIndexes::address_of))]
pub(crate) fn address_of(
    sections: &Sections<'_, '_>,
    header: &UnitHeader,
    root: &UnitRoot,
    index: u64,
) -> Option<u64>
    ensures { result ≡ address_of sections.now header.now root.now index }
{
    indexed_address(header.address_size, &sections.addr, root.addr_base, index)
}

/// A value as an address, where it is one.
#[inline(always)]
#[tactic(auto, unfolding(crate::specs::AddressIndexes::value_address))]
pub(crate) fn value_address(
    sections: &Sections<'_, '_>,
    header: &UnitHeader,
    root: &UnitRoot,
    value: AttrValue,
) -> Option<Option<u64>>
    ensures { result ≡ value_address sections.now header.now root.now value }
{
    match value {
        AttrValue::Addr(address) => Some(Some(address)),
        AttrValue::AddrIndex(index) => {
            let address = address_of(sections, header, root, index)?;
            Some(Some(address))
        }
        _ => Some(None),
    }
}

/// The address at an index of the unit's addresses (DWARF 5 section 7.27). InvalidDwarf exactly where the index lies
/// outside `.debug_addr`.
pub fn address(
    sections: &Sections<'_, '_>,
    header: &UnitHeader,
    root: &UnitRoot,
    index: u64,
) -> Result<u64>
    ensures { Exactly (λ a. a) result
        (or_invalid (address_of sections.now header.now root.now index)) }
{
    match address_of(sections, header, root, index) {
        Some(address) => Ok(address),
        None => Err(invalid("the index of an address lies outside")),
    }
}

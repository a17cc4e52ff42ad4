//! An attribute of a debugging information entry.
use crate::Writer;
use std::alloc::AllocError;

/// DW_FORM_addr, _data2, _data4, _data8, _string, _data1, _udata, _ref_addr, _ref4, _sec_offset, _flag_present, _strx,
/// _addrx and _rnglistx (DWARF 5 section 7.5.6).
const ADDRESS: u64 = 0x01;

const DATA2: u64 = 0x05;

const DATA4: u64 = 0x06;

const DATA8: u64 = 0x07;

const STRING: u64 = 0x08;

const DATA1: u64 = 0x0b;

const UDATA: u64 = 0x0f;

const FILE_REFERENCE: u64 = 0x10;

const REFERENCE4: u64 = 0x13;

const SECTION_OFFSET: u64 = 0x17;

const FLAG_PRESENT: u64 = 0x19;

const STRING_INDEX: u64 = 0x1a;

const ADDRESS_INDEX: u64 = 0x1b;

const RANGE_LIST_INDEX: u64 = 0x23;

/// DW_FORM_GNU_ref_alt.
const SUPPLEMENTARY_REFERENCE: u64 = 0x1f20;

/// How a value is written.
#[derive(Clone, Copy)]
pub enum Value<'a> {
    /// No bytes.
    Nothing,
    One(u8),
    Two(u16),
    Four(u32),
    Eight(u64),
    /// A LEB128 number without a sign.
    Uleb(u64),
    /// A text and a zero byte.
    Text(&'a str),
    /// Bytes as they are.
    Raw(&'a [u8]),
}

/// An attribute: its name, its form and its value.
#[derive(Clone, Copy)]
pub struct Attribute<'a> {
    pub name: u64,
    pub form: u64,
    pub value: Value<'a>,
}

impl<'a> Attribute<'a> {
    /// An attribute of any form.
    pub fn of_form(name: u64, form: u64, value: Value<'a>) -> Attribute<'a> {
        Attribute { name, form, value }
    }

    /// A text that stands in the entry.
    pub fn text(name: u64, text: &'a str) -> Attribute<'a> {
        Attribute::of_form(name, STRING, Value::Text(text))
    }

    /// An address of 64 bits.
    pub fn address(name: u64, address: u64) -> Attribute<'a> {
        Attribute::of_form(name, ADDRESS, Value::Eight(address))
    }

    pub fn data1(name: u64, number: u8) -> Attribute<'a> {
        Attribute::of_form(name, DATA1, Value::One(number))
    }

    pub fn data2(name: u64, number: u16) -> Attribute<'a> {
        Attribute::of_form(name, DATA2, Value::Two(number))
    }

    pub fn data4(name: u64, number: u32) -> Attribute<'a> {
        Attribute::of_form(name, DATA4, Value::Four(number))
    }

    pub fn data8(name: u64, number: u64) -> Attribute<'a> {
        Attribute::of_form(name, DATA8, Value::Eight(number))
    }

    pub fn udata(name: u64, number: u64) -> Attribute<'a> {
        Attribute::of_form(name, UDATA, Value::Uleb(number))
    }

    /// The place of an entry in the same unit.
    pub fn reference(name: u64, place: u32) -> Attribute<'a> {
        Attribute::of_form(name, REFERENCE4, Value::Four(place))
    }

    /// The offset of an entry in the `.debug_info` of the same file, from version 3 on.
    pub fn file_reference(name: u64, offset: u32) -> Attribute<'a> {
        Attribute::of_form(name, FILE_REFERENCE, Value::Four(offset))
    }

    /// The offset of an entry in the `.debug_info` of the supplementary file.
    pub fn supplementary_reference(name: u64, offset: u32) -> Attribute<'a> {
        Attribute::of_form(name, SUPPLEMENTARY_REFERENCE, Value::Four(offset))
    }

    /// A place in another section, from version 4 on; before it is `data4`.
    pub fn section_offset(name: u64, offset: u32) -> Attribute<'a> {
        Attribute::of_form(name, SECTION_OFFSET, Value::Four(offset))
    }

    /// A text, by its index in the unit's offsets of strings.
    pub fn text_at(name: u64, index: u64) -> Attribute<'a> {
        Attribute::of_form(name, STRING_INDEX, Value::Uleb(index))
    }

    /// An address, by its index in the unit's table of addresses.
    pub fn address_at(name: u64, index: u64) -> Attribute<'a> {
        Attribute::of_form(name, ADDRESS_INDEX, Value::Uleb(index))
    }

    /// A range list, by its index in the unit's table of lists.
    pub fn ranges_at(name: u64, index: u64) -> Attribute<'a> {
        Attribute::of_form(name, RANGE_LIST_INDEX, Value::Uleb(index))
    }

    /// A flag that is set.
    pub fn present(name: u64) -> Attribute<'a> {
        Attribute::of_form(name, FLAG_PRESENT, Value::Nothing)
    }

    pub(crate) fn write(&self, out: &mut Writer) -> Result<(), AllocError> {
        match self.value {
            Value::Nothing => Ok(()),
            Value::One(number) => out.u8(number),
            Value::Two(number) => out.u16(number),
            Value::Four(number) => out.u32(number),
            Value::Eight(number) => out.u64(number),
            Value::Uleb(number) => out.uleb(number),
            Value::Text(text) => out.text(text),
            Value::Raw(bytes) => out.raw(bytes),
        }
    }
}

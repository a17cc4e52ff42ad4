//! The table of forms.
ghost use Rattle.std.specs.Prelude.{◌≡◌};
ghost use Rattle.blz_info.specs.Forms.{form_of};

use blz_constants::dwarf;

/// The bytes of a number.
#[derive(Clone, Copy)]
pub enum Width {
    One,
    Two,
    Three,
    Four,
    Eight,
}

/// What a form reads as a number.
#[derive(Clone, Copy)]
pub enum Field {
    /// No bytes.
    Nothing,
    /// A number of so many bytes.
    Fixed(Width),
    /// An address, which may be relocated.
    Address,
    /// An offset of four or eight bytes, which may be relocated.
    Offset,
    /// In version 2 an address, and else an offset.
    RefAddress,
    /// A LEB128 number without a sign.
    Uleb,
    /// Sixteen bytes that are passed over.
    Sixteen,
    /// A length of so many bytes, and as many bytes that are passed over.
    Block(Width),
    /// A length as a LEB128 number, and as many bytes that are passed over.
    UlebBlock,
}

/// What kind of value the number is.
#[derive(Clone, Copy)]
pub enum Makes {
    Addr,
    AddrIndex,
    Const,
    StrRef,
    LineStrRef,
    StrIndex,
    SupStr,
    UnitRef,
    InfoRef,
    SupRef,
    SecOffset,
    RangeIndex,
    Other,
}

/// How a form is read (DWARF 5 sections 7.5.5 and 7.5.6).
#[derive(Clone, Copy)]
pub enum Form {
    /// As a number.
    Numeric(Field, Makes),
    /// As a LEB128 number with a sign.
    Signed,
    /// As a text up to its zero.
    Text,
}

/// How the form of a code is read; None at a code that stands for no form, and at those that need more than their own
/// bytes: DW_FORM_indirect and DW_FORM_implicit_const.
#[tactic(auto, unfolding(crate::specs::Forms::form_of))]
pub(crate) fn form_of(code: u64) -> Option<Form>
    ensures { result ≡ form_of code }
{
    let form = match code {
        dwarf::DW_FORM_addr => Form::Numeric(Field::Address, Makes::Addr),
        dwarf::DW_FORM_block2 => Form::Numeric(Field::Block(Width::Two), Makes::Other),
        dwarf::DW_FORM_block4 => Form::Numeric(Field::Block(Width::Four), Makes::Other),
        dwarf::DW_FORM_data2 => Form::Numeric(Field::Fixed(Width::Two), Makes::Const),
        dwarf::DW_FORM_data4 => Form::Numeric(Field::Fixed(Width::Four), Makes::Const),
        dwarf::DW_FORM_data8 => Form::Numeric(Field::Fixed(Width::Eight), Makes::Const),
        dwarf::DW_FORM_string => Form::Text,
        dwarf::DW_FORM_block | dwarf::DW_FORM_exprloc => Form::Numeric(
            Field::UlebBlock,
            Makes::Other,
        ),
        dwarf::DW_FORM_block1 => Form::Numeric(Field::Block(Width::One), Makes::Other),
        dwarf::DW_FORM_data1 => Form::Numeric(Field::Fixed(Width::One), Makes::Const),
        dwarf::DW_FORM_flag => Form::Numeric(Field::Fixed(Width::One), Makes::Other),
        dwarf::DW_FORM_sdata => Form::Signed,
        dwarf::DW_FORM_strp => Form::Numeric(Field::Offset, Makes::StrRef),
        dwarf::DW_FORM_udata => Form::Numeric(Field::Uleb, Makes::Const),
        dwarf::DW_FORM_ref_addr => Form::Numeric(Field::RefAddress, Makes::InfoRef),
        dwarf::DW_FORM_ref1 => Form::Numeric(Field::Fixed(Width::One), Makes::UnitRef),
        dwarf::DW_FORM_ref2 => Form::Numeric(Field::Fixed(Width::Two), Makes::UnitRef),
        dwarf::DW_FORM_ref4 => Form::Numeric(Field::Fixed(Width::Four), Makes::UnitRef),
        dwarf::DW_FORM_ref8 => Form::Numeric(Field::Fixed(Width::Eight), Makes::UnitRef),
        dwarf::DW_FORM_ref_udata => Form::Numeric(Field::Uleb, Makes::UnitRef),
        dwarf::DW_FORM_sec_offset => Form::Numeric(Field::Offset, Makes::SecOffset),
        dwarf::DW_FORM_flag_present => Form::Numeric(Field::Nothing, Makes::Other),
        dwarf::DW_FORM_strx => Form::Numeric(Field::Uleb, Makes::StrIndex),
        dwarf::DW_FORM_addrx => Form::Numeric(Field::Uleb, Makes::AddrIndex),
        dwarf::DW_FORM_ref_sup4 => Form::Numeric(Field::Fixed(Width::Four), Makes::SupRef),
        dwarf::DW_FORM_strp_sup | dwarf::DW_FORM_GNU_strp_alt => Form::Numeric(
            Field::Offset,
            Makes::SupStr,
        ),
        dwarf::DW_FORM_data16 => Form::Numeric(Field::Sixteen, Makes::Other),
        dwarf::DW_FORM_line_strp => Form::Numeric(Field::Offset, Makes::LineStrRef),
        dwarf::DW_FORM_ref_sig8 => Form::Numeric(Field::Fixed(Width::Eight), Makes::Other),
        dwarf::DW_FORM_loclistx => Form::Numeric(Field::Uleb, Makes::Other),
        dwarf::DW_FORM_rnglistx => Form::Numeric(Field::Uleb, Makes::RangeIndex),
        dwarf::DW_FORM_ref_sup8 => Form::Numeric(Field::Fixed(Width::Eight), Makes::SupRef),
        dwarf::DW_FORM_strx1 => Form::Numeric(Field::Fixed(Width::One), Makes::StrIndex),
        dwarf::DW_FORM_strx2 => Form::Numeric(Field::Fixed(Width::Two), Makes::StrIndex),
        dwarf::DW_FORM_strx3 => Form::Numeric(Field::Fixed(Width::Three), Makes::StrIndex),
        dwarf::DW_FORM_strx4 => Form::Numeric(Field::Fixed(Width::Four), Makes::StrIndex),
        dwarf::DW_FORM_addrx1 => Form::Numeric(Field::Fixed(Width::One), Makes::AddrIndex),
        dwarf::DW_FORM_addrx2 => Form::Numeric(Field::Fixed(Width::Two), Makes::AddrIndex),
        dwarf::DW_FORM_addrx3 => Form::Numeric(Field::Fixed(Width::Three), Makes::AddrIndex),
        dwarf::DW_FORM_addrx4 => Form::Numeric(Field::Fixed(Width::Four), Makes::AddrIndex),
        dwarf::DW_FORM_GNU_ref_alt => Form::Numeric(Field::Offset, Makes::SupRef),
        _ => return None,
    };
    Some(form)
}

//! Numbers of a fixed size, the least byte first.
ghost use Rattle.std.specs.Prelude.{◌≡◌, ◌++◌, OnOk};
ghost use Rattle.blz_tool.specs.Fields.{field_bytes, fields_bytes};

use std::alloc::AllocError;

/// A number of a fixed size.
#[derive(Clone, Copy)]
pub enum Field {
    /// Of 16 bits.
    U16(u16),
    /// Of 32 bits.
    U32(u32),
    /// Of 64 bits.
    U64(u64),
}

/// Appends some numbers.
pub fn push_fields(out: &mut Vec<u8>, fields: &[Field]) -> Result<(), AllocError>
    ensures { OnOk result (out.new.items ≡ out.old.items ++ fields_bytes fields.now) }
{
    for field in fields {
        push_field(out, *field)?;
    }
    Ok(())
}

fn push_field(out: &mut Vec<u8>, field: Field) -> Result<(), AllocError>
    ensures { OnOk result (out.new.items ≡ out.old.items ++ field_bytes field) }
{
    match field {
        Field::U16(number) => out.extend_from_slice(&number.to_le_bytes()),
        Field::U32(number) => out.extend_from_slice(&number.to_le_bytes()),
        Field::U64(number) => out.extend_from_slice(&number.to_le_bytes()),
    }
}

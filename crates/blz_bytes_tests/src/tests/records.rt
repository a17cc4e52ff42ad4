//! Records of both classes, read in both byte orders.

ghost use Rattle.std.specs.Prelude.{◌≡◌, pos};

use blz_checks::Checks;
use blz_records::{
    ByteOrder, Elf32_Ehdr, Elf32_Rel, Elf32_Rela, Elf32_Shdr, Elf32_Sym, Elf64_Ehdr, Elf64_Rel,
    Elf64_Rela, Elf64_Shdr, Elf64_Sym, ElfN, Pod, SymType,
};
use std::test::Fail;

// all fields are 0
fn no_relocation() -> Elf64_Rela
    ensures place { result.r_offset ≡ 0 }
    ensures info { result.r_info ≡ 0 }
    ensures addend { result.r_addend ≡ pos 0 }
{
    Elf64_Rela::default()
}

#[test]
fn takes_the_symbol_of_a_relocation() -> Result<(), Fail> {
    let mut checks = Checks::new();
    let mut narrow = Elf32_Rela::default();
    narrow.r_info = 0x500;
    checks.same(narrow.sym(), 5);
    let mut wide = no_relocation();
    wide.r_info = 0x7_0000_0000;
    checks.same(wide.sym(), 7);
    let mut narrow = Elf32_Rel::default();
    narrow.r_info = 0x300;
    checks.same(narrow.sym(), 3);
    let mut wide = Elf64_Rel::default();
    wide.r_info = 0xa_0000_0000;
    checks.same(wide.sym(), 10);
    checks.result()
}

#[test]
fn widens_with_the_sign_of_the_addend() -> Result<(), Fail> {
    let mut checks = Checks::new();
    let bytes = [0, 0, 0, 16, 0, 0, 1, 1, 0xff, 0xff, 0xff, 0xfe];
    let narrow = Elf32_Rela::read(&bytes, ByteOrder::Big);
    let wide = Elf64_Rela::from(&narrow);
    checks.same(wide.r_offset, 16);
    checks.same(wide.r_info, 0x101);
    checks.same(wide.r_addend, -2);
    checks.result()
}

#[test]
fn reads_a_symbol_of_either_class() -> Result<(), Fail> {
    let mut checks = Checks::new();
    let narrow = [1, 0, 0, 0, 2, 0, 0, 0, 3, 0, 0, 0, 0x12, 0, 4, 0];
    let symbol = ElfN::<Elf64_Sym>::B32(Elf32_Sym::read_le(&narrow));
    checks.holds(symbol.is_32bit());
    checks.same(symbol.name(), 1);
    checks.same(symbol.value(), 2);
    checks.same(symbol.size(), 3);
    checks.same(symbol.type_(), 2);
    checks.same(symbol.shndx(), 4);
    checks.same(symbol.to_64bit().st_size, 3);
    let wide = [
        0, 0, 0, 1, 0x11, 0, 0, 4, 0, 0, 0, 0, 0, 0, 0, 2, 0, 0, 0, 0, 0, 0, 0, 3,
    ];
    let symbol = ElfN::B64(Elf64_Sym::read_be(&wide));
    checks.holds(!symbol.is_32bit());
    checks.same(symbol.value(), 2);
    checks.holds(symbol.matches(SymType::Variable));
    checks.holds(!symbol.matches(SymType::Function));
    checks.holds(SymType::try_from(&symbol) == Ok(SymType::Variable));
    checks.result()
}

#[test]
fn knows_the_types_of_symbols() -> Result<(), Fail> {
    let mut checks = Checks::new();
    for (info, want) in [
        (0x10, Some(SymType::Undefined)),
        (0x11, Some(SymType::Variable)),
        (0x12, Some(SymType::Function)),
        (0x1a, Some(SymType::Function)),
        (0x13, None),
    ] {
        let mut symbol = Elf64_Sym::default();
        symbol.st_info = info;
        checks.holds(SymType::try_from(&symbol).ok() == want);
    }
    checks.holds(SymType::default() == SymType::Undefined);
    checks.result()
}

#[test]
fn reads_headers_of_either_class() -> Result<(), Fail> {
    let mut checks = Checks::new();
    let header = ElfN::<Elf64_Ehdr>::B32(Elf32_Ehdr::default());
    checks.same(header.shoff(), 0);
    checks.same(header.shnum(), 0);
    let section = ElfN::<Elf64_Shdr>::B32(Elf32_Shdr::default());
    checks.same(section.size(), 0);
    checks.same(i16::read_le(&[0xfe, 0xff]), -2);
    checks.same(
        u128::read_be(&[0, 0, 0, 0, 0, 0, 0, 1, 0, 0, 0, 0, 0, 0, 0, 2]),
        (1 << 64) + 2,
    );
    checks.result()
}

//! Images whose answers are known by hand.
use crate::Image;
use std::alloc::{AllocError, Global};

/// A at [0, 100), and B at [10, 20) in it.
pub fn nested_functions(alloc: Global) -> Result<Vec<u8>, AllocError> {
    with_nested_functions(Image::elf64(alloc))
}

/// The same two functions, in an image of any class and order.
pub fn with_nested_functions(image: Image<'_>) -> Result<Vec<u8>, AllocError> {
    image.symbol("A", 0, 100)?.symbol("B", 10, 10)?.bytes()
}

/// A at [0, 100), and B at [0, 10).
pub fn same_start(alloc: Global) -> Result<Vec<u8>, AllocError> {
    Image::elf64(alloc)
        .symbol("A", 0, 100)?
        .symbol("B", 0, 10)?
        .bytes()
}

/// S of no size at 0x40.
pub fn sizeless_symbol(alloc: Global) -> Result<Vec<u8>, AllocError> {
    Image::elf64(alloc).symbol("S", 0x40, 0)?.bytes()
}

/// S of no size at 0x40 in `.dynsym`, beside another symbol at 0x200 in `.symtab`.
pub fn sizeless_dynamic_symbol(alloc: Global) -> Result<Vec<u8>, AllocError> {
    Image::elf64(alloc)
        .symbol("other", 0x200, 16)?
        .dynamic_symbol("S", 0x40, 0)?
        .bytes()
}

/// A at [0, 100), and U at 20, which is undefined.
pub fn undefined_symbol_inside(alloc: Global) -> Result<Vec<u8>, AllocError> {
    Image::elf64(alloc)
        .symbol("A", 0, 100)?
        .undefined_symbol("U", 20, 0)?
        .bytes()
}

/// S of 32 bytes, of which 16 lie at the last addresses.
pub fn last_addresses(alloc: Global) -> Result<Vec<u8>, AllocError> {
    Image::elf64(alloc)
        .symbol("S", 0xffff_ffff_ffff_fff0, 32)?
        .bytes()
}

/// A header and nothing else.
pub fn no_sections(alloc: Global) -> Result<Vec<u8>, AllocError> {
    Image::elf64(alloc).bytes()
}

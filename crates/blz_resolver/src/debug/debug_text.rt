//! How a resolver is printed.

use crate::ElfResolver;
use std::fmt;
use std::fmt::Formatter;

/// Prints what answers, with debug information or by symbols alone, and the module of the image.
impl fmt::Debug for ElfResolver<'_> {
    fn fmt<W: fmt::Write>(&self, f: &mut Formatter<W>) -> fmt::Result {
        let name = match &self.debug {
            Some(_) => "DwarfResolver",
            None => "ElfParser",
        };
        let module = self.bundle.module.unwrap_or("<unknown>");
        f.debug_tuple(name).field(&module).finish()
    }
}

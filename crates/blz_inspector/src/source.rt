//! What is inspected.
use std::fmt;
use std::fmt::Formatter;

/// An ELF file.
#[derive(PartialEq, Drop)]
pub struct Elf {
    /// The path of the file.
    pub path: String,
    /// Whether its debug information is asked, and not its symbols alone.
    pub debug_syms: bool,
}

impl Elf {
    ghost use Rattle.std.specs.Prelude.{◌≡◌, true};

    /// A file whose debug information is asked.
    pub fn new(path: String) -> Elf
        ensures { result ≡ record { path = path; debug_syms = true } }
    {
        Elf {
            path,
            debug_syms: true,
        }
    }
}

/// Prints the path.
impl fmt::Debug for Elf {
    fn fmt<W: fmt::Write>(&self, f: &mut Formatter<W>) -> fmt::Result {
        f.debug_tuple("Elf").field(&self.path.as_str()).finish()
    }
}

/// Where symbols come from.
#[derive(PartialEq, Drop)]
pub enum Source {
    /// An ELF file.
    Elf(Elf),
}

impl Source {
    ghost use Rattle.std.specs.Prelude.{◌≡◌, Some};
    ghost use Rattle.std.specs.Option.{option_map};
    ghost use Rattle.blz_inspector.specs.SourceViews.{asked_of};

    /// The path, which a source always has.
    pub fn path(&self) -> Option<&str>
        ensures { option_map (λ p. p.now) result ≡ Some (asked_of self.now).path }
    {
        match self {
            Source::Elf(elf) => Some(elf.path.as_str()),
        }
    }
}

impl From<Elf> for Source {
    ghost use Rattle.std.specs.Prelude.{◌≡◌};
    ghost use Rattle.blz_inspector.specs.declared.source.Source.TheVariants as source;

    ghost from_gives = { λ elf s. s ≡ source.Elf elf };

    fn from(elf: Elf) -> Source {
        Source::Elf(elf)
    }
}

/// Prints the file.
impl fmt::Debug for Source {
    fn fmt<W: fmt::Write>(&self, f: &mut Formatter<W>) -> fmt::Result {
        match self {
            Source::Elf(elf) => elf.fmt(f),
        }
    }
}

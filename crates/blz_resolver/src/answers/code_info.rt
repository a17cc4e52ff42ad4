//! Places in the sources as they are answered.
ghost use Rattle.std.specs.Prelude.{◌≡◌};
ghost use Rattle.std.specs.Option.{option_map};
ghost use Rattle.blz_elf.specs.CallViews.{site_view};
ghost use Rattle.blz_line.specs.Lookups.{location_view};
ghost use Rattle.blz_resolver.specs.CallFrames.{short_column, shown_site};

use blz_elf::CodeInfo;
use blz_line::Location;

// A column in the 16 bits that it is answered with.
fn short_column(column: u32) -> u16
    ensures { result ≡ short_column column }
{
    column.min(65535) as u16
}

fn short_columns(column: Option<u32>) -> Option<u16>
    ensures { result ≡ option_map short_column column }
{
    match column {
        Some(column) => Some(short_column(column)),
        None => None,
    }
}

/// A place as it is answered.
pub(crate) fn code_info<'b>(location: Location<'b>) -> CodeInfo<'b>
    ensures { site_view result ≡ shown_site (location_view location.entry) }
{
    CodeInfo {
        dir: Some(location.dir),
        file: location.file,
        line: location.line,
        column: short_columns(location.column),
    }
}

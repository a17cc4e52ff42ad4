//! The least line of some rows.
ghost use Rattle.std.specs.Prelude.{◌≡◌};
ghost use Rattle.blz_rows.specs.Asking.{least_line};
ghost use Rattle.blz_rows.specs.LineAnswers.{lesser};

use crate::found::FoundRow;

/// The least line, none where there is no row.
pub fn least_line(rows: &[FoundRow]) -> Option<u32>
    ensures { result ≡ least_line rows.now }
{
    let mut least: Option<u32> = None;
    for row in rows {
        least = Some(lesser(row.line, least));
    }
    least
}

fn lesser(line: u32, other: Option<u32>) -> u32
    ensures { result ≡ lesser line other }
{
    match other {
        Some(other) => line.min(other),
        None => line,
    }
}

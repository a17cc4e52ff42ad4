//! What sequences cover, and the row of an address.
ghost use Rattle.std.specs.Prelude.{◌≡◌, IfOk};
ghost use Rattle.blz_line.specs.Lookups.{span_of, spans_of, row_at};
ghost use Rattle.blz_line.specs.RowOrder.{IsRising};

use crate::row::{LineRow, LineSequence};
use blz_ranges::Span;
use std::alloc::{AllocError, Global};

fn span_of(sequence: &LineSequence) -> Span
    ensures { result ≡ span_of sequence.now }
{
    Span {
        begin: sequence.start,
        end: sequence.end,
    }
}

/// What each sequence covers.
pub fn spans_of(alloc: Global, sequences: &[LineSequence]) -> Result<Vec<Span>, AllocError>
    ensures { IfOk result (λ spans. spans.items ≡ spans_of sequences.now) }
{
    sequences
        .iter()
        .map(|sequence| span_of(sequence))
        .collect(alloc)
}

/// The last row whose address is not above the addr.
pub fn row_at(rows: &[LineRow], addr: u64) -> Option<LineRow>
    requires { IsRising rows.now }
    ensures { result ≡ row_at rows.now addr }
{
    let count = rows.partition_point(|row| row.address <= addr);
    if count == 0 {
        return None;
    }
    Some(rows[count - 1])
}

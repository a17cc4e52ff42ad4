//! Ranges with their places in a list.
ghost use Rattle.std.specs.Prelude.{◌≡◌, Option, if◌then◌else◌};
ghost use Rattle.blz_ranges.specs.Best.{covers, passes, comes_after, better, place_of};

use crate::span::Span;

/// A range with its place in a list.
#[derive(Clone, Copy)]
pub struct Placed {
    pub place: usize,
    pub span: Span,
}

impl Placed {
    /// Whether a range comes after this one: greater begins come first, then earlier places.
    fn is_before(&self, place: usize, span: &Span) -> bool
        ensures { result ≡ comes_after self.now place span.now }
    {
        span.begin < self.span.begin || (span.begin == self.span.begin && self.place < place)
    }

    /// The better of this range, and of the best of those behind it.
    pub fn or_better(self, behind: Option<Placed>) -> Option<Placed>
        ensures { result ≡ better self behind }
    {
        match behind {
            Some(later) => if self.span.begin < later.span.begin {
                Some(later)
            } else {
                Some(self)
            },
            None => Some(self),
        }
    }
}

/// Whether a range has an address.
pub fn covers(span: &Span, addr: u64) -> bool
    ensures { result ≡ covers span.now addr }
{
    span.begin <= addr && addr < span.end
}

/// Whether a range covers an address, and comes after another one where that is asked.
pub fn passes(addr: u64, after: &Option<Placed>, place: usize, span: &Span) -> bool
    ensures { result ≡ passes addr after.now place span.now }
{
    match after {
        None => covers(span, addr),
        Some(bound) => covers(span, addr) && bound.is_before(place, span),
    }
}

/// The place of a range that was found.
pub fn place_of(best: &Option<Placed>) -> Option<usize>
    ensures { result ≡ place_of best.now }
{
    match best {
        Some(found) => Some(found.place),
        None => None,
    }
}

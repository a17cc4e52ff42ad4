//! A line of a file of hits.
ghost use Rattle.std.specs.Prelude.{◌≡◌, ◌==◌, ◌≤◌, ◌<◌, IfSome, length, position};
ghost use Rattle.std.specs.Option.{option_map};
ghost use Rattle.blz_cover.specs.Hits.{hit_of};
ghost use Rattle.blz_cover.specs.HitViews.{hit_view};

use blz_program::{address, number_up_to};

/// A count at an address.
#[derive(Clone, Copy)]
pub struct Hit {
    pub addr: u64,
    pub count: u64,
}

// The place of the first blank.
fn blank_in(line: &[u8]) -> Option<usize>
    ensures place { result ≡ position (λ b. b == 32) line.now }
    ensures inside { IfSome result (λ i. i < length line.now) }
{
    line.iter().position(|byte| *byte == b' ')
}

/// The hit of a line: an address, a blank and a count from 1 to 2^64 - 1.
pub fn hit_in(line: &[u8]) -> Option<Hit>
    ensures value { option_map hit_view result ≡ hit_of line.now }
    ensures positive { IfSome result (λ h. 1 ≤ h.count) }
{
    let blank = blank_in(line)?;
    let addr = address(&line[..blank])?;
    let count = number_up_to(&line[blank + 1..], u64::MAX)?;
    Some(Hit { addr, count })
}

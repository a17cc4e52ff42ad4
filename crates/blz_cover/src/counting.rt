//! Counting the hits of a file.
ghost use Rattle.std.specs.Prelude.{◌≡◌, ◌+◌, ◌<◌, ◌∷◌, [], true, List, IfErr, OnOk};
ghost use Rattle.blz_error.specs.Texts.{Bytes};
ghost use Rattle.blz_program.specs.Runs.{Text};
ghost use Rattle.blz_program.specs.TextLines.{lines_of};
ghost use Rattle.blz_resolver.specs.Resolver.{has_debug};
ghost use Rattle.blz_cover.specs.Counting.{IsCounted, StopsAt, counted_from};
ghost use Rattle.blz_cover.specs.CoverText.{cover_text};

use crate::cover::Cover;
use crate::fault::CoverFault;
use crate::hit::hit_in;
use crate::text::text;
use blz_bytes::{Room, Steps};
use blz_program::{LineFault, Outcome, first_line};
use blz_resolver::ElfResolver;
use std::alloc::Global;
use std::marker::Brand;
use std::sync::ledger::{Blank, Ledger};

// Adds the hit of a line, which has a number.
fn add_line<L: Ledger>(
    cover: &mut Cover<'_, '_>,
    number: u64,
    line: &[u8],
    steps: &mut Steps<L>,
) -> Result<(), Outcome>
    ensures images { cover.new.images ≡ cover.old.images }
    ensures ok { OnOk result ((lines : List Bytes) → counted_from cover.old.images cover.old.changes number (line.now ∷ lines) ≡ counted_from cover.new.images cover.new.changes (number + 1) lines) }
    ensures err { IfErr result (λ o. (lines : List Bytes) → StopsAt o (counted_from cover.old.images cover.old.changes number (line.now ∷ lines))) }
{
    let Some(hit) = hit_in(line) else {
        return Err(Outcome::BadLine(number, LineFault::BadForm));
    };
    match cover.hit(hit.addr, hit.count, steps) {
        Ok(()) => Ok(()),
        Err(CoverFault::Full(_)) => Err(Outcome::BadLine(number, LineFault::TooLarge)),
        Err(CoverFault::Mark(kind)) => Err(Outcome::Refused(kind)),
        Err(CoverFault::Memory) => Err(Outcome::OutOfMemory),
        Err(CoverFault::Missing(_)) => unreachable!(),
    }
}

// Adds the hits of all lines; the first line that fails decides.
fn add_lines<L: Ledger>(
    cover: &mut Cover<'_, '_>,
    text: &[u8],
    steps: &mut Steps<L>,
) -> Result<(), Outcome>
    ensures ok { OnOk result (counted_from cover.old.images cover.old.changes 1 (lines_of text.now) ≡ Text (cover_text cover.new.images cover.new.changes)) }
    ensures err { IfErr result (λ o. StopsAt o (counted_from cover.old.images cover.old.changes 1 (lines_of text.now))) }
{
    let mut rest = text;
    let mut number = 0;
    while let Some((line, after)) = first_line(rest) {
        number += 1;
        add_line(cover, number, line, steps)?;
        rest = after;
    }
    Ok(())
}

fn counted_with<L: Ledger>(
    alloc: Global,
    resolver: &ElfResolver<'_>,
    room: Room,
    hits: &[u8],
    blank: Blank,
) -> Result<Vec<u8>, Outcome>
    requires name { blank.name ≡ L.name }
    requires parts { blank.parts ≡ L.parts }
    requires some { 0 < blank.parts }
    requires has_debug { has_debug resolver.now ≡ true }
    requires is_prepared { resolver.now.prepared ≡ true }
    ensures { IsCounted result (counted_from resolver.now.images [] 1 (lines_of hits.now)) }
{
    let mut steps: Steps<L> = Steps::new(blank);
    let mut cover = Cover::within(alloc, resolver, room);
    add_lines(&mut cover, hits, &mut steps)?;
    match text(alloc, &cover) {
        Ok(text) => Ok(text),
        Err(_) => Err(Outcome::OutOfMemory),
    }
}

/// The text of the counts of a file of hits, or why there is none. Their lines take of the room.
pub fn counted(
    alloc: Global,
    resolver: &ElfResolver<'_>,
    room: Room,
    hits: &[u8],
) -> Result<Vec<u8>, Outcome>
    requires has_debug { has_debug resolver.now ≡ true }
    requires is_prepared { resolver.now.prepared ≡ true }
    ensures { IsCounted result (counted_from resolver.now.images [] 1 (lines_of hits.now)) }
{
    counted_with::<Brand>(alloc, resolver, room, hits, Blank::new(1))
}

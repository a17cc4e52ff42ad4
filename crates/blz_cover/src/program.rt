//! The top call.
ghost use Rattle.std.specs.Prelude.{◌≡◌, ◌≤◌, true, None, IfOk, IfErr, map, string_bytes};
ghost use Rattle.blz_model.specs.Part.{Gives};
ghost use Rattle.blz_program.specs.Programs.{texts_of};
ghost use Rattle.blz_program.specs.Runs.{FilesFail, IsAnswered, IsKnown, IsMade};
ghost use Rattle.blz_resolver.specs.Books.{framed};
ghost use Rattle.blz_resolver.specs.BundleViews.{bundle_view};
ghost use Rattle.blz_resolver.specs.Counts.{Rose};
ghost use Rattle.blz_resolver.specs.FormatKinds.{IsMemoryOrFormat};
ghost use Rattle.blz_resolver.specs.Outcomes.{FilesStay};
ghost use Rattle.blz_resolver.specs.Resolver.{has_debug};
ghost use Rattle.blz_cover.specs.Counting.{Finds, FindsCover, FindsHits, FindsInBundle, cover_texts, found_for, paths_in};

use crate::counting::counted;
use blz_bytes::{Orders, Room};
use blz_program::{Outcome, Program, finish, read_file};
use blz_resolver::files::Files;
use blz_resolver::outside::Sink;
use blz_resolver::{Bundle, ElfResolver, OwnedBundle};
use std::alloc::Global;

/// How the program speaks of itself.
pub fn blz_cover() -> Program
    ensures { texts_of result ≡ cover_texts }
{
    Program {
        name: "blz_cover",
        usage: "IMAGE HITS",
        bad_line: "bad hit",
    }
}

/// Reads the words, an image and a file of hits; adds up the hits by source line; and writes the counts to `out`. Answers
/// the exit status: 0 where the whole text was written, 1 for an error of opening, of the debug information or of reading
/// the hits, 2 for words that are not of their form, 3 where `out` failed, 4 for want of memory, 5 for a line of the hits
/// that is refused. A line on `err` says which, but for 0.
pub fn run_cover<F: Files, O: Orders, S: Sink, E: Sink>(
    alloc: Global,
    words: &[String],
    files: &mut F,
    orders: &mut O,
    out: &mut S,
    err: &mut E,
) -> u8
    // Each status has its outcome, with the cause, the bytes on `out` and the line on `err`.
    ensures caused { IsAnswered cover_texts result
        (Finds (map string_bytes words.now) (F.contents files.old))
        (FilesFail (paths_in (map string_bytes words.now))
        (Rose (F.faults files.old) (F.faults files.new)))
        S.taken S.faults out.old out.new E.taken E.faults err.old err.new }

    // Where the contents are told and nothing counted a fault, the status is that of what is found, or there was no memory.
    ensures complete { IsKnown (F.contents files.old)
        (λ c. found_for c (paths_in (map string_bytes words.now)))
        (Rose (F.faults files.old) (F.faults files.new))
        (Rose (S.faults out.old) (S.faults out.new)) result }

    // Words that are not of their form give 2, and no file is asked.
    ensures malformed { paths_in (map string_bytes words.now) ≡ None → result ≡ 2 }
    ensures unasked { paths_in (map string_bytes words.now) ≡ None → files.new ≡ files.old }

    ensures stay { FilesStay F.contents F.stamps F.faults files.old files.new }
    ensures out_count { S.faults out.old ≤ S.faults out.new }
    ensures err_count { E.faults err.old ≤ E.faults err.new }
{
    let made = made_of_words(alloc, words, files, orders);
    finish(&blz_cover(), made, out, err)
}

fn made_of_words<F: Files, O: Orders>(
    alloc: Global,
    words: &[String],
    files: &mut F,
    orders: &mut O,
) -> Result<Vec<u8>, Outcome>
    ensures made { IsMade (Finds (map string_bytes words.now) (F.contents files.old))
        (FilesFail (paths_in (map string_bytes words.now))
        (Rose (F.faults files.old) (F.faults files.new))) result }
    ensures malformed { paths_in (map string_bytes words.now) ≡ None → result ≡ Err Outcome.Usage }
    ensures unasked { paths_in (map string_bytes words.now) ≡ None → files.new ≡ files.old }
    ensures stay { FilesStay F.contents F.stamps F.faults files.old files.new }
{
    match words {
        [image, hits] => made_of_files(alloc, image.as_str(), hits.as_str(), files, orders),
        _ => Err(Outcome::Usage),
    }
}

fn made_of_files<F: Files, O: Orders>(
    alloc: Global,
    image: &str,
    hits: &str,
    files: &mut F,
    orders: &mut O,
) -> Result<Vec<u8>, Outcome>
    ensures made { IsMade (FindsCover (F.contents files.old) (image.now, hits.now))
        (Rose (F.faults files.old) (F.faults files.new)) result }
    ensures stay { FilesStay F.contents F.stamps F.faults files.old files.new }
{
    match ElfResolver::open(alloc, files, image) {
        Ok(bundle) => made_of_bundle(alloc, &bundle, hits, files, orders),
        Err(error) => Err(Outcome::refusal(error.kind())),
    }
}

fn made_of_bundle<F: Files, O: Orders>(
    alloc: Global,
    bundle: &OwnedBundle,
    hits: &str,
    files: &mut F,
    orders: &mut O,
) -> Result<Vec<u8>, Outcome>
    ensures made { IsMade (FindsInBundle (F.contents files.old) bundle.now hits.now)
        (Rose (F.faults files.old) (F.faults files.new)) result }
    ensures stay { FilesStay F.contents F.stamps F.faults files.old files.new }
{
    let bundle = bundle.bundle();
    let room = Room::of(bundle.debug_file().image.len() as u64);
    match prepared(alloc, orders, &bundle) {
        Ok(resolver) => made_of_hits(alloc, &resolver, room, hits, files),
        Err(error) => Err(Outcome::refusal(error.kind())),
    }
}

fn made_of_hits<F: Files>(
    alloc: Global,
    resolver: &ElfResolver<'_>,
    room: Room,
    hits: &str,
    files: &mut F,
) -> Result<Vec<u8>, Outcome>
    requires has_debug { has_debug resolver.now ≡ true }
    requires is_prepared { resolver.now.prepared ≡ true }
    ensures made { IsMade (FindsHits (F.contents files.old) resolver.now.images hits.now)
        (Rose (F.faults files.old) (F.faults files.new)) result }
    ensures stay { FilesStay F.contents F.stamps F.faults files.old files.new }
{
    match read_file(alloc, files, hits) {
        Ok(text) => counted(alloc, resolver, room, &text),
        Err(error) => Err(Outcome::refusal(error.kind())),
    }
}

// A resolver that has read all of its debug information.
fn prepared<'b, O: Orders>(
    alloc: Global,
    orders: &mut O,
    bundle: &Bundle<'b>,
) -> blz_error::Result<ElfResolver<'b>>
    ensures frame { Gives (λ _. tt) result (framed (bundle_view bundle.now)) }
    ensures images { IfOk result (λ r. r.images ≡ bundle_view bundle.now) }
    ensures has_debug { IfOk result (λ r. has_debug r ≡ true) }
    ensures is_prepared { IfOk result (λ r. r.prepared ≡ true) }
    ensures kinds { IfErr result (λ e. IsMemoryOrFormat e.kind) }
{
    let mut resolver = ElfResolver::from_bundle(alloc, orders, bundle)?;
    resolver.prepare(alloc, orders)?;
    Ok(resolver)
}

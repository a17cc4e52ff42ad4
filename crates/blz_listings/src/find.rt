//! The program that finds the addresses of names.
ghost use Rattle.std.specs.Prelude.{◌≡◌, ◌≤◌, None, map, string_bytes};
ghost use Rattle.blz_program.specs.Programs.{texts_of};
ghost use Rattle.blz_program.specs.Runs.{FilesFail, IsAnswered, IsKnown};
ghost use Rattle.blz_resolver.specs.Counts.{Rose};
ghost use Rattle.blz_resolver.specs.Outcomes.{FilesStay};
ghost use Rattle.blz_listings.specs.FindTexts.{find_asked, find_texts};
ghost use Rattle.blz_listings.specs.Questions.{Finds, found_for};

use crate::running::run_question;
use crate::words::find_question;
use blz_bytes::Orders;
use blz_program::Program;
use blz_resolver::files::Files;
use blz_resolver::outside::Sink;
use std::alloc::Global;

/// How the program speaks of itself.
pub fn blz_find() -> Program
    ensures { texts_of result ≡ find_texts }
{
    Program {
        name: "blz_find",
        usage: "[--file-offset] IMAGE [NAME..]",
        bad_line: "",
    }
}

/// Reads the words, `[--file-offset] IMAGE [NAME..]`, opens the image and writes to `out` the address of each function and
/// symbol of each name, or without a name of all functions that have one. Answers the exit status: 0 where the whole text
/// was written, 1 for an error of opening or of the search, 2 for words that are not of their form, 3 where `out` failed, 4
/// for want of memory. A line on `err` says which, but for 0.
pub fn run_find<F: Files, O: Orders, S: Sink, E: Sink>(
    alloc: Global,
    words: &[String],
    files: &mut F,
    orders: &mut O,
    out: &mut S,
    err: &mut E,
) -> u8
    // Each status has its outcome, with the cause, the bytes on `out` and the line on `err`.
    ensures caused { IsAnswered find_texts result
        (Finds (find_asked (map string_bytes words.now)) (F.contents files.old))
        (FilesFail (find_asked (map string_bytes words.now))
        (Rose (F.faults files.old) (F.faults files.new)))
        S.taken S.faults out.old out.new E.taken E.faults err.old err.new }

    // Where the contents are told and nothing counted a fault, a text gives 0 and a mark 1, or there was no memory.
    ensures complete { IsKnown (F.contents files.old)
        (λ c. found_for c (find_asked (map string_bytes words.now)))
        (Rose (F.faults files.old) (F.faults files.new))
        (Rose (S.faults out.old) (S.faults out.new)) result }

    // Words that are not of their form give 2, and no file is asked.
    ensures malformed { find_asked (map string_bytes words.now) ≡ None → result ≡ 2 }
    ensures unasked { find_asked (map string_bytes words.now) ≡ None → files.new ≡ files.old }

    ensures stay { FilesStay F.contents F.stamps F.faults files.old files.new }
    ensures out_count { S.faults out.old ≤ S.faults out.new }
    ensures err_count { E.faults err.old ≤ E.faults err.new }
{
    run_question(
        alloc,
        &blz_find(),
        find_question(words),
        files,
        orders,
        out,
        err,
    )
}

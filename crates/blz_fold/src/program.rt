//! The top call.
ghost use Rattle.std.specs.Prelude.{◌≡◌, ◌<◌, ◌≤◌, ◌^◌, None, map, string_bytes};
ghost use Rattle.blz_program.specs.Programs.{texts_of};
ghost use Rattle.blz_program.specs.Runs.{FilesFail, IsAnswered, IsKnown, IsMade};
ghost use Rattle.blz_resolver.specs.BundleViews.{bundle_view};
ghost use Rattle.blz_resolver.specs.Counts.{Rose};
ghost use Rattle.blz_resolver.specs.Outcomes.{FilesStay};
ghost use Rattle.blz_fold.specs.Questions.{asked_by, question_view};
ghost use Rattle.blz_fold.specs.Runs.{Finds, FindsFolded, asked, fold_texts, found_folded, found_for, found_parsed};
ghost use Rattle.blz_fold.specs.AddressStacks.{count_total};
ghost use Rattle.blz_fold.specs.Naming.{fold_of};
ghost use Rattle.blz_fold.specs.StackLines.{parsed};

use crate::named_lines::NamedLines;
use crate::{StackFault, Stacks, parse_stacks};
use blz_bytes::Orders;
use blz_program::{LineFault, Outcome, Program, finish, read_file};
use blz_resolver::files::Files;
use blz_resolver::outside::Sink;
use blz_resolver::{Bundle, ElfResolver};
use std::alloc::Global;

/// How the program speaks of itself.
pub fn blz_fold() -> Program
    ensures { texts_of result ≡ fold_texts }
{
    Program {
        name: "blz_fold",
        usage: "[--nodes] IMAGE STACKS",
        bad_line: "bad stack",
    }
}

/// Reads the words `[--nodes] IMAGE STACKS`, opens the image, reads the stacks, folds them and writes the lines to `out`,
/// or the nodes. Answers the exit status: 0 where the whole text was written, 1 for an error of opening, reading or
/// resolving, 2 for words that are not of their form, 3 where `out` failed, 4 for want of memory, 5 for a line of the
/// stacks that is refused. A line on `err` says which, but for 0.
pub fn run_fold<F: Files, O: Orders, S: Sink, E: Sink>(
    alloc: Global,
    words: &[String],
    files: &mut F,
    orders: &mut O,
    out: &mut S,
    err: &mut E,
) -> u8
    // Each status has its outcome, with the cause, the bytes on `out` and the line on `err`.
    ensures caused { IsAnswered fold_texts result
        (Finds (map string_bytes words.now) (F.contents files.old))
        (FilesFail (asked (map string_bytes words.now))
        (Rose (F.faults files.old) (F.faults files.new)))
        S.taken S.faults out.old out.new E.taken E.faults err.old err.new }

    // Where the contents are told and nothing counted a fault, what is found decides, or there was no memory.
    ensures complete { IsKnown (F.contents files.old)
        (λ c. found_for c (asked (map string_bytes words.now)))
        (Rose (F.faults files.old) (F.faults files.new))
        (Rose (S.faults out.old) (S.faults out.new)) result }

    // Words that are not of their form give 2, and no file is asked.
    ensures malformed { asked (map string_bytes words.now) ≡ None → result ≡ 2 }
    ensures unasked { asked (map string_bytes words.now) ≡ None → files.new ≡ files.old }

    ensures stay { FilesStay F.contents F.stamps F.faults files.old files.new }
    ensures out_count { S.faults out.old ≤ S.faults out.new }
    ensures err_count { E.faults err.old ≤ E.faults err.new }
{
    let made = made_of_words(alloc, words, files, orders);
    finish(&blz_fold(), made, out, err)
}

// What the words ask for.
#[derive(Drop)]
struct Question<'w> {
    // whether nodes are asked for
    nodes: bool,
    image: &'w str,
    stacks: &'w str,
}

impl<'w> Question<'w> {
    fn from_words(words: &'w [String]) -> Option<Question<'w>>
        ensures { question_view result ≡ asked (map string_bytes words.entry.now) }
    {
        match words {
            [image, stacks] => Some(Question {
                nodes: false,
                image: image.as_str(),
                stacks: stacks.as_str(),
            }),
            [option, image, stacks] if option.as_str() == "--nodes" => Some(Question {
                nodes: true,
                image: image.as_str(),
                stacks: stacks.as_str(),
            }),
            _ => None,
        }
    }
}

// The text to be written, or how the run ends without one.
fn made_of_words<F: Files, O: Orders>(
    alloc: Global,
    words: &[String],
    files: &mut F,
    orders: &mut O,
) -> Result<Vec<u8>, Outcome>
    ensures made { IsMade (Finds (map string_bytes words.now) (F.contents files.old))
        (FilesFail (asked (map string_bytes words.now))
        (Rose (F.faults files.old) (F.faults files.new))) result }
    ensures malformed { asked (map string_bytes words.now) ≡ None → result ≡ Err Outcome.Usage }
    ensures unasked { asked (map string_bytes words.now) ≡ None → files.new ≡ files.old }
    ensures stay { FilesStay F.contents F.stamps F.faults files.old files.new }
{
    match Question::from_words(words) {
        Some(question) => made_of_files(alloc, &question, files, orders),
        None => Err(Outcome::Usage),
    }
}

fn made_of_files<F: Files, O: Orders>(
    alloc: Global,
    question: &Question<'_>,
    files: &mut F,
    orders: &mut O,
) -> Result<Vec<u8>, Outcome>
    ensures made { IsMade (FindsFolded (F.contents files.old) (asked_by question.now))
        (Rose (F.faults files.old) (F.faults files.new)) result }
    ensures stay { FilesStay F.contents F.stamps F.faults files.old files.new }
{
    let bundle = match ElfResolver::open(alloc, files, question.image) {
        Ok(bundle) => bundle,
        Err(error) => return Err(Outcome::refusal(error.kind())),
    };
    let text = match read_file(alloc, files, question.stacks) {
        Ok(text) => text,
        Err(error) => return Err(Outcome::refusal(error.kind())),
    };
    made_of_text(alloc, orders, &bundle.bundle(), text, question.nodes)
}

// The text is let go before anything is resolved.
fn made_of_text<O: Orders>(
    alloc: Global,
    orders: &mut O,
    bundle: &Bundle<'_>,
    text: Vec<u8>,
    nodes: bool,
) -> Result<Vec<u8>, Outcome>
    ensures { IsMade (λ found. found ≡ found_parsed nodes (bundle_view bundle.now) (parsed text.items)) ⊥ result }
{
    let stacks = match parse_stacks(alloc, &text) {
        Ok(stacks) => stacks,
        Err(StackFault::Line(line)) => return Err(Outcome::BadLine(line, LineFault::BadForm)),
        Err(StackFault::Total(line)) => return Err(Outcome::BadLine(line, LineFault::TooLarge)),
        Err(StackFault::Memory) => return Err(Outcome::OutOfMemory),
    };
    drop(text);
    made_of_stacks(alloc, orders, bundle, &stacks, nodes)
}

fn made_of_stacks<O: Orders>(
    alloc: Global,
    orders: &mut O,
    bundle: &Bundle<'_>,
    stacks: &Stacks,
    nodes: bool,
) -> Result<Vec<u8>, Outcome>
    requires { count_total stacks.now < 2 ^ 64 }
    ensures { IsMade (λ found. found ≡ found_folded nodes (fold_of (bundle_view bundle.now) stacks.now)) ⊥ result }
{
    let named = match NamedLines::of(alloc, orders, bundle, stacks) {
        Ok(named) => named,
        Err(error) => return Err(Outcome::refusal(error.kind())),
    };
    match named.printed(alloc, nodes) {
        Ok(text) => Ok(text),
        Err(_) => Err(Outcome::OutOfMemory),
    }
}

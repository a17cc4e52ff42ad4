//! The top call.
ghost use Rattle.std.specs.Prelude.{◌≡◌, ◌⊎◌, ◌≤◌, ℕ, true, IfOk, IfErr, map, string_bytes};
ghost use Rattle.blz_model.specs.Part.{Gives, Good, Broken};
ghost use Rattle.blz_program.specs.Programs.{texts_of};
ghost use Rattle.blz_program.specs.Runs.{IsAnswered, IsKnown, IsMade, IsText, status_for};
ghost use Rattle.blz_resolver.specs.Counts.{Rose};
ghost use Rattle.blz_resolver.specs.FormatKinds.{IsMemoryOrFormat};
ghost use Rattle.blz_resolver.specs.Opening.{Opens};
ghost use Rattle.blz_resolver.specs.Outcomes.{FilesStay, HasKindCause};
ghost use Rattle.blz_tool.specs.CommandLine.{Demo, Malformed, asked, is_taken, named};
ghost use Rattle.blz_tool.specs.Requests.{question_view};
ghost use Rattle.blz_tool.specs.Runs.{FailsNamed, FilesFail, Finds, FindsNamed, FindsPart, Prints, dirs_of, found_for, found_in, text_for, tool_texts};
ghost use Rattle.blz_tool.specs.Summary.{summary};

use crate::demo::summary;
use crate::request::{Question, Request, request_in};
use crate::text::text;
use blz_bytes::Orders;
use blz_error::ErrorKind;
use blz_program::{Outcome, Program, finish};
use blz_resolver::files::Files;
use blz_resolver::outside::Sink;
use blz_resolver::{ElfResolver, OwnedBundle, symbolize};
use std::alloc::{AllocError, Global};

/// How the program speaks of itself.
pub fn blz_tool() -> Program
    ensures { texts_of result ≡ tool_texts }
{
    Program {
        name: "blz_tool",
        usage: "blz_tool [--basic | --lines] [--debug-dirs A:B] PATH ADDR..",
        bad_line: "",
    }
}

/// Reads the words, which follow the program's name. They ask for the addresses of a file, whose answers are written to
/// `out`, or for the demo. Answers the exit status: 0 where the whole text was written, 1 for an error of opening or
/// resolving, 2 for words that are not of their form, 3 where `out` failed, 4 for want of memory. A line on `err` says
/// which, but for 0.
pub fn run<F: Files, O: Orders, S: Sink, E: Sink>(
    alloc: Global,
    words: &[String],
    files: &mut F,
    orders: &mut O,
    out: &mut S,
    err: &mut E,
) -> u8
    // Each status has its outcome, with the cause, the bytes on `out` and the line on `err`.
    ensures caused { IsAnswered tool_texts result
        (Finds (map string_bytes words.now) (F.contents files.old))
        (FilesFail (map string_bytes words.now)
        (Rose (F.faults files.old) (F.faults files.new)))
        S.taken S.faults out.old out.new E.taken E.faults err.old err.new }

    // Where the simple command takes the words, the contents are told and nothing counted a fault, a text gives 0 and a
    // mark 1, or there was no memory.
    ensures complete { is_taken (map string_bytes words.now) ≡ true
        → IsKnown (F.contents files.old) (λ c. found_for c (asked (map string_bytes words.now)))
        (Rose (F.faults files.old) (F.faults files.new))
        (Rose (S.faults out.old) (S.faults out.new)) result }

    // The demo reads no files: its text gives 0 where `out` counted no fault, and a mark gives 1, or there was no memory.
    ensures demo { (n : ℕ) → asked (map string_bytes words.now) ≡ Demo n
        → is_taken (map string_bytes words.now) ≡ true
        → (Rose (S.faults out.old) (S.faults out.new) → ¬ (IsText (found_in (summary n))))
        → (result ≡ 4) ⊎ (result ≡ status_for (found_in (summary n))) }

    // Words that are not of their form give 2, or there was no memory.
    ensures malformed { asked (map string_bytes words.now) ≡ Malformed
        → (result ≡ 4) ⊎ (result ≡ 2) }

    ensures stay { FilesStay F.contents F.stamps F.faults files.old files.new }
    ensures out_count { S.faults out.old ≤ S.faults out.new }
    ensures err_count { E.faults err.old ≤ E.faults err.new }
{
    let made = made_of_words(alloc, words, files, orders);
    finish(&blz_tool(), made, out, err)
}

// Puts the program's name before the words, which `clap` takes for it.
fn named_words<'w>(alloc: Global, words: &'w [String]) -> Result<Vec<&'w str>, AllocError>
    ensures { IfOk result
        (λ v. map (λ w. w.now) v.items ≡ named (map string_bytes words.entry.now)) }
{
    let mut given = Vec::with_capacity(alloc, words.len() + 1)?;
    given.push("blz_tool")?;
    for word in words {
        given.push(word.as_str())?;
    }
    Ok(given)
}

fn made_of_words<F: Files, O: Orders>(
    alloc: Global,
    words: &[String],
    files: &mut F,
    orders: &mut O,
) -> Result<Vec<u8>, Outcome>
    ensures made { IsMade (Finds (map string_bytes words.now) (F.contents files.old))
        (FilesFail (map string_bytes words.now)
        (Rose (F.faults files.old) (F.faults files.new))) result }
    ensures stay { FilesStay F.contents F.stamps F.faults files.old files.new }
{
    match named_words(alloc, words) {
        Ok(given) => made_of_named(alloc, &given, files, orders),
        Err(_) => Err(Outcome::OutOfMemory),
    }
}

fn made_of_named<F: Files, O: Orders>(
    alloc: Global,
    given: &[&str],
    files: &mut F,
    orders: &mut O,
) -> Result<Vec<u8>, Outcome>
    ensures made { IsMade (FindsNamed (map (λ w. w.now) given.now) (F.contents files.old))
        (FailsNamed (map (λ w. w.now) given.now)
        (Rose (F.faults files.old) (F.faults files.new))) result }
    ensures stay { FilesStay F.contents F.stamps F.faults files.old files.new }
{
    match request_in(alloc, given) {
        Ok(Some(Request::Resolve(question))) => made_of_question(alloc, files, orders, &question),
        Ok(Some(Request::Demo(n))) => made_of_demo(alloc, orders, n),
        Ok(None) => Err(Outcome::Usage),
        Err(outcome) => Err(outcome),
    }
}

fn made_of_demo<O: Orders>(alloc: Global, orders: &mut O, n: u32) -> Result<Vec<u8>, Outcome>
    requires some { 1 ≤ n }
    requires few { n ≤ 100000 }
    ensures { IsMade (λ found. found ≡ found_in (summary n)) ⊥ result }
{
    match summary(alloc, orders, n) {
        Ok(text) => Ok(text),
        Err(error) => Err(Outcome::refusal(error.kind())),
    }
}

fn made_of_question<F: Files, O: Orders>(
    alloc: Global,
    files: &mut F,
    orders: &mut O,
    question: &Question<'_>,
) -> Result<Vec<u8>, Outcome>
    ensures made { IsMade (FindsPart (Prints (F.contents files.old) (question_view question.now)))
        (Rose (F.faults files.old) (F.faults files.new)) result }
    ensures stay { FilesStay F.contents F.stamps F.faults files.old files.new }
{
    match printed(alloc, files, orders, question) {
        Ok(text) => Ok(text),
        Err(error) => Err(Outcome::refusal(error.kind())),
    }
}

// Opens the path and makes the text of the answers.
fn printed<F: Files, O: Orders>(
    alloc: Global,
    files: &mut F,
    orders: &mut O,
    question: &Question<'_>,
) -> blz_error::Result<Vec<u8>>
    ensures good { IfOk result (λ v.
        Prints (F.contents files.old) (question_view question.now) (Good v.items)) }
    ensures mark { IfErr result (λ e. (e.kind ≡ ErrorKind.OutOfMemory) ⊎ HasKindCause e.kind
        (Rose (F.faults files.old) (F.faults files.new))
        (Prints (F.contents files.old) (question_view question.now) (Broken e.kind))) }
    ensures stay { FilesStay F.contents F.stamps F.faults files.old files.new }
{
    let bundle = opened_bundle(alloc, files, question)?;
    answers_text(alloc, orders, &bundle, question)
}

// Opens the path, with the directories of debug files that are asked for, else the default ones.
fn opened_bundle<F: Files>(
    alloc: Global,
    files: &mut F,
    question: &Question<'_>,
) -> blz_error::Result<OwnedBundle>
    ensures good { IfOk result (λ b. Opens (F.contents files.old) question.now.path.now
        (dirs_of (question_view question.now)) (Good b)) }
    ensures mark { IfErr result (λ e. (e.kind ≡ ErrorKind.OutOfMemory) ⊎ HasKindCause e.kind
        (Rose (F.faults files.old) (F.faults files.new))
        (Opens (F.contents files.old) question.now.path.now
        (dirs_of (question_view question.now)) (Broken e.kind))) }
    ensures stay { FilesStay F.contents F.stamps F.faults files.old files.new }
{
    match &question.dirs {
        Some(dirs) => ElfResolver::open_with_debug_dirs(alloc, files, question.path, dirs),
        None => ElfResolver::open(alloc, files, question.path),
    }
}

// The text of the answers.
#[tactic(auto, unfolding(crate::specs::Runs::text_for))]
fn answers_text<O: Orders>(
    alloc: Global,
    orders: &mut O,
    bundle: &OwnedBundle,
    question: &Question<'_>,
) -> blz_error::Result<Vec<u8>>
    ensures value { Gives (λ v. v.items) result
        (text_for (question_view question.now) bundle.now) }
    ensures kinds { IfErr result (λ e. IsMemoryOrFormat e.kind) }
{
    let bundle = bundle.bundle();
    let answers = symbolize(alloc, orders, &bundle, &question.addrs, &question.opts)?;
    Ok(text(alloc, &question.addrs, &answers)?)
}

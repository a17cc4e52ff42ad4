//! A run of a program: from what is asked of an image to the exit status.
ghost use Rattle.std.specs.Prelude.{◌≡◌, ◌⊎◌, ◌≤◌, None, IfOk, IfErr, option_map};
ghost use Rattle.blz_model.specs.Part.{Gives, Good, Broken};
ghost use Rattle.blz_program.specs.Programs.{texts_of};
ghost use Rattle.blz_program.specs.Runs.{FilesFail, IsAnswered, IsKnown, IsMade};
ghost use Rattle.blz_resolver.specs.Counts.{Rose};
ghost use Rattle.blz_resolver.specs.FormatKinds.{IsMemoryOrFormat};
ghost use Rattle.blz_resolver.specs.Outcomes.{FilesStay, HasKindCause};
ghost use Rattle.blz_listings.specs.QuestionViews.{question_view, topic_text};
ghost use Rattle.blz_listings.specs.Questions as asking;
ghost use Rattle.blz_listings.specs.Questions.{Finds, Prints, found_for};

use crate::addresses::find_text;
use crate::gather::lines_text;
use crate::question::{Question, Topic};
use blz_bytes::Orders;
use blz_error::ErrorKind;
use blz_program::{Outcome, Program, finish};
use blz_resolver::files::Files;
use blz_resolver::outside::Sink;
use blz_resolver::{ElfResolver, OwnedBundle};
use std::alloc::Global;

/// Opens the image that is asked, and writes its text to `out`. Answers the exit status: 0 where the whole text was written,
/// 1 for an error of opening or of the text, 2 where nothing is asked, 3 where `out` failed, 4 for want of memory. A line on
/// `err` says which, but for 0.
pub fn run_question<F: Files, O: Orders, S: Sink, E: Sink>(
    alloc: Global,
    program: &Program,
    question: Option<Question<'_>>,
    files: &mut F,
    orders: &mut O,
    out: &mut S,
    err: &mut E,
) -> u8
    ensures caused { IsAnswered (texts_of program.now) result
        (Finds (option_map question_view question.entry) (F.contents files.old))
        (FilesFail (option_map question_view question.entry)
        (Rose (F.faults files.old) (F.faults files.new)))
        S.taken S.faults out.old out.new E.taken E.faults err.old err.new }
    ensures complete { IsKnown (F.contents files.old)
        (λ c. found_for c (option_map question_view question.entry))
        (Rose (F.faults files.old) (F.faults files.new))
        (Rose (S.faults out.old) (S.faults out.new)) result }
    ensures malformed { option_map question_view question.entry ≡ None → result ≡ 2 }
    ensures unasked { option_map question_view question.entry ≡ None → files.new ≡ files.old }
    ensures stay { FilesStay F.contents F.stamps F.faults files.old files.new }
    ensures out_count { S.faults out.old ≤ S.faults out.new }
    ensures err_count { E.faults err.old ≤ E.faults err.new }
{
    let made = made(alloc, question, files, orders);
    finish(program, made, out, err)
}

fn made<F: Files, O: Orders>(
    alloc: Global,
    question: Option<Question<'_>>,
    files: &mut F,
    orders: &mut O,
) -> Result<Vec<u8>, Outcome>
    ensures made { IsMade (Finds (option_map question_view question.entry) (F.contents files.old))
        (FilesFail (option_map question_view question.entry)
        (Rose (F.faults files.old) (F.faults files.new))) result }
    ensures malformed { option_map question_view question.entry ≡ None
        → result ≡ Err Outcome.Usage }
    ensures unasked { option_map question_view question.entry ≡ None → files.new ≡ files.old }
    ensures stay { FilesStay F.contents F.stamps F.faults files.old files.new }
{
    match question {
        Some(question) => made_of_question(alloc, files, orders, &question),
        None => Err(Outcome::Usage),
    }
}

fn made_of_question<F: Files, O: Orders>(
    alloc: Global,
    files: &mut F,
    orders: &mut O,
    question: &Question<'_>,
) -> Result<Vec<u8>, Outcome>
    ensures made { IsMade (asking.Gives (F.contents files.old) (question_view question.now))
        (Rose (F.faults files.old) (F.faults files.new)) result }
    ensures stay { FilesStay F.contents F.stamps F.faults files.old files.new }
{
    match printed(alloc, files, orders, question) {
        Ok(text) => Ok(text),
        Err(error) => Err(Outcome::refusal(error.kind())),
    }
}

// Opens the path and makes the text.
fn printed<F: Files, O: Orders>(
    alloc: Global,
    files: &mut F,
    orders: &mut O,
    question: &Question<'_>,
) -> blz_error::Result<Vec<u8>>
    ensures good { IfOk result (λ v.
        Prints (F.contents files.old) (question_view question.now) (Good v.items)) }
    ensures mark { IfErr result (λ e. (e.kind ≡ ErrorKind.OutOfMemory) ⊎ HasKindCause e.kind
        (Rose (F.faults files.old) (F.faults files.new))
        (Prints (F.contents files.old) (question_view question.now) (Broken e.kind))) }
    ensures stay { FilesStay F.contents F.stamps F.faults files.old files.new }
{
    let bundle = ElfResolver::open(alloc, files, question.path)?;
    topic_text(alloc, orders, &bundle, &question.topic)
}

// The text of a bundle.
fn topic_text<O: Orders>(
    alloc: Global,
    orders: &mut O,
    bundle: &OwnedBundle,
    topic: &Topic<'_>,
) -> blz_error::Result<Vec<u8>>
    ensures value { Gives (λ v. v.items) result (topic_text topic.now bundle.now) }
    ensures kinds { IfErr result (λ e. IsMemoryOrFormat e.kind) }
{
    let bundle = bundle.bundle();
    match topic {
        Topic::Lines(wanted) => lines_text(alloc, orders, &bundle, *wanted),
        Topic::Addresses(sought) => find_text(alloc, orders, &bundle, sought),
    }
}

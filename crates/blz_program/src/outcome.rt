//! How a run ended.
ghost use Rattle.std.specs.Prelude.{◌≡◌, ◌++◌, codes, decimal, OnErr, OnOk};
ghost use Rattle.std.specs.Io.KnownBytes.{Appends};
ghost use Rattle.blz_resolver.specs.Counts.{HasCause};
ghost use Rattle.blz_program.specs.Outcomes.{bad_line, fault_text, line_for, refusal_of, said_by, status_of, usage_line};
ghost use Rattle.blz_program.specs.PrintedText.{line_feed};
ghost use Rattle.blz_program.specs.Programs.{texts_of};
ghost use Rattle.blz_program.specs.Runs.{AppendsFront};

use crate::ending::write_all;
use crate::program::Program;
use blz_error::{Error, ErrorKind};
use blz_resolver::outside::{Sink, SinkFault};
use itoa::Buffer;
use std::alloc::AllocError;

/// What is wrong with a line of a file.
#[derive(Clone, Copy, Debug, PartialEq, Eq)]
pub enum LineFault {
    /// It is not of its form.
    BadForm,
    /// With it the total passes 2^64 - 1.
    TooLarge,
}

/// How a run ended.
#[derive(Clone, Copy, Debug, PartialEq, Eq)]
pub enum Outcome {
    /// The whole text was written.
    Done,
    /// Reading a file, or what was made of it, gave an error other than want of memory.
    Refused(ErrorKind),
    /// The words are not of their form.
    Usage,
    /// A line of a file, counted from 1, is refused.
    BadLine(u64, LineFault),
    /// The sink failed within the text.
    WriteFailed,
    /// There was no memory.
    OutOfMemory,
}

impl Outcome {
    /// How a run ends by an error of this kind.
    pub fn refusal(kind: ErrorKind) -> Outcome
        ensures { result ≡ refusal_of kind }
    {
        match kind {
            ErrorKind::OutOfMemory => Outcome::OutOfMemory,
            _ => Outcome::Refused(kind),
        }
    }

    /// The exit status.
    pub fn status(self) -> u8
        ensures { result ≡ status_of self }
    {
        match self {
            Outcome::Done => 0,
            Outcome::Refused(_) => 1,
            Outcome::Usage => 2,
            Outcome::WriteFailed => 3,
            Outcome::OutOfMemory => 4,
            Outcome::BadLine(_, _) => 5,
        }
    }

    /// Writes the line that says how the run ended, without memory; nothing where it went well.
    pub fn tell<E: Sink>(self, program: &Program, err: &mut E) -> Result<(), SinkFault>
        ensures ok { OnOk result
            (Appends (E.taken err.old) (E.taken err.new) (line_for (texts_of program.now) self)) }
        ensures err { OnErr result (AppendsFront (E.taken err.old) (E.taken err.new)
            (line_for (texts_of program.now) self)) }
        ensures cause { HasCause (E.faults err.old) (E.faults err.new) result }
    {
        match self {
            Outcome::Done => Ok(()),
            Outcome::Refused(kind) => write_refusal(program, kind.as_text(), err),
            Outcome::Usage => write_usage(program, err),
            Outcome::BadLine(line, fault) => write_bad_line(program, line, fault, err),
            Outcome::WriteFailed => write_refusal(program, "write failed", err),
            Outcome::OutOfMemory => write_refusal(program, "out of memory", err),
        }
    }
}

// A refusal of the program, without memory.
fn write_refusal<E: Sink>(program: &Program, text: &str, err: &mut E) -> Result<(), SinkFault>
    ensures ok { OnOk result
        (Appends (E.taken err.old) (E.taken err.new) (said_by (texts_of program.now) text.now)) }
    ensures err { OnErr result (AppendsFront (E.taken err.old) (E.taken err.new)
        (said_by (texts_of program.now) text.now)) }
    ensures cause { HasCause (E.faults err.old) (E.faults err.new) result }
{
    write_all(err, program.name.as_bytes())?;
    write_said(text, err)
}

// What is said behind a name or a number.
fn write_said<E: Sink>(text: &str, err: &mut E) -> Result<(), SinkFault>
    ensures ok { OnOk result
        (Appends (E.taken err.old) (E.taken err.new) (codes ": " ++ text.now ++ line_feed)) }
    ensures err { OnErr result
        (AppendsFront (E.taken err.old) (E.taken err.new) (codes ": " ++ text.now ++ line_feed)) }
    ensures cause { HasCause (E.faults err.old) (E.faults err.new) result }
{
    write_all(err, b": ")?;
    write_line(text, err)
}

fn write_line<E: Sink>(text: &str, err: &mut E) -> Result<(), SinkFault>
    ensures ok { OnOk result
        (Appends (E.taken err.old) (E.taken err.new) (text.now ++ line_feed)) }
    ensures err { OnErr result
        (AppendsFront (E.taken err.old) (E.taken err.new) (text.now ++ line_feed)) }
    ensures cause { HasCause (E.faults err.old) (E.faults err.new) result }
{
    write_all(err, text.as_bytes())?;
    write_all(err, b"\n")
}

fn write_usage<E: Sink>(program: &Program, err: &mut E) -> Result<(), SinkFault>
    ensures ok { OnOk result
        (Appends (E.taken err.old) (E.taken err.new) (usage_line (texts_of program.now))) }
    ensures err { OnErr result
        (AppendsFront (E.taken err.old) (E.taken err.new) (usage_line (texts_of program.now))) }
    ensures cause { HasCause (E.faults err.old) (E.faults err.new) result }
{
    write_all(err, b"usage: ")?;
    write_line(program.usage, err)
}

fn write_bad_line<E: Sink>(
    program: &Program,
    line: u64,
    fault: LineFault,
    err: &mut E,
) -> Result<(), SinkFault>
    ensures ok { OnOk result (Appends (E.taken err.old) (E.taken err.new)
        (bad_line (texts_of program.now) line fault)) }
    ensures err { OnErr result (AppendsFront (E.taken err.old) (E.taken err.new)
        (bad_line (texts_of program.now) line fault)) }
    ensures cause { HasCause (E.faults err.old) (E.faults err.new) result }
{
    write_all(err, program.name.as_bytes())?;
    write_place(line, fault_text(program, fault), err)
}

// Where it was, and what is said of that place.
fn write_place<E: Sink>(line: u64, text: &str, err: &mut E) -> Result<(), SinkFault>
    ensures ok { OnOk result (Appends (E.taken err.old) (E.taken err.new)
        (codes ": line " ++ decimal line ++ codes ": " ++ text.now ++ line_feed)) }
    ensures err { OnErr result (AppendsFront (E.taken err.old) (E.taken err.new)
        (codes ": line " ++ decimal line ++ codes ": " ++ text.now ++ line_feed)) }
    ensures cause { HasCause (E.faults err.old) (E.faults err.new) result }
{
    write_all(err, b": line ")?;
    write_number(line, text, err)
}

fn write_number<E: Sink>(number: u64, text: &str, err: &mut E) -> Result<(), SinkFault>
    ensures ok { OnOk result (Appends (E.taken err.old) (E.taken err.new)
        (decimal number ++ codes ": " ++ text.now ++ line_feed)) }
    ensures err { OnErr result (AppendsFront (E.taken err.old) (E.taken err.new)
        (decimal number ++ codes ": " ++ text.now ++ line_feed)) }
    ensures cause { HasCause (E.faults err.old) (E.faults err.new) result }
{
    let mut buffer = Buffer::new();
    write_all(err, buffer.format(number).as_bytes())?;
    write_said(text, err)
}

fn fault_text(program: &Program, fault: LineFault) -> &'static str
    ensures { result.now ≡ fault_text (texts_of program.now) fault }
{
    match fault {
        LineFault::BadForm => program.bad_line,
        LineFault::TooLarge => "total too large",
    }
}

impl From<Error> for Outcome {
    ghost use Rattle.std.specs.Prelude.{◌≡◌};
    ghost use Rattle.blz_program.specs.Outcomes.{refusal_of};

    ghost from_gives = { λ error o. o ≡ refusal_of error.kind };

    fn from(error: Error) -> Outcome {
        Outcome::refusal(error.kind())
    }
}

impl From<AllocError> for Outcome {
    ghost use Rattle.std.specs.Prelude.{◌≡◌};
    ghost use Rattle.blz_program.specs.declared.outcome.Outcome.TheVariants.{OutOfMemory};

    ghost from_gives = { λ _ o. o ≡ OutOfMemory };

    fn from(_: AllocError) -> Outcome {
        Outcome::OutOfMemory
    }
}

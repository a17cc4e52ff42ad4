//! The last step of a run: its text is written, or the reason is told why there is none.
ghost use Rattle.std.specs.Prelude.{◌≤◌, OnOk, OnErr};
ghost use Rattle.std.specs.Io.KnownBytes.{Appends};
ghost use Rattle.blz_resolver.specs.Counts.{HasCause, Rose};
ghost use Rattle.blz_program.specs.Outcomes.{line_for};
ghost use Rattle.blz_program.specs.Programs.{texts_of};
ghost use Rattle.blz_program.specs.Runs.{AppendsFront, EndsBy, HasOutcome, TellsLine};

use crate::outcome::Outcome;
use crate::program::Program;
use blz_resolver::outside::{Sink, SinkFault};

/// Writes the text that was made to `out`, tells on `err` how the run ended, and answers the exit status. Where no text
/// was made, nothing goes to `out`; a fault of `err` changes no status.
pub fn finish<S: Sink, E: Sink>(
    program: &Program,
    made: Result<Vec<u8>, Outcome>,
    out: &mut S,
    err: &mut E,
) -> u8
    ensures ended { HasOutcome result (λ o. EndsBy made o (S.taken out.old) (S.taken out.new)
        (Rose (S.faults out.old) (S.faults out.new))
        × TellsLine (Rose (E.faults err.old) (E.faults err.new)) (E.taken err.old)
        (E.taken err.new) (line_for (texts_of program.now) o)) }
    ensures out_count { S.faults out.old ≤ S.faults out.new }
    ensures err_count { E.faults err.old ≤ E.faults err.new }
{
    let outcome = written(made, out);
    let _ = outcome.tell(program, err);
    outcome.status()
}

fn written<S: Sink>(made: Result<Vec<u8>, Outcome>, out: &mut S) -> Outcome
    ensures ended { EndsBy made result (S.taken out.old) (S.taken out.new)
        (Rose (S.faults out.old) (S.faults out.new)) }
    ensures count { S.faults out.old ≤ S.faults out.new }
{
    match made {
        Ok(text) => match write_all(out, &text) {
            Ok(()) => Outcome::Done,
            Err(_) => Outcome::WriteFailed,
        },
        Err(outcome) => outcome,
    }
}

/// Puts all the bytes, each time all that are left, until a put fails.
pub fn write_all<S: Sink>(sink: &mut S, text: &[u8]) -> Result<(), SinkFault>
    ensures ok { OnOk result (Appends (S.taken sink.old) (S.taken sink.new) text.now) }
    ensures err { OnErr result (AppendsFront (S.taken sink.old) (S.taken sink.new) text.now) }
    ensures cause { HasCause (S.faults sink.old) (S.faults sink.new) result }
{
    let mut rest = text;
    while !rest.is_empty() {
        let count = sink.put(rest)?;
        rest = &rest[count..];
    }
    Ok(())
}

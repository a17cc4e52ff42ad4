//! How an error is printed.
ghost use Rattle.std.specs.Prelude.{◌≡◌, ◌++◌, Some, OnOk, OnErr, string_bytes};
ghost use Rattle.std.specs.Fmt.{WritesOnOk};
ghost use Rattle.blz_error.specs.Reports.{each_after, first_text, joined_texts, report_of, texts_in};

use crate::{Cause, Error};
use std::alloc::AllocError;
use std::fmt;
use std::fmt::Formatter;

impl Error {
    /// Appends the first text. After an error `out` is as before, as it is for the next two.
    pub fn plain_text(&self, out: &mut String) -> Result<(), AllocError>
        ensures ok { OnOk result
            (string_bytes out.new ≡ string_bytes out.old ++ first_text self.now) }
        ensures err { OnErr result (string_bytes out.new ≡ string_bytes out.old) }
    {
        out.push_str(self.outermost())
    }

    /// Appends all texts, joined by `: `.
    pub fn full_text(&self, out: &mut String) -> Result<(), AllocError>
        ensures ok { OnOk result
            (string_bytes out.new ≡ string_bytes out.old ++ joined_texts self.now) }
        ensures err { OnErr result (string_bytes out.new ≡ string_bytes out.old) }
    {
        let text = format!(in *out.allocator(); "{}", Joined(self))?;
        out.push_str(text.as_str())
    }

    /// Appends `Error: ` and the first text, and the causes on lines of their own.
    pub fn report_text(&self, out: &mut String) -> Result<(), AllocError>
        ensures ok { OnOk result
            (string_bytes out.new ≡ string_bytes out.old ++ report_of self.now) }
        ensures err { OnErr result (string_bytes out.new ≡ string_bytes out.old) }
    {
        let text = format!(in *out.allocator(); "{self:?}")?;
        out.push_str(text.as_str())
    }
}

/// Prints the first text.
impl fmt::Display for Error {
    ghost output = { λ e. Some (first_text e) };

    fn fmt<W: fmt::Write>(&self, f: &mut Formatter<W>) -> fmt::Result {
        f.write_str(self.outermost())
    }
}

/// Prints the report text.
impl fmt::Debug for Error {
    ghost debug_output = { λ e. Some (report_of e) };

    fn fmt<W: fmt::Write>(&self, f: &mut Formatter<W>) -> fmt::Result {
        f.write_str("Error: ")?;
        f.write_str(self.outermost())?;
        let Some(cause) = self.source() else {
            return Ok(());
        };
        f.write_str("\n\nCaused by:")?;
        write_each(f, "\n    ", Some(cause))
    }
}

// an error that prints all its texts in one line
#[derive(Drop)]
struct Joined<'e>(&'e Error);

impl fmt::Display for Joined<'_> {
    ghost output = { λ e. Some (joined_texts e.0.now) };

    fn fmt<W: fmt::Write>(&self, f: &mut Formatter<W>) -> fmt::Result {
        f.write_str(self.0.outermost())?;
        write_each(f, ": ", self.0.source())
    }
}

// each of the causes, behind the separator
fn write_each<W: fmt::Write>(
    f: &mut Formatter<W>,
    separator: &str,
    causes: Option<Cause<'_>>,
) -> fmt::Result
    ensures { WritesOnOk W.write_str_gives f.old result
        (each_after separator.now (texts_in causes.entry)) f.new }
{
    let mut rest = causes;
    while let Some(cause) = rest {
        f.write_str(separator)?;
        f.write_str(cause.text())?;
        rest = cause.source();
    }
    Ok(())
}

//! The files of a unit, judged by the name that is asked.
ghost use Rattle.std.specs.Prelude.{◌≡◌, ◌≢◌, ℕ, Some, IfOk, slice_get};
ghost use Rattle.blz_resolver.specs.RowsViews.{rows_view};
ghost use Rattle.blz_rows.specs.Judging.{verdict_of};
ghost use Rattle.blz_rows.specs.declared.verdict.Verdict.{Verdict};

use crate::paths::path_matches;
use crate::verdict::Verdict;
use blz_resolver::UnitRows;
use std::alloc::{AllocError, Global};
use std::marker::Model;

// The verdicts on so many files are noted; a file of a greater number is judged at each row that names it. A number that
// stands in the bytes bounds no memory.
const NOTED_FILES: usize = 1024;

/// The files of a unit; the verdict on each is found when a row first names it.
#[derive(Drop)]
pub struct JudgedFiles<'r, 'b, 'f> {
    rows: UnitRows<'r, 'b>,
    name: &'f [u8],
    noted: Vec<Option<Verdict>>,
}

impl<'r, 'b, 'f> Model for JudgedFiles<'r, 'b, 'f> {
    ghost use Rattle.blz_resolver.specs.RowsViews.{rows_view};
    ghost use Rattle.blz_rows.specs.Judging.{JudgedFiles, AreNoted};

    ghost Value = { JudgedFiles };

    ghost view = { λ j. record { files = (rows_view j.rows).files; name = j.name.now } };

    ghost invariant = { λ j. AreNoted (rows_view j.rows).files j.name.now j.noted.items };
}

// No verdict on any file.
fn no_verdicts(alloc: Global) -> Result<Vec<Option<Verdict>>, AllocError>
    ensures { IfOk result (λ noted. (number : ℕ) (verdict : Verdict) → slice_get noted.items number ≢ Some (Some verdict)) }
{
    let mut noted = Vec::with_capacity(alloc, NOTED_FILES)?;
    for _ in 0..NOTED_FILES {
        noted.push(None)?;
    }
    Ok(noted)
}

impl<'r, 'b, 'f> JudgedFiles<'r, 'b, 'f> {
    /// The files of a unit, none of them judged yet.
    pub fn new(
        alloc: Global,
        rows: UnitRows<'r, 'b>,
        name: &'f [u8],
    ) -> Result<JudgedFiles<'r, 'b, 'f>, AllocError>
        ensures files { IfOk result (λ j. j.files ≡ (rows_view rows.entry).files) }
        ensures name { IfOk result (λ j. j.name ≡ name.entry.now) }
    {
        let noted = no_verdicts(alloc)?;
        Ok(JudgedFiles { rows, name, noted })
    }

    /// What the file of a number is.
    pub fn verdict(&mut self, number: u64) -> Verdict
        ensures verdict { result ≡ verdict_of self.old.name (slice_get self.old.files number) }
        ensures same { self.new ≡ self.old }
    {
        if let Some(Some(verdict)) = self.noted.get(number as usize) {
            return *verdict;
        }
        let verdict = judged(&self.rows, self.name, number);
        if (number as usize) < self.noted.len() {
            self.noted[number as usize] = Some(verdict);
        }
        verdict
    }
}

fn judged(rows: &UnitRows<'_, '_>, name: &[u8], number: u64) -> Verdict
    ensures { result ≡ verdict_of name.now (slice_get (rows_view rows.now).files number) }
{
    match rows.file(number) {
        None => Verdict::Absent,
        Some((dir, file)) => {
            if path_matches(&dir, file, name) {
                Verdict::Meant
            } else {
                Verdict::Other
            }
        }
    }
}

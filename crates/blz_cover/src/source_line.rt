//! The line of a source at which an address stands.
ghost use Rattle.std.specs.Prelude.{◌≡◌};
ghost use Rattle.std.specs.Option.{option_map};
ghost use Rattle.blz_elf.specs.AnswerView.{answer_view};
ghost use Rattle.blz_elf.specs.CallViews.{site_view};
ghost use Rattle.blz_cover.specs.Answers.{dir_bytes, line_in, line_of_site};
ghost use Rattle.blz_cover.specs.LineViews.{source_view};

use blz_bytes::{DirPath, Steps};
use blz_elf::{Answer, CodeInfo, FindSymOpts};
use blz_error::Result;
use blz_resolver::ElfResolver;
use std::sync::ledger::Ledger;

/// A line of a file in a directory.
#[derive(Drop)]
pub struct SourceLine<'b> {
    pub dir: DirPath<'b>,
    pub file: &'b [u8],
    pub line: u32,
}

fn dir_or_none<'b>(dir: Option<DirPath<'b>>) -> DirPath<'b>
    ensures { result ≡ dir_bytes dir.entry }
{
    match dir {
        Some(dir) => dir,
        None => DirPath::new(b""),
    }
}

fn line_of_site<'b>(site: Option<CodeInfo<'b>>) -> Option<SourceLine<'b>>
    ensures { option_map source_view result ≡ line_of_site (option_map site_view site.entry) }
{
    let site = site?;
    let line = site.line?;
    Some(SourceLine {
        dir: dir_or_none(site.dir),
        file: site.file,
        line,
    })
}

/// The line that an answer tells.
pub fn line_in<'b>(answer: Answer<'b>) -> Option<SourceLine<'b>>
    ensures { option_map source_view result ≡ line_in (answer_view answer.entry) }
{
    match answer {
        Answer::Sym(symbol) => line_of_site(symbol.code_info),
        Answer::NoSym(_) => None,
    }
}

//! Counting at lines and at the rest.
ghost use Rattle.std.specs.Prelude.{◌≡◌, ◌+◌, ◌-◌, IfOk, OnOk, OnErr};
ghost use Rattle.std.specs.Option.{option_map};
ghost use Rattle.blz_cover.specs.Kept.{home_for, lines_at, lines_for, rest_at, HasRoom, HasCount};
ghost use Rattle.blz_cover.specs.LineViews.{source_view};
ghost use Rattle.blz_cover.specs.SourceLines.{path_of};

use crate::line_table::{LineKey, LineTable};
use crate::source_line::SourceLine;
use crate::tally::Home;
use blz_program::push_path;
use std::alloc::{AllocError, Global};

fn key_of(alloc: Global, line: &SourceLine<'_>) -> Result<LineKey, AllocError>
    ensures path { IfOk result (λ k. k.path.items ≡ path_of (source_view line.now)) }
    ensures line { IfOk result (λ k. k.line ≡ line.now.line) }
{
    let mut path = Vec::new(alloc);
    push_path(&mut path, &line.dir, line.file)?;
    Ok(LineKey {
        path,
        line: line.line,
    })
}

/// Where an address counts that stands at a line, or at none. A new line is put last with a count of 0; after want of
/// memory the lines are as before.
pub fn home_of(
    alloc: Global,
    lines: &mut LineTable,
    addr: u64,
    line: Option<SourceLine<'_>>,
) -> Result<Home, AllocError>
    ensures home { IfOk result (λ h. h ≡ home_for (option_map source_view line.entry) lines.old) }
    ensures lines { OnOk result (lines.new ≡ lines_for (option_map source_view line.entry) addr lines.old) }
    ensures err { OnErr result (lines.new ≡ lines.old) }
{
    match line {
        None => Ok(Home::Rest),
        Some(line) => {
            let key = key_of(alloc, &line)?;
            let index = lines.index_or_push(key, addr)?;
            Ok(Home::Line(index))
        }
    }
}

/// Adds a count where it goes.
pub fn add_at(lines: &mut LineTable, rest: &mut u64, home: Home, count: u64)
    requires { HasRoom home count lines.old rest.old }
    ensures lines { lines.new ≡ lines_at (λ n. n + count) home lines.old }
    ensures rest { rest.new ≡ rest_at (λ n. n + count) home rest.old }
{
    match home {
        Home::Line(index) => lines.add(index, count),
        Home::Rest => *rest += count,
    }
}

/// Takes a count from where it went.
pub fn take_at(lines: &mut LineTable, rest: &mut u64, home: Home, count: u64)
    requires { HasCount home count lines.old rest.old }
    ensures lines { lines.new ≡ lines_at (λ n. n - count) home lines.old }
    ensures rest { rest.new ≡ rest_at (λ n. n - count) home rest.old }
{
    match home {
        Home::Line(index) => lines.take(index, count),
        Home::Rest => *rest -= count,
    }
}

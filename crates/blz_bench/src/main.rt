//! Runs one layer over a file and prints what it counted, for the scripts in bench/ and scripts/. No part of the product.
#![tactic(auto)]

mod clocked;
mod debug_sections;
mod entries;
mod functions;
mod lines;
mod ranges;
mod rows;
mod symbols;
mod words;

use blz_bytes::{AsTheyStand, ByStdSort};
use blz_error::Result;
use blz_resolver::files::Files;
use blz_resolver::outside::RealFiles;
use functions::FunctionCounts;
use lines::LineCounts;
use std::alloc::Global;
use std::process::ExitCode;
use std::time::CpuClock;
use std::{env, io};
use symbols::Searched;
use words::{Asked, Layer, List};

const USAGE: &str =
    "usage: blz_bench entries|names|lines|rows|symbols|symbols-by-scan|find|find-by-scan|functions FILE [WORD..]
       blz_bench ranges|ranges-by-scan|sort COUNT ASKED";

fn main(rt: HostRuntime) -> io::Result<ExitCode> {
    let alloc = rt.alloc();
    let mut words = Vec::new(alloc);
    for (i, word) in env::args(&rt)?.enumerate() {
        if i > 0 {
            words.push(word)?;
        }
    }
    let Some(asked) = Asked::from_words(&words) else {
        println!(rt; "{USAGE}")?;
        return Ok(ExitCode::SUCCESS);
    };
    let mut files = RealFiles::new(&rt);
    let text = match asked {
        Asked::File(layer, path, rest) => report(alloc, &rt, &mut files, layer, path, rest),
        Asked::Memory(list, count, asked) => ranged(alloc, &rt, list, count, asked),
    };
    match text {
        Ok(text) => {
            print!(rt; "{text}")?;
            Ok(ExitCode::SUCCESS)
        }
        Err(error) => {
            eprintln!(rt; "blz_bench: {}", error.kind())?;
            Ok(ExitCode::FAILURE)
        }
    }
}

// What the layer finds in a file.
fn report<F: Files, C: CpuClock>(
    alloc: Global,
    clock: &C,
    files: &mut F,
    layer: Layer,
    path: &str,
    rest: &[String],
) -> Result<String> {
    let image = files.read(alloc, path)?;
    match layer {
        Layer::Entries => count_text(alloc, entries::count_entries(alloc, &image)?),
        Layer::Names => count_text(alloc, entries::count_names(alloc, &image)?),
        Layer::Lines => line_counts(alloc, lines::count_lines(alloc, &image)?),
        Layer::Rows => rows::list_rows(alloc, &image),
        Layer::Symbols => searched(
            alloc,
            symbols::count_found(alloc, clock, &image, &mut ByStdSort, rest)?,
        ),
        Layer::SymbolsByScan => searched(
            alloc,
            symbols::count_found(alloc, clock, &image, &mut AsTheyStand, rest)?,
        ),
        Layer::Find => searched(
            alloc,
            symbols::count_named(alloc, clock, &image, &mut ByStdSort, rest)?,
        ),
        Layer::FindByScan => searched(
            alloc,
            symbols::count_named(alloc, clock, &image, &mut AsTheyStand, rest)?,
        ),
        Layer::Functions => {
            function_counts(alloc, functions::count_functions(alloc, clock, &image)?)
        }
    }
}

// What is found among ranges in memory.
fn ranged<C: CpuClock>(
    alloc: Global,
    clock: &C,
    list: List,
    count: u64,
    asked: u64,
) -> Result<String> {
    let outcome = match list {
        List::Ranges => ranges::count_covered(alloc, clock, &mut ByStdSort, count, asked)?,
        List::RangesByScan => {
            ranges::count_covered(alloc, clock, &mut AsTheyStand, count, asked)?
        }
        List::Sort => ranges::sort(alloc, clock, count)?,
    };
    searched(alloc, outcome)
}

fn function_counts(alloc: Global, counts: FunctionCounts) -> Result<String> {
    let FunctionCounts {
        units,
        functions,
        parsing,
        reading,
    } = counts;
    Ok(format!(in alloc; "{units} {functions} {parsing} {reading}\n")?)
}

fn count_text(alloc: Global, count: u64) -> Result<String> {
    Ok(format!(in alloc; "{count}\n")?)
}

fn line_counts(alloc: Global, counts: LineCounts) -> Result<String> {
    let LineCounts {
        units,
        sequences,
        rows,
    } = counts;
    Ok(format!(in alloc; "{units} {sequences} {rows}\n")?)
}

fn searched(alloc: Global, outcome: Searched) -> Result<String> {
    let Searched {
        found,
        preparing,
        searching,
    } = outcome;
    Ok(format!(in alloc; "{found} {preparing} {searching}\n")?)
}

//! The words of the command line, read by `clap` as one simple command.
ghost use Rattle.std.specs.Prelude.{◌≡◌, ◌⊎◌, IfOk, IfErr, map, option_map, true, false};
ghost use Rattle.clap.specs.Words.{all_of, app_of, first_of, found_of, kind_of, matches_of, rows_of, rule_of, takes, with_rule};
ghost use Rattle.blz_tool.specs.CommandLine.{flag_rule, form_by, form_of, is_set, no_words, option_rule, opts_of, place_rule, places_rule, tool_app};
ghost use Rattle.blz_tool.specs.Requests.{form_view, words_in};

use blz_elf::FindSymOpts;
use blz_program::Outcome;
use clap::error::ErrorKind;
use clap::{Arg, ArgAction, ArgMatches, Command, Error};
use std::alloc::{AllocError, Global};

/// Which form the words have.
#[derive(Drop)]
pub enum WordForm<'m, 'a> {
    /// Answers of a file: by which options, with which directories of debug files, its path, and the addresses.
    Lookup(FindSymOpts, Option<&'a str>, &'a str, Option<&'m [&'a str]>),
    /// The demo, and its number of functions.
    Sample(&'a str),
    /// None of these.
    NoForm,
}

fn flag_arg<'a>(alloc: Global, name: &'a str) -> Arg<'a>
    ensures rule { rule_of result ≡ flag_rule name.entry.now }
    ensures own { result.global ≡ false }
{
    Arg::new(alloc, name).long(name).action(ArgAction::SetTrue)
}

fn option_arg<'a>(alloc: Global, name: &'a str) -> Arg<'a>
    ensures rule { rule_of result ≡ option_rule name.entry.now }
    ensures own { result.global ≡ false }
{
    Arg::new(alloc, name).long(name).action(ArgAction::Set)
}

fn place_arg<'a>(alloc: Global, name: &'a str) -> Arg<'a>
    ensures rule { rule_of result ≡ place_rule name.entry.now }
    ensures own { result.global ≡ false }
{
    Arg::new(alloc, name).action(ArgAction::Set)
}

// Each use takes all words up to the next option, so that `clap` acts once for them.
fn places_arg<'a>(alloc: Global, name: &'a str) -> Arg<'a>
    ensures rule { rule_of result ≡ places_rule name.entry.now }
    ensures own { result.global ≡ false }
{
    Arg::new(alloc, name)
        .action(ArgAction::Append)
        .num_args(1usize..)
}

fn with_arg<'a>(command: Command<'a>, arg: Arg<'a>) -> Result<Command<'a>, AllocError>
    requires { arg.global ≡ false }
    ensures { IfOk result (λ c. app_of c ≡ with_rule (app_of command.entry) (rule_of arg.entry)) }
{
    command.arg(arg)
}

fn command<'a>(alloc: Global) -> Result<Command<'a>, AllocError>
    ensures { IfOk result (λ c. app_of c ≡ tool_app) }
{
    let start = Command::new(alloc, "blz_tool");
    let one = with_arg(start, flag_arg(alloc, "basic"))?;
    let two = with_arg(one, flag_arg(alloc, "lines"))?;
    let three = with_arg(two, option_arg(alloc, "debug-dirs"))?;
    let four = with_arg(three, option_arg(alloc, "demo"))?;
    let five = with_arg(four, place_arg(alloc, "path"))?;
    with_arg(five, places_arg(alloc, "addrs"))
}

/// The matches of the words, of which the first is the program's name. Usage comes only where the simple command does not
/// take them, and else OutOfMemory.
pub fn matches_for<'a>(alloc: Global, words: &'a [&'a str]) -> Result<ArgMatches<'a>, Outcome>
    ensures ok { IfOk result
        (λ m. rows_of (found_of m) ≡ matches_of tool_app (map (λ w. w.now) words.entry.now)) }
    ensures err { IfErr result (λ o. (o ≡ Outcome.OutOfMemory)
        ⊎ ((o ≡ Outcome.Usage) × (takes tool_app (map (λ w. w.now) words.entry.now) ≡ false))) }
{
    match parsed(alloc, words) {
        Ok(matches) => Ok(matches),
        Err(error) => match error.kind() {
            ErrorKind::OutOfMemory => Err(Outcome::OutOfMemory),
            _ => Err(Outcome::Usage),
        },
    }
}

fn parsed<'a>(alloc: Global, words: &'a [&'a str]) -> Result<ArgMatches<'a>, Error>
    ensures ok { IfOk result
        (λ m. rows_of (found_of m) ≡ matches_of tool_app (map (λ w. w.now) words.entry.now)) }
    ensures err { IfErr result (λ e. takes tool_app (map (λ w. w.now) words.entry.now) ≡ true
        → kind_of e ≡ ErrorKind.OutOfMemory) }
{
    let wanted = command(alloc)?;
    wanted.try_get_matches_from(words)
}

/// Which form the words have by their matches.
pub fn form_in<'m, 'a>(matches: &'m ArgMatches<'a>) -> WordForm<'m, 'a>
    ensures { form_view result ≡ form_of (rows_of (found_of matches.now)) }
{
    let basic = flag(matches, "basic");
    let lines = flag(matches, "lines");
    let dirs = value(matches, "debug-dirs");
    let demo = value(matches, "demo");
    let path = value(matches, "path");
    choose(basic, lines, dirs, demo, path, values(matches, "addrs"))
}

fn flag(matches: &ArgMatches<'_>, id: &str) -> bool
    ensures { result ≡ is_set id.now (rows_of (found_of matches.now)) }
{
    match matches.get_str(id) {
        Some(text) => text == "true",
        None => false,
    }
}

fn value<'a>(matches: &ArgMatches<'a>, id: &str) -> Option<&'a str>
    ensures { option_map (λ t. t.now) result ≡ first_of id.now (rows_of (found_of matches.now)) }
{
    matches.get_str(id)
}

fn values<'m, 'a>(matches: &'m ArgMatches<'a>, id: &str) -> Option<&'m [&'a str]>
    ensures { option_map (λ t. map (λ w. w.now) t.now) result
        ≡ all_of id.now (rows_of (found_of matches.now)) }
{
    matches.get_strs(id)
}

fn choose<'m, 'a>(
    basic: bool,
    lines: bool,
    dirs: Option<&'a str>,
    demo: Option<&'a str>,
    path: Option<&'a str>,
    addrs: Option<&'m [&'a str]>,
) -> WordForm<'m, 'a>
    ensures { form_view result ≡ form_by basic lines (option_map (λ t. t.now) dirs.entry)
        (option_map (λ t. t.now) demo.entry) (option_map (λ t. t.now) path.entry)
        (words_in addrs.entry) }
{
    match demo {
        Some(number) => {
            let has_flags = basic || lines;
            if !has_flags && dirs.is_none() && path.is_none() && no_words(addrs) {
                WordForm::Sample(number)
            } else {
                WordForm::NoForm
            }
        }
        None => match path {
            Some(path) if !(basic && lines) => {
                WordForm::Lookup(opts_of(basic, lines), dirs, path, addrs)
            }
            _ => WordForm::NoForm,
        },
    }
}

fn opts_of(basic: bool, lines: bool) -> FindSymOpts
    ensures { result ≡ opts_of basic lines }
{
    if basic {
        FindSymOpts::Basic
    } else if lines {
        FindSymOpts::CodeInfo
    } else {
        FindSymOpts::CodeInfoAndInlined
    }
}

fn no_words(words: Option<&[&str]>) -> bool
    ensures { result ≡ no_words (words_in words.entry) }
{
    match words {
        Some(words) => words.is_empty(),
        None => true,
    }
}

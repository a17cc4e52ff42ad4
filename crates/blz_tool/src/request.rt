//! What the words ask for.
ghost use Rattle.std.specs.Prelude.{◌≡◌, ◌⊎◌, ◌<◌, ◌∷◌, [], false, IfErr, IfOk, IfNone, IfSome, length, map, option_map, string_bytes};
ghost use Rattle.clap.specs.Words.{takes};
ghost use Rattle.blz_program.specs.TextLines.{pieces_of};
ghost use Rattle.blz_tool.specs.CommandLine.{asked_by, asked_demo, asked_named, dirs_in, most_functions, tool_app};
ghost use Rattle.blz_program.specs.Words.{each_address, number_up_to};
ghost use Rattle.blz_tool.specs.Requests.{IsFew, form_view, request_view, words_in};

use crate::command_line::{WordForm, form_in, matches_for};
use crate::plain_words::plain_form;
use blz_elf::FindSymOpts;
use blz_program::{Outcome, address, number_up_to};
use memchr::memchr;
use std::alloc::{AllocError, Global};

/// The greatest number of functions in the demo.
const MOST_FUNCTIONS: u64 = 100_000;

/// The addresses of a file that are to be resolved.
#[derive(Drop)]
pub struct Question<'a> {
    /// What is asked beside the symbol.
    pub opts: FindSymOpts,
    /// The directories of debug files, where they are not the default ones.
    pub dirs: Option<Vec<String>>,
    /// The path of the image.
    pub path: &'a str,
    /// The addresses, in their order.
    pub addrs: Vec<u64>,
}

/// What the words ask for.
#[derive(Drop)]
pub enum Request<'a> {
    /// Answers for addresses of a file.
    Resolve(Question<'a>),
    /// The demo, with this number of functions, from 1 to 100000.
    Demo(u32),
}

/// What the program's name and the words after it ask for, or None where they are not of their form. Usage comes only where
/// the simple command does not take them, and else OutOfMemory.
pub fn request_in<'a>(alloc: Global, given: &'a [&'a str]) -> Result<Option<Request<'a>>, Outcome>
    ensures value { IfOk result
        (λ request. request_view request ≡ asked_named (map (λ w. w.now) given.entry.now)) }
    ensures few { IfOk result (λ request. IsFew request) }
    ensures refused { IfErr result (λ o. (o ≡ Outcome.OutOfMemory)
        ⊎ ((o ≡ Outcome.Usage) × (takes tool_app (map (λ w. w.now) given.entry.now) ≡ false))) }
{
    if let Some(form) = plain_form(given) {
        return request_by(alloc, &form);
    }
    match matches_for(alloc, given) {
        Ok(matches) => request_by(alloc, &form_in(&matches)),
        Err(outcome) => Err(outcome),
    }
}

fn request_by<'m, 'a>(
    alloc: Global,
    form: &WordForm<'m, 'a>,
) -> Result<Option<Request<'a>>, Outcome>
    ensures value { IfOk result (λ request. request_view request ≡ asked_by (form_view form.now)) }
    ensures few { IfOk result (λ request. IsFew request) }
    ensures refused { IfErr result (λ o. o ≡ Outcome.OutOfMemory) }
{
    match request_of(alloc, form) {
        Ok(request) => Ok(request),
        Err(_) => Err(Outcome::OutOfMemory),
    }
}

// What words of this form ask for, or None where one of them is not of its own form.
fn request_of<'m, 'a>(
    alloc: Global,
    form: &WordForm<'m, 'a>,
) -> Result<Option<Request<'a>>, AllocError>
    ensures value { IfOk result (λ request. request_view request ≡ asked_by (form_view form.now)) }
    ensures few { IfOk result (λ request. IsFew request) }
{
    match form {
        WordForm::Lookup(opts, dirs, path, addrs) => match addresses(alloc, *addrs)? {
            Some(addrs) => Ok(Some(Request::Resolve(Question {
                opts: *opts,
                dirs: dirs_given(alloc, *dirs)?,
                path,
                addrs,
            }))),
            None => Ok(None),
        },
        WordForm::Sample(number) => Ok(demo_of(number)),
        WordForm::NoForm => Ok(None),
    }
}

fn demo_of<'a>(number: &str) -> Option<Request<'a>>
    ensures value { request_view result ≡ asked_demo (number_up_to most_functions number.now) }
    ensures few { IsFew result }
{
    match number_up_to(number.as_bytes(), MOST_FUNCTIONS) {
        Some(count) => Some(Request::Demo(count as u32)),
        None => None,
    }
}

// The address of each word, or None where a word is none.
fn addresses(alloc: Global, words: Option<&[&str]>) -> Result<Option<Vec<u64>>, AllocError>
    ensures { IfOk result
        (λ r. option_map (λ v. v.items) r ≡ each_address (words_in words.entry)) }
{
    match words {
        Some(words) => addresses_in(alloc, words),
        None => Ok(Some(Vec::new(alloc))),
    }
}

fn addresses_in(alloc: Global, words: &[&str]) -> Result<Option<Vec<u64>>, AllocError>
    ensures { IfOk result
        (λ r. option_map (λ v. v.items) r ≡ each_address (map (λ w. w.now) words.now)) }
{
    let mut addrs = Vec::with_capacity(alloc, words.len())?;
    for word in words {
        match address(word.as_bytes()) {
            Some(addr) => addrs.push(addr)?,
            None => return Ok(None),
        }
    }
    Ok(Some(addrs))
}

fn dirs_given(alloc: Global, list: Option<&str>) -> Result<Option<Vec<String>>, AllocError>
    ensures { IfOk result (λ dirs. option_map (λ dirs. map string_bytes dirs.items) dirs
        ≡ option_map dirs_in (option_map (λ t. t.now) list.entry)) }
{
    match list {
        Some(list) => Ok(Some(dirs_in(alloc, list)?)),
        None => Ok(None),
    }
}

// The directories between colons, of which empty ones are dropped.
fn dirs_in(alloc: Global, list: &str) -> Result<Vec<String>, AllocError>
    ensures { IfOk result (λ dirs. map string_bytes dirs.items ≡ dirs_in list.now) }
{
    let mut dirs = Vec::new(alloc);
    let mut rest = list;
    while let Some((dir, after)) = first_dir(rest) {
        if !dir.is_empty() {
            dirs.push(String::from_str(alloc, dir)?)?;
        }
        rest = after;
    }
    Ok(dirs)
}

// What stands before the first colon, and what follows it.
fn first_dir(list: &str) -> Option<(&str, &str)>
    ensures none { IfNone result (list.now ≡ []) }
    ensures some { IfSome result
        (λ pair. pieces_of 58 list.now ≡ pair.0.now ∷ pieces_of 58 pair.1.now) }
    ensures shorter { IfSome result (λ pair. length pair.1.now < length list.now) }
{
    if list.is_empty() {
        return None;
    }
    match memchr(b':', list.as_bytes()) {
        Some(end) => Some((&list[..end], &list[end + 1..])),
        None => Some((list, "")),
    }
}

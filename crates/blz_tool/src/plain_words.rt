//! Words that name no option: a path and addresses, as `clap` takes them, without a walk over its rules for each.
ghost use Rattle.std.specs.Prelude.{◌≡◌, IfSome, map};
ghost use Rattle.std.specs.List.{list_all};
ghost use Rattle.clap.specs.Words.{matches_of};
ghost use Rattle.blz_tool.specs.CommandLine.{form_of, tool_app};
ghost use Rattle.blz_tool.specs.PlainWords.{is_plain};
ghost use Rattle.blz_tool.specs.Requests.{form_view};

use crate::command_line::WordForm;
use blz_elf::FindSymOpts;

fn is_plain(word: &str) -> bool
    ensures { result ≡ is_plain word.now }
{
    match word.as_bytes() {
        [first, ..] => *first != b'-',
        [] => true,
    }
}

fn are_plain(words: &[&str]) -> bool
    ensures { result ≡ list_all (λ w. is_plain w.now) words.now }
{
    words.iter().all(|word| is_plain(word))
}

/// The form of the program's name and words after it of which none begins with a hyphen; None where one does, or where
/// there is none.
pub fn plain_form<'m, 'a>(given: &'m [&'a str]) -> Option<WordForm<'m, 'a>>
    ensures { IfSome result (λ form. form_view form
        ≡ form_of (matches_of tool_app (map (λ w. w.now) given.entry.now))) }
{
    match given {
        [_, path, addrs @ ..] if is_plain(path) && are_plain(addrs) => Some(WordForm::Lookup(
            FindSymOpts::CodeInfoAndInlined,
            None,
            path,
            Some(addrs),
        )),
        _ => None,
    }
}

//! What the words of the command lines ask for.
ghost use Rattle.std.specs.Prelude.{◌≡◌, map, option_map, string_bytes};
ghost use Rattle.blz_listings.specs.FindTexts.{find_asked};
ghost use Rattle.blz_listings.specs.LineTexts.{lines_asked};
ghost use Rattle.blz_listings.specs.QuestionViews.{question_view};

use crate::question::{Question, Topic};
use crate::sought::Sought;
use crate::wanted::Wanted;

/// What the words of blz_lines ask for; None exactly where they are not of the form `[--rows] IMAGE`.
pub fn lines_question(words: &[String]) -> Option<Question<'_>>
    ensures { option_map question_view result ≡ lines_asked (map string_bytes words.entry.now) }
{
    match words {
        [path] => Some(Question {
            path: path.as_str(),
            topic: Topic::Lines(Wanted::Places),
        }),
        [option, path] => {
            if option.as_str() == "--rows" {
                Some(Question {
                    path: path.as_str(),
                    topic: Topic::Lines(Wanted::Entries),
                })
            } else {
                None
            }
        }
        _ => None,
    }
}

/// What the words of blz_find ask for; None exactly where they are not of the form `[--file-offset] IMAGE [NAME..]`.
pub fn find_question(words: &[String]) -> Option<Question<'_>>
    ensures { option_map question_view result ≡ find_asked (map string_bytes words.entry.now) }
{
    let file_offset = words.len() > 1 && words[0].as_str() == "--file-offset";
    let rest = if file_offset { &words[1..] } else { words };
    let path = rest.first()?;
    Some(Question {
        path: path.as_str(),
        topic: Topic::Addresses(Sought {
            names: &rest[1..],
            file_offset,
        }),
    })
}

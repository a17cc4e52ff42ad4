//! What the words of the command line ask for.
ghost use Rattle.std.specs.Prelude.{◌≡◌, ◌<◌, ◌≤◌, IfSome, length, map, option_map, string_bytes};
ghost use Rattle.blz_rows.specs.Words.{divided};

use blz_program::number_up_to;
use memchr::memrchr;

/// What is asked of a line of a file.
#[derive(Clone, Copy, Debug, PartialEq, Eq)]
pub enum Wanted {
    /// The addresses of its rows.
    Addresses,
    /// The line itself, where it has rows, or the next one that has.
    NextLine,
}

/// A line of a file, and the image that is asked.
#[derive(Clone, Copy)]
pub struct Question<'w> {
    pub wanted: Wanted,
    /// The path of the image.
    pub path: &'w str,
    /// The name of the file, which is not empty.
    pub file: &'w [u8],
    /// The line, from 1 on.
    pub line: u32,
}

impl<'w> Question<'w> {
    ghost use Rattle.blz_rows.specs.QuestionViews.{question_view};
    ghost use Rattle.blz_rows.specs.Words.{asked, file_line, question_of};

    /// What the words ask for; None exactly where they are not of the form `[--next] IMAGE FILE:LINE`.
    pub fn from_words(words: &'w [String]) -> Option<Question<'w>>
        ensures value { option_map question_view result ≡ asked (map string_bytes words.entry.now) }
        ensures named { IfSome result (λ q. 0 < length q.file.now) }
        ensures numbered { IfSome result (λ q. 1 ≤ q.line) }
    {
        match words {
            [path, place] => Question::at(Wanted::Addresses, path.as_str(), place.as_str()),
            [option, path, place] => {
                if option.as_str() == "--next" {
                    Question::at(Wanted::NextLine, path.as_str(), place.as_str())
                } else {
                    None
                }
            }
            _ => None,
        }
    }

    // A question about FILE:LINE.
    fn at(wanted: Wanted, path: &'w str, place: &'w str) -> Option<Question<'w>>
        ensures value { option_map question_view result ≡ question_of wanted path.entry.now (file_line place.entry.now) }
        ensures named { IfSome result (λ q. 0 < length q.file.now) }
        ensures numbered { IfSome result (λ q. 1 ≤ q.line) }
    {
        let (file, number) = divided(place.as_bytes())?;
        let line = number_up_to(number, u64::from(u32::MAX))?;
        if file.is_empty() {
            return None;
        }
        Some(Question {
            wanted,
            path,
            file,
            line: line as u32,
        })
    }
}

// What stands before the last colon, and behind it.
fn divided(word: &[u8]) -> Option<(&[u8], &[u8])>
    ensures { option_map (λ parts. (parts.0.now, parts.1.now)) result ≡ divided word.now }
{
    let colon = memrchr(b':', word)?;
    Some((&word[..colon], &word[colon + 1..]))
}

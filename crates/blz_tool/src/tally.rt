//! How many answers have a symbol, and the sum of their lines.
ghost use Rattle.std.specs.Prelude.{◌≡◌, ◌≤◌, ◌<◌, ◌+◌, ◌^◌};
ghost use Rattle.blz_elf.specs.AnswerView.{answer_view};
ghost use Rattle.blz_tool.specs.Tallies.{line_in, symbols_in};

use blz_elf::{Answer, CodeInfo};

/// How many answers have a symbol, and the sum of their lines.
#[derive(Clone, Copy)]
pub struct Tally {
    /// How many have a symbol.
    pub found: u64,
    /// The sum of the lines of these symbols.
    pub lines: u64,
}

impl Tally {
    ghost use Rattle.blz_tool.specs.Tallies.{with_answer};

    /// No answer.
    pub fn new() -> Tally
        ensures { result ≡ record { found = 0; lines = 0 } }
    {
        Tally { found: 0, lines: 0 }
    }

    /// These answers and one more.
    pub fn with_answer(self, answer: &Answer<'_>) -> Tally
        requires found { self.found < 2 ^ 32 }
        requires lines { self.lines < 2 ^ 63 }
        ensures value { result ≡ with_answer self (answer_view answer.now) }
        ensures found { result.found ≤ self.found + 1 }
        ensures lines { result.lines ≤ self.lines + 2 ^ 32 }
    {
        Tally {
            found: self.found + symbols_in(answer),
            lines: self.lines + u64::from(line_in(answer)),
        }
    }
}

fn symbols_in(answer: &Answer<'_>) -> u64
    ensures value { result ≡ symbols_in (answer_view answer.now) }
    ensures small { result ≤ 1 }
{
    match answer {
        Answer::Sym(_) => 1,
        Answer::NoSym(_) => 0,
    }
}

// The line of a symbol, 0 where there is none.
fn line_in(answer: &Answer<'_>) -> u32
    ensures { result ≡ line_in (answer_view answer.now) }
{
    match answer {
        Answer::Sym(symbol) => match &symbol.code_info {
            Some(
                CodeInfo {
                    line: Some(line),
                    ..
                },
            ) => *line,
            _ => 0,
        },
        Answer::NoSym(_) => 0,
    }
}

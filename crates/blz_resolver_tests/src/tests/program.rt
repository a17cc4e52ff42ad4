//! What the programs share: words, lines, printed texts and how a run ends.

mod endings;
mod texts;
mod words;

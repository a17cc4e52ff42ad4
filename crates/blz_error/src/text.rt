//! Texts of errors.
ghost use Rattle.std.specs.Prelude.{◌≡◌, List, ℕ, string_bytes};

use std::marker::Model;

#[derive(Drop)]
pub(crate) enum Text {
    Fixed(&'static str),
    Owned(String),
}

/// A text that is fixed or owned.
#[derive(Drop)]
pub struct Str {
    text: Text,
}

impl Model for Str {
    ghost use Rattle.std.specs.Prelude.{List, ℕ};

    ghost Value = { List ℕ };

    ghost use Rattle.blz_error.specs.Texts.{text_bytes};

    ghost view = { λ s. text_bytes s.text };
}

impl Str {
    /// A text of the program; takes no memory.
    pub fn fixed(text: &'static str) -> Str
        ensures { result ≡ text.entry.now }
    {
        Str {
            text: Text::Fixed(text),
        }
    }

    /// A text that was made.
    pub fn owned(text: String) -> Str
        ensures { result ≡ string_bytes text }
    {
        Str {
            text: Text::Owned(text),
        }
    }

    /// The text.
    pub fn as_str(&self) -> &str
        ensures { result.now ≡ self.now }
    {
        match &self.text {
            Text::Fixed(text) => text,
            Text::Owned(text) => text.as_str(),
        }
    }
}

/// What serves as the text of an error; takes no memory.
pub trait IntoCowStr {
    ghost text_of: { Self → List ℕ };

    /// The same text, as an error keeps it.
    fn into_cow_str(self) -> Str
        ensures { result ≡ text_of self };
}

impl IntoCowStr for &'static str {
    ghost text_of = { λ text. text.now };

    fn into_cow_str(self) -> Str {
        Str::fixed(self)
    }
}

impl IntoCowStr for String {
    ghost text_of = { λ text. string_bytes text };

    fn into_cow_str(self) -> Str {
        Str::owned(self)
    }
}

//! The lines of a text file.
ghost use Rattle.std.specs.Prelude.{◌≡◌, ◌<◌, ◌∷◌, [], IfNone, IfSome, length};
ghost use Rattle.blz_program.specs.TextLines.{IsCut, lines_of};

use memchr::memchr;

/// The first line of a text, without its line feed, and what follows it; None where the text is empty. Each line ends
/// at a line feed, which the last may lack.
pub fn first_line(text: &[u8]) -> Option<(&[u8], &[u8])>
    ensures none { IfNone result (text.now ≡ []) }
    ensures some { IfSome result (λ pair. lines_of text.now ≡ pair.0.now ∷ lines_of pair.1.now) }
    ensures cut { IfSome result (λ pair. IsCut text.now pair.0.now pair.1.now) }
    ensures shorter { IfSome result (λ pair. length pair.1.now < length text.now) }
{
    if text.is_empty() {
        return None;
    }
    match memchr(b'\n', text) {
        Some(end) => Some((&text[..end], &text[end + 1..])),
        None => Some((text, &[])),
    }
}

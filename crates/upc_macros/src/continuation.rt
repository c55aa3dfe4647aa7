//! Whether C99 goes on with a directive after the line that it begins on (C99 5.1.1.2, 6.10).
ghost use Rattle.std.specs.Prelude.{◌≡◌};
ghost use Rattle.upc_macros.specs.declared.continuation.Reading.TheVariants.{Blank};
ghost use Rattle.upc_macros.specs.Continuation.{after_byte, is_text, goes_on};

/// What was read after a directive's last token.
#[derive(Clone, Copy)]
pub(crate) enum Reading {
    /// Blanks and whole comments.
    Blank,
    /// Then a `/`.
    Slash,
    /// Then the beginning of a comment.
    Comment,
    /// Then the same up to a `*`.
    Star,
    /// The end of a line that is in no comment, or a comment that ends with its line.
    LineEnd,
    /// A token.
    Text,
}

/// What was read, with one more byte.
fn after_byte(reading: Reading, byte: u8) -> Reading
    ensures { result ≡ after_byte reading byte }
{
    match reading {
        Reading::Blank => match byte {
            b'\n' => Reading::LineEnd,
            9..=13 | b' ' => Reading::Blank,
            b'/' => Reading::Slash,
            _ => Reading::Text,
        },
        Reading::Slash => match byte {
            b'*' => Reading::Comment,
            b'/' => Reading::LineEnd,
            _ => Reading::Text,
        },
        Reading::Comment => match byte {
            b'*' => Reading::Star,
            _ => Reading::Comment,
        },
        Reading::Star => match byte {
            b'/' => Reading::Blank,
            b'*' => Reading::Star,
            _ => Reading::Comment,
        },
        Reading::LineEnd => Reading::LineEnd,
        Reading::Text => Reading::Text,
    }
}

/// Whether a token was read.
fn is_text(reading: Reading) -> bool
    ensures { result ≡ is_text reading }
{
    matches!(reading, Reading::Slash | Reading::Text)
}

/// Whether a token comes before the end of a line that is in no comment.
pub(crate) fn goes_on(bytes: &[u8]) -> bool
    ensures { result ≡ goes_on Blank bytes.now }
{
    let mut reading = Reading::Blank;
    for byte in bytes {
        reading = after_byte(reading, *byte);
        match reading {
            Reading::Text => return true,
            Reading::LineEnd => return false,
            _ => {}
        }
    }
    is_text(reading)
}

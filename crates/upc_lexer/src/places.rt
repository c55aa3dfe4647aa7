//! Places, counted along the source.
ghost use Rattle.std.specs.Prelude.{◌≡◌, ◌+◌, ◌<◌, ◌^◌, ◌++◌, List, ℕ, length};
ghost use Rattle.upc_lexer.specs.Places.{place_after};

use upc_text::Place;

/// The place after a text that begins at a place.
pub(crate) fn place_behind(place: Place, text: &[u8]) -> Place
    requires line { place.line + length text.now < 2 ^ 32 }
    requires column { place.column + length text.now < 2 ^ 32 }
    ensures { (front : List ℕ) → place ≡ place_after front → result ≡ place_after (front ++ text.now) }
{
    let mut line = place.line;
    let mut column = place.column;
    for byte in text {
        if *byte == b'\n' {
            line += 1;
            column = 1;
        } else {
            column += 1;
        }
    }
    Place { line, column }
}

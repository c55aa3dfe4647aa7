//! The formats of printf (C99 7.19.6.1).

ghost use Rattle.std.specs.Prelude.{◌≡◌, ◌<◌, ◌≤◌, [], ◌∷◌, drop, length, take_while, true, false, IfNone, IfSome};
ghost use Rattle.upc_values.specs.Printing as printing;

/// How a conversion shows its value: as a signed or an unsigned number, in hexadecimal, or as one byte.
#[derive(Clone, Copy)]
pub enum Style {
    Signed,
    Unsigned,
    Hexadecimal,
    Byte,
}

/// A conversion of a format: whether it fills with zeros, the least number of bytes that it prints, whether its value
/// is long, and its style.
#[derive(Clone, Copy)]
pub struct Conversion {
    pub zeros: bool,
    pub width: u32,
    pub long: bool,
    pub style: Style,
}

/// A piece of a format: a byte that prints itself, a conversion, or a `%` that begins none.
#[derive(Clone, Copy)]
pub enum Piece {
    Plain(u8),
    Converted(Conversion),
    Stray,
}

/// A piece, and how many bytes it has: after its `%`, where it is looked for there, else in all.
#[derive(Clone, Copy)]
pub struct Found {
    pub piece: Piece,
    pub bytes: usize,
}

fn is_digit(b: u8) -> bool
    ensures { result ≡ printing.is_digit b }
{
    48 <= b && b <= 57
}

fn begins_with(b: u8, bytes: &[u8]) -> bool
    ensures value { result ≡ printing.begins_with b bytes.now }
    ensures within { printing.count_of result ≤ length bytes.now }
{
    match bytes {
        [first, ..] => *first == b,
        [] => false,
    }
}

// A flag is one byte where it stands.
fn count_of(stands: bool) -> usize
    ensures { result ≡ printing.count_of stands }
{
    if stands { 1 } else { 0 }
}

// How many digits the bytes begin with.
fn digit_count(bytes: &[u8]) -> usize
    ensures value { result ≡ length (take_while printing.is_digit bytes.now) }
    ensures within { result ≤ length bytes.now }
{
    bytes.iter().take_while(|b| is_digit(**b)).count()
}

// The digits that the bytes begin with.
fn digits_in(bytes: &[u8]) -> &[u8]
    ensures value { result.now ≡ take_while printing.is_digit bytes.now }
    ensures within { length result.now ≤ length bytes.now }
{
    &bytes[..digit_count(bytes)]
}

fn width_of(digits: &[u8]) -> Option<u32>
    ensures { result ≡ printing.width_of digits.now }
{
    match *digits {
        [] => Some(0),
        [a] if a != b'0' => Some(u32::from(a.saturating_sub(48))),
        [a, b] if a != b'0' => {
            Some(10 * u32::from(a.saturating_sub(48)) + u32::from(b.saturating_sub(48)))
        }
        _ => None,
    }
}

fn style_of(b: u8) -> Option<Style>
    ensures { result ≡ printing.style_in false (b ∷ []) }
{
    match b {
        b'd' | b'i' => Some(Style::Signed),
        b'u' => Some(Style::Unsigned),
        b'x' => Some(Style::Hexadecimal),
        b'c' => Some(Style::Byte),
        _ => None,
    }
}

fn long_style_of(b: u8) -> Option<Style>
    ensures { result ≡ printing.style_in true (b ∷ []) }
{
    match b {
        b'd' => Some(Style::Signed),
        b'u' => Some(Style::Unsigned),
        b'x' => Some(Style::Hexadecimal),
        _ => None,
    }
}

fn style_in(long: bool, letters: &[u8]) -> Option<Style>
    ensures { result ≡ printing.style_in long letters.now }
{
    match letters {
        [b, ..] => {
            if long {
                long_style_of(*b)
            } else {
                style_of(*b)
            }
        }
        [] => None,
    }
}

fn conversion_of(
    zeros: bool,
    width: Option<u32>,
    long: bool,
    style: Option<Style>,
    bytes: usize,
) -> Found
    ensures { result ≡ printing.conversion zeros width long style bytes }
{
    match (width, style) {
        (Some(width), Some(style)) => Found {
            piece: Piece::Converted(Conversion {
                zeros,
                width,
                long,
                style,
            }),
            bytes,
        },
        _ => Found {
            piece: Piece::Stray,
            bytes: 0,
        },
    }
}

// The conversion that the bytes after a `%` begin with.
fn conversion_in(bytes: &[u8]) -> Found
    ensures value { result ≡ printing.conversion_in bytes.now }
    ensures within { result.bytes ≤ length bytes.now }
{
    let zeros = begins_with(b'0', bytes);
    let rest = &bytes[count_of(zeros)..];
    let width = digits_in(rest);
    let letters = &rest[width.len()..];
    let long = begins_with(b'l', letters);
    let style = style_in(long, &letters[count_of(long)..]);
    let count = count_of(zeros) + width.len() + count_of(long) + 1;
    conversion_of(zeros, width_of(width), long, style, count)
}

// What begins at a `%`, by the bytes after it.
fn found_in(bytes: &[u8]) -> Found
    ensures value { result ≡ printing.found_in bytes.now }
    ensures within { result.bytes ≤ length bytes.now }
{
    if begins_with(b'%', bytes) {
        return Found {
            piece: Piece::Plain(b'%'),
            bytes: 1,
        };
    }
    conversion_in(bytes)
}

/// The first piece of a format. It takes no memory.
pub fn first_piece(format: &[u8]) -> Option<Found>
    ensures none { IfNone result (format.now ≡ []) }
    ensures first { IfSome result (λ f.
        printing.pieces_behind 0 format.now
        ≡ f.piece ∷ printing.pieces_behind 0 (drop f.bytes format.now)) }
    ensures within { IfSome result (λ f. (0 < f.bytes) × (f.bytes ≤ length format.now)) }
{
    if format.is_empty() {
        return None;
    }
    let first = format[0];
    if first != b'%' {
        return Some(Found {
            piece: Piece::Plain(first),
            bytes: 1,
        });
    }
    let found = found_in(&format[1..]);
    Some(Found {
        piece: found.piece,
        bytes: found.bytes + 1,
    })
}

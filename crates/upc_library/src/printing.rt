//! What printf prints.

ghost use Rattle.std.specs.Prelude.{◌≡◌, ◌++◌, ◌<◌, ◌^◌, ◌&&◌, replicate, IfOk, All};
ghost use Rattle.std.specs.Fmt.{sign_text};
ghost use Rattle.integers.specs.Integers.{IsInteger};
ghost use Rattle.upc_values.specs.Printing as printing;
ghost use Rattle.upc_library.specs.code.Printing.{IsNear, FitsStyle, piece_text, values_behind};

use block_layout::Kind;
use itoa::Buffer;
use std::alloc::Global;
use upc_text::{OutOfMemory, Text};
use upc_values::{Conversion, Piece, Style, convert, first_piece};

fn kind_of(long: bool, style: Style) -> Kind
    ensures value { result ≡ printing.kind_of long style }
    ensures integer { IsInteger result }
{
    match style {
        Style::Signed => { if long { Kind::Long } else { Kind::Int } }
        Style::Unsigned | Style::Hexadecimal => { if long { Kind::ULong } else { Kind::UInt } }
        Style::Byte => Kind::UChar,
    }
}

// Whether a conversion fills with zeros.
fn fills_with_zeros(conversion: Conversion) -> bool
    ensures { result ≡ (conversion.zeros && printing.may_have_zeros conversion.style) }
{
    conversion.zeros && !matches!(conversion.style, Style::Byte)
}

// The digits of a number without its sign.
fn shown(alloc: Global, style: Style, number: u64) -> Result<Vec<u8>, OutOfMemory>
    requires { FitsStyle style number }
    ensures { IfOk result (λ digits. digits.items ≡ printing.shown style number) }
{
    match style {
        Style::Signed | Style::Unsigned => {
            let mut buffer = Buffer::new();
            Ok(Vec::from_slice(alloc, buffer.format(number).as_bytes())?)
        }
        Style::Hexadecimal => Ok(format!(in alloc; "{number:x}")?.into_bytes()),
        Style::Byte => Ok(Vec::from_slice(alloc, &[number as u8])?),
    }
}

fn add(text: &mut Vec<u8>, bytes: &[u8]) -> Result<(), OutOfMemory>
    ensures { IfOk result (λ _. text.new.items ≡ text.old.items ++ bytes.now) }
{
    text.extend_from_slice(bytes)?;
    Ok(())
}

// So many bytes of one value.
fn add_fill(text: &mut Vec<u8>, byte: u8, count: usize) -> Result<(), OutOfMemory>
    requires { count < 2 ^ 32 }
    ensures { IfOk result (λ _. text.new.items ≡ text.old.items ++ replicate count byte) }
{
    text.resize(text.len() + count, byte)?;
    Ok(())
}

// The digits with their sign, filled on the left to the width.
fn add_filled(
    text: &mut Vec<u8>,
    zeros: bool,
    width: u32,
    negative: bool,
    digits: &[u8],
) -> Result<(), OutOfMemory>
    ensures { IfOk result (λ _. text.new.items
        ≡ text.old.items ++ printing.filled zeros width (sign_text negative) digits.now) }
{
    let sign: &[u8] = if negative { b"-" } else { b"" };
    let fill = (width as usize).saturating_sub(sign.len() + digits.len());
    if zeros {
        add(text, sign)?;
        add_fill(text, b'0', fill)?;
        return add(text, digits);
    }
    add_fill(text, b' ', fill)?;
    add(text, sign)?;
    add(text, digits)
}

// The text of a value by a conversion.
fn add_converted(
    alloc: Global,
    text: &mut Vec<u8>,
    conversion: Conversion,
    value: i128,
) -> Result<(), OutOfMemory>
    requires { IsNear value }
    ensures { IfOk result (λ _. text.new.items ≡ text.old.items ++ printing.text_of conversion value) }
{
    let number = convert(value, kind_of(conversion.long, conversion.style));
    let digits = shown(alloc, conversion.style, number.unsigned_abs() as u64)?;
    add_filled(
        text,
        fills_with_zeros(conversion),
        conversion.width,
        number < 0,
        digits.as_slice(),
    )
}

// The text of one piece; the values that are left are answered.
fn add_piece<'a>(
    alloc: Global,
    text: &mut Vec<u8>,
    piece: Piece,
    values: &'a [i128],
) -> Result<&'a [i128], OutOfMemory>
    requires { All IsNear values.now }
    ensures text { IfOk result (λ _. text.new.items ≡ text.old.items ++ piece_text piece values.now) }
    ensures rest { IfOk result (λ rest. rest.now ≡ values_behind piece values.now) }
    ensures near { IfOk result (λ rest. All IsNear rest.now) }
{
    match piece {
        Piece::Plain(b) => {
            text.push(b)?;
            Ok(values)
        }
        Piece::Converted(conversion) => match values {
            [value, rest @ ..] => {
                add_converted(alloc, text, conversion, *value)?;
                Ok(rest)
            }
            [] => Ok(values),
        },
        Piece::Stray => Ok(values),
    }
}

/// What printf prints, by its format and the values after it, in order. A `%` that begins no conversion, and a
/// conversion without a value, print nothing.
pub fn print_text(alloc: Global, format: &[u8], args: &[i128]) -> Result<Text, OutOfMemory>
    requires { All IsNear args.now }
    ensures { IfOk result (λ text. text ≡ printing.printed format.now args.now) }
{
    let mut text = Vec::new(alloc);
    let mut rest = format;
    let mut values = args;
    while let Some(found) = first_piece(rest) {
        values = add_piece(alloc, &mut text, found.piece, values)?;
        rest = &rest[found.bytes..];
    }
    Ok(Text::from_vec(text))
}

//! The formats of printf (C99 7.19.6.1), byte by byte.

ghost use Rattle.std.specs.Prelude.{◌≡◌, IfSome};
ghost use Rattle.integers.specs.Integers.{IsInteger};
ghost use Rattle.typing_rules.specs.Format as pure;

use block_layout::Kind;
use upc_types::promoted;

/// What a conversion prints: an int or unsigned int, or a long or unsigned long.
#[derive(Clone, Copy)]
pub enum Printed {
    AnInt,
    ALong,
}

/// What may stand in a format at a place: anything, or what follows the part of a conversion that has been read: its
/// `%`, its `0`, one digit or two of its width, its `l`.
#[derive(Clone, Copy)]
pub enum Awaits {
    Anything,
    AfterPercent,
    AfterZero,
    AfterDigit,
    AfterDigits,
    AfterL,
}

/// What a byte of a format does: it cannot stand there, it goes on, or it ends a conversion.
#[derive(Clone, Copy)]
pub enum FormatStep {
    Stops,
    Goes(Awaits),
    Prints(Printed),
}

fn behind_width(b: u8) -> FormatStep
    ensures { result ≡ pure.behind_width b }
{
    match b {
        b'l' => FormatStep::Goes(Awaits::AfterL),
        b'd' | b'i' | b'u' | b'x' | b'c' => FormatStep::Prints(Printed::AnInt),
        _ => FormatStep::Stops,
    }
}

fn is_digit(b: u8) -> bool
    ensures { result ≡ pure.is_digit b }
{
    48 <= b && b <= 57
}

fn anything(b: u8) -> FormatStep
    ensures { result ≡ pure.step Awaits.Anything b }
{
    if b == 37 {
        FormatStep::Goes(Awaits::AfterPercent)
    } else {
        FormatStep::Goes(Awaits::Anything)
    }
}

fn behind_percent(b: u8) -> FormatStep
    ensures { result ≡ pure.step Awaits.AfterPercent b }
{
    if b == 37 {
        FormatStep::Goes(Awaits::Anything)
    } else if b == 48 {
        FormatStep::Goes(Awaits::AfterZero)
    } else if is_digit(b) {
        FormatStep::Goes(Awaits::AfterDigit)
    } else {
        behind_width(b)
    }
}

/// What a byte of a format does where this may stand.
pub fn step(state: Awaits, b: u8) -> FormatStep
    ensures { result ≡ pure.step state b }
{
    match state {
        Awaits::Anything => anything(b),
        Awaits::AfterPercent => behind_percent(b),
        Awaits::AfterZero => {
            if is_digit(b) && b != 48 {
                FormatStep::Goes(Awaits::AfterDigit)
            } else {
                behind_width(b)
            }
        }
        Awaits::AfterDigit => {
            if is_digit(b) {
                FormatStep::Goes(Awaits::AfterDigits)
            } else {
                behind_width(b)
            }
        }
        Awaits::AfterDigits => behind_width(b),
        Awaits::AfterL => {
            if b == 100 || (b == 117 || b == 120) {
                FormatStep::Prints(Printed::ALong)
            } else {
                FormatStep::Stops
            }
        }
    }
}

fn is_printed_kind(p: Printed, kind: Kind) -> bool
    ensures { result ≡ pure.is_printed_kind p kind }
{
    match p {
        Printed::AnInt => matches!(kind, Kind::Int | Kind::UInt),
        Printed::ALong => matches!(kind, Kind::Long | Kind::ULong),
    }
}

/// Whether a conversion prints a value of this kind.
pub fn prints_kind(p: Printed, kind: Option<Kind>) -> bool
    requires { IfSome kind IsInteger }
    ensures { result ≡ pure.prints_kind p kind }
{
    match kind {
        Some(kind) => is_printed_kind(p, promoted(kind)),
        None => false,
    }
}

/// Whether no conversion is open.
pub fn is_anything(state: Awaits) -> bool
    ensures { result ≡ pure.is_anything state }
{
    matches!(state, Awaits::Anything)
}

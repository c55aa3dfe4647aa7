//! The kind of the result of integer operators (C99 6.3.1.1, 6.3.1.8).

ghost use Rattle.std.specs.Prelude.{◌≡◌};
ghost use Rattle.integers.specs.Integers.{promoted, IsInteger, IsPromoted};
ghost use Rattle.upc_types.specs.Arithmetic as pure;

use block_layout::Kind;

/// The kind that integer promotion gives (C99 6.3.1.1). Takes no memory.
pub fn promoted(kind: Kind) -> Kind
    requires { IsInteger kind }
    ensures value { result ≡ promoted kind }
    ensures promoted { IsPromoted result }
{
    match kind {
        Kind::Char | Kind::UChar | Kind::Short | Kind::UShort => Kind::Int,
        _ => kind,
    }
}

/// The kind that the usual arithmetic conversions give (C99 6.3.1.8). Takes no memory.
pub fn usual(a: Kind, b: Kind) -> Kind
    requires left { IsInteger a }
    requires right { IsInteger b }
    ensures value { result ≡ pure.usual a b }
    ensures promoted { IsPromoted result }
{
    match (promoted(a), promoted(b)) {
        (Kind::ULong, _) | (_, Kind::ULong) => Kind::ULong,
        (Kind::Long, _) | (_, Kind::Long) => Kind::Long,
        (Kind::UInt, _) | (_, Kind::UInt) => Kind::UInt,
        _ => Kind::Int,
    }
}

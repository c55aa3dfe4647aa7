//! Codes of shapes: equal shapes have one code, and others seldom the same.

ghost use Rattle.std.specs.Prelude.{◌≡◌, ◌<◌};
ghost use Rattle.block_layout.specs.Shapes.{IsShape};
ghost use Rattle.typed_tree_opening.specs.code.Apart as pure;

use block_layout::{Kind, Shape};

fn kind_code(kind: Kind) -> u32
    ensures { result ≡ pure.kind_code kind }
{
    match kind {
        Kind::Char => 1,
        Kind::UChar => 2,
        Kind::Short => 3,
        Kind::UShort => 4,
        Kind::Int => 5,
        Kind::UInt => 6,
        Kind::Long => 7,
        Kind::ULong => 8,
        Kind::Lock => 9,
        Kind::Shared(number, _) | Kind::Private(number) => number,
    }
}

// The code with one more cell.
fn with_cell(code: u64, cell: (u32, Kind)) -> u64
    requires { code < 4294967296 }
    ensures value { result ≡ pure.with_cell code cell }
    ensures small { result < 4294967296 }
{
    (code * 65_599 + u64::from(cell.0) + u64::from(kind_code(cell.1)) * 16_777_259) % 4_294_967_291
}

// So many places of a shape count, spread evenly over its bytes, and so many cells from each on: a shape may have some
// 16 million.
const PLACES: u32 = 16;

const MOST: u32 = 16;

// The code with some cells more: those from a byte on.
fn with_cells(code: u64, shape: &Shape, place: u32) -> u64
    requires shape { IsShape shape.now }
    requires code { code < 4294967296 }
    ensures value { result ≡ pure.cells_code 16 code (pure.cells_from place shape.now.cells) }
    ensures small { result < 4294967296 }
{
    let mut code = code;
    let mut left = MOST;
    for cell in shape.cells.from(place) {
        if left == 0 {
            return code;
        }
        code = with_cell(code, cell);
        left -= 1;
    }
    code
}

// The byte from which on cells count at one of the places.
fn place_at(size: u32, i: u32) -> u32
    requires { i < 16 }
    ensures { result ≡ pure.place_at size i }
{
    let place = (u64::from(size) * u64::from(i) / u64::from(PLACES)) as u32;
    place.saturating_sub(MOST)
}

/// The code of a shape.
pub(crate) fn code_of(shape: &Shape) -> u64
    requires { IsShape shape.now }
    ensures { result ≡ pure.code_of shape.now }
{
    let mut code = u64::from(shape.size);
    for i in 0..PLACES {
        code = with_cells(code, shape, place_at(shape.size, i));
    }
    code
}

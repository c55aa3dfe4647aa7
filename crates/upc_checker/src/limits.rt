//! The limits on the objects of a source (docs/LANGUAGE.md, "Limits").

ghost use Rattle.std.specs.Prelude.{◌≡◌, map};
ghost use Rattle.upc_types.specs.ViewStructs.{view_structs};
ghost use Rattle.typed_tree.specs.ViewStatements.{view_object};
ghost use Rattle.upc_checker.specs.Limits as pure;
ghost use Rattle.upc_checker.specs.code.ViewUnits.{view_passed, view_sort};

use block_layout::limits;
use typed_tree::Object;
use typing_rules::Home;
use upc_checker_scopes::known::Known;
use upc_text::Place;
use upc_types::{Layout, Structs};

/// Objects of the file that are not shared, or those that are.
#[derive(Clone, Copy)]
pub(crate) enum Sort {
    Private,
    Shared,
}

/// A limit that is passed, by its number, and where.
#[derive(Clone, Copy)]
pub(crate) struct Passed {
    pub limit: u8,
    pub place: Place,
}

fn counts(sort: Sort, home: Home) -> bool
    ensures { result ≡ view_sort sort home }
{
    match sort {
        Sort::Private => !matches!(home, Home::Shared(_)),
        Sort::Shared => matches!(home, Home::Shared(_)),
    }
}

fn left_by(layout: Option<Layout>, room: u32) -> Option<u32>
    ensures { result ≡ pure.left_by layout room }
{
    match layout {
        None => None,
        Some(layout) => room.checked_sub(layout.size),
    }
}

// What is left of the room for objects of one sort after an object.
fn left_behind(structs: &Structs, sort: Sort, room: u32, object: &Object) -> Option<u32>
    ensures { result ≡ pure.left_behind (view_structs structs.now) (view_sort sort) room
        (view_object object.now) }
{
    if counts(sort, object.home) {
        left_by(structs.layout_of(&object.ctype.base), room)
    } else {
        Some(room)
    }
}

// The first declaration whose objects of one sort have, with all before it, more bytes than there is room for.
fn first_over(structs: &Structs, sort: Sort, most: u32, objects: &[Object]) -> Option<Place>
    ensures { result ≡ pure.first_over (view_structs structs.now) (view_sort sort) most (map
        view_object objects.now) }
{
    let mut room = most;
    for object in objects {
        match left_behind(structs, sort, room, object) {
            None => return Some(object.place),
            Some(left) => room = left,
        }
    }
    None
}

fn passed_or(limit: u8, at: Option<Place>, later: Option<Passed>) -> Option<Passed>
    ensures { view_passed result ≡ pure.passed_or limit at (view_passed later) }
{
    match at {
        None => later,
        Some(place) => Some(Passed { limit, place }),
    }
}

/// The first limit that is passed, where no typing rule is broken.
pub(crate) fn limit_in(known: &Known, objects: &[Object]) -> Option<Passed>
    ensures { view_passed result ≡ pure.limit_by (view_structs known.now.structs) known.now.above
        (map view_object objects.now) }
{
    let privates = first_over(
        &known.structs,
        Sort::Private,
        limits::PRIVATE_BYTES,
        objects,
    );
    let shareds = first_over(&known.structs, Sort::Shared, limits::SHARED_BYTES, objects);
    passed_or(
        4,
        privates,
        passed_or(5, shareds, passed_or(7, known.above, None)),
    )
}

//! Targets of pointers and elements of arrays.

use crate::ctype::CType;
use crate::stars::Stars;
use std::marker::Model;
use std::rc::Rc;

/// The target of a pointer or the element of an array, with the stars in a row with which it begins, by which two are
/// compared row by row. It is shared by all types that are made of it. Contracts see its type.
#[cycle(types)]
pub struct Target {
    pub(crate) ctype: Rc<CType>,
    // The stars with which its base begins, and the type after them.
    pub(crate) stars: Stars,
    pub(crate) below: Option<Rc<CType>>,
}

impl Model for Target {
    ghost use Rattle.std.specs.Prelude.{IfSome};
    ghost use Rattle.upc_types.specs.Types as types;

    ghost Value = { types.CType };

    ghost use Rattle.upc_types.specs.code.Stored.{type_code};

    ghost coded = { type_code };

    ghost use Rattle.upc_types.specs.View as seen;
    ghost use Rattle.upc_types.specs.code.Depth.{depth};
    ghost use Rattle.upc_types.specs.code.Stars.{BeginsSo};

    ghost view = { λ t. seen.view t.ctype.value };

    ghost invariant = { λ t. IfSome t.below (λ x. BeginsSo t.stars
        (seen.view_base t.ctype.value.base) (seen.view_base x.value.base)) };

    ghost size = { depth };

    ghost use Rattle.std.proofs.Common.{arith};
    ghost use Rattle.upc_types.specs.code.Falls.{ctype_deep, below_deep};

    ghost size_decreases = { λ a h. Prim.grind (arith, ctype_deep, below_deep) };
}

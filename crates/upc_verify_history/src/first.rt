//! What locations begin with.

ghost use Rattle.std.specs.Prelude.{◌≡◌, ◌↔◌, true, false, IsTrue};
ghost use Rattle.upc_values.specs.declared.action.Action.TheVariants as act;
ghost use Rattle.upc_values.specs.Formed.{may_ask};
ghost use Rattle.upc_values.specs.Consistent.{begins};

use memory_history::World;
use upc_values::{Action, Loc, Scalar, SharedPtr};

// Whether a cell at the location takes the value.
fn takes(world: &World, loc: Loc, value: Scalar) -> bool
    ensures { IsTrue result ↔ (may_ask world.now.0 world.now.1 (act.Write false loc value) ≡ true) }
{
    let action = Action::Write {
        strict: false,
        loc,
        value,
    };
    world.is_well_formed(&action)
}

/// What a location begins with: its initial value, else 0, or null by the kind of its cell.
pub fn first_value(world: &World, loc: Loc) -> Scalar
    ensures { result ≡ begins world.now.0 world.now.1 loc }
{
    if let Some(value) = world.beginning().initial(loc) {
        return value;
    }
    if takes(world, loc, Scalar::Shared(SharedPtr::NULL)) {
        return Scalar::Shared(SharedPtr::NULL);
    }
    if takes(world, loc, Scalar::Lock(0)) {
        return Scalar::Lock(0);
    }
    Scalar::Int(0)
}

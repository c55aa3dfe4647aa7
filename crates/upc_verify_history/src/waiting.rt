//! Whether what a thread waits for has a reply.

ghost use Rattle.std.specs.Prelude.{◌≡◌, ◌<◌, true, is_some};
ghost use Rattle.upc_values.specs.History.{reply};
ghost use Rattle.upc_values.specs.Strands.{may_wait};

use memory_history::World;
use upc_values::Action;

/// Whether a Lock or a Wait has a lawful reply now. A lock that is not made has one.
pub fn has_reply(world: &World, thread: u32, action: &Action) -> bool
    requires below { thread < world.now.0.threads }
    requires waits { may_wait action.now ≡ true }
    ensures { result ≡ is_some (reply world.now.0 world.now.1 thread action.now) }
{
    world.keeps();
    !world.is_well_formed(action) || world.is_legal(thread, action)
}

//! How code leaves a statement before its end.

ghost use Rattle.std.specs.Prelude.{◌≡◌, ◌+◌, IfOk};
ghost use Rattle.gen_stmt.specs.layer.Ways as pure;
ghost use Rattle.gen_stmt.specs.code.Views.{view_exit, view_exits};

use upc_text::OutOfMemory;

/// A way out of a statement: how many blocks are left on it, and how many instructions after the statement it passes.
#[derive(Clone, Copy)]
pub(crate) struct Exit {
    pub blocks: usize,
    pub distance: usize,
}

/// The ways out of a statement that are not its end: of `break`, of `continue`, and how many blocks of its call a
/// `return` leaves.
#[derive(Clone, Copy)]
pub(crate) struct Exits {
    pub broken: Exit,
    pub again: Exit,
    pub blocks: usize,
}

/// A sum, if it fits.
pub(crate) fn sum(a: usize, b: usize) -> Result<usize, OutOfMemory>
    ensures { IfOk result (λ n. n ≡ a + b) }
{
    a.checked_add(b).ok_or(OutOfMemory)
}

// To the end of the statement.
fn to_end() -> Exit
    ensures { view_exit result ≡ pure.way 0 0 }
{
    Exit {
        blocks: 0,
        distance: 0,
    }
}

// The same way from so many instructions before.
fn past(passed: usize, exit: Exit) -> Result<Exit, OutOfMemory>
    ensures { IfOk result (λ w. view_exit w ≡ pure.past passed (view_exit exit)) }
{
    let distance = sum(passed, exit.distance)?;
    Ok(Exit {
        blocks: exit.blocks,
        distance,
    })
}

// The same way from inside one more block.
fn inner(exit: Exit) -> Result<Exit, OutOfMemory>
    ensures { IfOk result (λ w. view_exit w ≡ pure.inner (view_exit exit)) }
{
    let blocks = sum(exit.blocks, 1)?;
    let distance = sum(1, exit.distance)?;
    Ok(Exit { blocks, distance })
}

/// From so many instructions before.
pub(crate) fn all_past(passed: usize, exits: Exits) -> Result<Exits, OutOfMemory>
    ensures { IfOk result (λ x. view_exits x ≡ pure.all_past passed (view_exits exits)) }
{
    let broken = past(passed, exits.broken)?;
    let again = past(passed, exits.again)?;
    Ok(Exits {
        broken,
        again,
        blocks: exits.blocks,
    })
}

/// From inside one more block.
pub(crate) fn all_inner(exits: Exits) -> Result<Exits, OutOfMemory>
    ensures { IfOk result (λ x. view_exits x ≡ pure.all_inner (view_exits exits)) }
{
    let broken = inner(exits.broken)?;
    let again = inner(exits.again)?;
    let blocks = sum(exits.blocks, 1)?;
    Ok(Exits {
        broken,
        again,
        blocks,
    })
}

/// In the body of a loop, after which so many instructions stand before the jump back.
pub(crate) fn in_loop(last: usize, exits: Exits) -> Result<Exits, OutOfMemory>
    ensures { IfOk result (λ x. view_exits x ≡ pure.in_loop last (view_exits exits)) }
{
    let distance = sum(last, 1)?;
    let again = to_end();
    Ok(Exits {
        broken: Exit {
            blocks: 0,
            distance,
        },
        again,
        blocks: exits.blocks,
    })
}

/// In the body of a switch.
pub(crate) fn in_switch(exits: Exits) -> Exits
    ensures { view_exits result ≡ pure.in_switch (view_exits exits) }
{
    let broken = to_end();
    Exits {
        broken,
        again: exits.again,
        blocks: exits.blocks,
    }
}

/// In the body of a upc_forall.
pub(crate) fn in_forall(exits: Exits) -> Exits
    ensures { view_exits result ≡ pure.in_forall (view_exits exits) }
{
    Exits {
        broken: to_end(),
        again: to_end(),
        blocks: exits.blocks,
    }
}

/// In a function, where so many blocks are open.
pub(crate) fn in_function(blocks: usize) -> Exits
    ensures { view_exits result ≡ pure.in_function blocks }
{
    Exits {
        broken: to_end(),
        again: to_end(),
        blocks,
    }
}

//! Items one after the other.

ghost use Rattle.upc_parser_ground.specs.layer.Ahead.{shows};
ghost use Rattle.upc_parser_ground.specs.layer.Run.{Ran};

use crate::ahead::{Ahead, shows};
use crate::cursor::{Fail, Tokens};
use std::alloc::Global;

/// The items that there are while the tokens go on so.
pub fn many<T: Drop, P: Fn(&mut Tokens<'_>) -> Result<T, Fail>>(
    alloc: Global,
    tokens: &mut Tokens<'_>,
    ahead: Ahead,
    item: P,
) -> Result<Vec<T>, Fail>
    requires { P.IsAlwaysCallable item }
    ensures { Ran (shows ahead) (P.post item) tokens.old.rest.now result tokens.new.rest.now }
{
    let mut found = Vec::new(alloc);
    for _turn in 0..tokens.rest.len() {
        if !shows(ahead, tokens.rest) {
            return Ok(found);
        }
        let part = item(tokens)?;
        found.push(part)?;
    }
    Ok(found)
}

//! Where nodes are finished.

ghost use Rattle.std.specs.Prelude.{◌≡◌, None, OnOk, IfErr};
ghost use Rattle.upc_checker_scopes.specs.layer.Finishes.{Refuses};

use upc_text::{Code, Place, Refusal, Stop};

/// Refuses where a rule is broken.
pub fn judged(rule: Option<u8>, at: Place) -> Result<(), Stop>
    ensures ok { OnOk result (rule ≡ None) }
    ensures err { IfErr result (Refuses rule at) }
{
    match rule {
        None => Ok(()),
        Some(rule) => Err(Stop::Refused(Refusal {
            place: at,
            code: Code::Typing(rule),
        })),
    }
}

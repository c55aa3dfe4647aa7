//! What stands around a statement in its function.

ghost use Rattle.std.specs.Prelude.{◌≡◌};
ghost use Rattle.affinity_checker.specs.layer.Rules as pure;

use upc_text::{Code, Place, Refusal};

/// What stands around a statement in its function.
#[derive(Clone, Copy, PartialEq, Eq, Debug)]
pub struct Around {
    /// A loop, of which `upc_forall` is one.
    pub looped: bool,
    /// A `switch`.
    pub switched: bool,
    /// A `upc_forall`.
    pub shared: bool,
    /// A loop or a `switch` inside the innermost `upc_forall`.
    pub inside: bool,
}

/// Nothing stands around the body of a function.
pub const NOTHING: Around = Around {
    looped: false,
    switched: false,
    shared: false,
    inside: false,
};

impl Around {
    // Around the body of a `while`, `do` or `for`.
    pub fn in_loop(self) -> Around
        ensures { result ≡ pure.in_loop self }
    {
        Around {
            looped: true,
            switched: self.switched,
            shared: self.shared,
            inside: true,
        }
    }

    // Around the body of a `switch`.
    pub fn in_switch(self) -> Around
        ensures { result ≡ pure.in_switch self }
    {
        Around {
            looped: self.looped,
            switched: true,
            shared: self.shared,
            inside: true,
        }
    }

    // Around the body of a `upc_forall`.
    pub fn in_forall(self) -> Around
        ensures { result ≡ pure.in_forall self }
    {
        Around {
            looped: true,
            switched: self.switched,
            shared: true,
            inside: false,
        }
    }

    // The lowest rule that a `break` breaks here.
    pub fn at_break(self, place: Place) -> Option<Refusal>
        ensures { result ≡ pure.first (pure.at_break self place) }
    {
        if !self.looped && !self.switched {
            return refused(place, 23);
        }
        if self.shared && !self.inside {
            return refused(place, 24);
        }
        None
    }

    // The lowest rule that a `continue` breaks here.
    pub fn at_continue(self, place: Place) -> Option<Refusal>
        ensures { result ≡ pure.first (pure.at_continue self place) }
    {
        if self.looped {
            None
        } else {
            refused(place, 23)
        }
    }

    // The lowest rule that a `return` breaks here.
    pub fn at_return(self, place: Place) -> Option<Refusal>
        ensures { result ≡ pure.first (pure.at_return self place) }
    {
        if self.shared {
            refused(place, 24)
        } else {
            None
        }
    }
}

fn refused(place: Place, rule: u8) -> Option<Refusal>
    ensures { result ≡ pure.first (pure.refused place rule) }
{
    Some(Refusal {
        place,
        code: Code::Typing(rule),
    })
}

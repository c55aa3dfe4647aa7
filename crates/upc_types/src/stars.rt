//! Stars in a row.

ghost use Rattle.std.specs.Prelude.{◌≡◌};

use crate::ctype::{Access, CType};
use crate::same::{same_access, same_block};

/// Stars in a row whose targets have the same qualifiers: how many, and these.
#[derive(Clone, Copy)]
pub(crate) struct Stars {
    pub count: u32,
    pub constant: bool,
    pub shared: Option<u32>,
    pub access: Access,
}

impl Stars {
    ghost use Rattle.std.specs.Prelude.{◌≡◌, ◌+◌, IfSome, IsTrue};
    ghost use Rattle.upc_types.specs.code.Stars.{IsStarTo, one_more};

    /// No star.
    pub(crate) fn none() -> Stars {
        Stars {
            count: 0,
            constant: false,
            shared: None,
            access: Access::Unsaid,
        }
    }

    /// The star that points to this target.
    pub(crate) fn one(target: &CType) -> Stars
        ensures count { result.count ≡ 1 }
        ensures star { IsStarTo result target.now.constant target.now.shared target.now.access }
    {
        Stars {
            count: 1,
            constant: target.constant,
            shared: target.shared,
            access: target.access,
        }
    }

    // Whether the target of each has the qualifiers of this one.
    #[tactic(auto, using(crate::proofs::Equal::block_is, crate::proofs::Equal::access_is))]
    fn are_to(self, target: &CType) -> bool
        ensures { IsTrue result → IsStarTo self target.now.constant target.now.shared target.now.access }
    {
        self.constant == target.constant
            && same_block(self.shared, target.shared)
            && same_access(self.access, target.access)
    }

    /// One more, which points to this target, before the others; None where it has other qualifiers.
    pub(crate) fn before(self, target: &CType) -> Option<Stars>
        ensures more { IfSome result (λ s. s ≡ one_more self) }
        ensures star { IfSome result (λ s. IsStarTo self target.now.constant target.now.shared target.now.access) }
    {
        if !self.are_to(target) {
            return None;
        }
        let count = self.count.checked_add(1)?;
        Some(Stars { count, ..self })
    }

    /// Whether both are the same stars.
    #[tactic(auto, using(crate::proofs::Equal::block_is, crate::proofs::Equal::access_is))]
    pub(crate) fn same(self, other: Stars) -> bool
        ensures count { IsTrue result → self.count ≡ other.count }
        ensures quals { IsTrue result → IsStarTo self other.constant other.shared other.access }
    {
        self.count == other.count
            && self.constant == other.constant
            && same_block(self.shared, other.shared)
            && same_access(self.access, other.access)
    }
}

//! What is done with targets of pointers and elements of arrays.

use crate::ctype::{Base, CType};
use crate::stars::Stars;
use crate::target::Target;
use std::alloc::{AllocError as OutOfMemory, Global};
use std::ops::Deref;
use std::rc::Rc;

impl Deref for Target {
    ghost use Rattle.std.specs.Prelude.{◌≡◌};
    ghost use Rattle.upc_types.specs.View.{view};

    type Target = CType;

    ghost deref_gives = { λ t x. view x ≡ t };

    fn deref(&self) -> &CType
        ensures { view result.now ≡ self.now }
    {
        &self.ctype
    }
}

impl Target {
    ghost use Rattle.std.specs.Prelude.{◌≡◌, ◌≤◌, IfOk, IfSome};
    ghost use Rattle.upc_types.specs.Same.{same_base};
    ghost use Rattle.upc_types.specs.Types.{Pointer, base_of};
    ghost use Rattle.upc_types.specs.View.{view, view_base};
    ghost use Rattle.upc_types.specs.code.Depth.{depth, base_depth};
    ghost use Rattle.upc_types.specs.code.Stars.{BeginsSo};

    /// A target of this type.
    pub fn new(alloc: Global, ctype: CType) -> Result<Target, OutOfMemory>
        ensures { IfOk result (λ t. t ≡ view ctype) }
    {
        Target::of(Rc::new(alloc, ctype)?)
    }

    /// A target of a type that others may have too.
    pub fn of(ctype: Rc<CType>) -> Result<Target, OutOfMemory>
        ensures { IfOk result (λ t. t ≡ view ctype.value) }
    {
        let (stars, below) = match &ctype.base {
            Base::Pointer(next) => next.with_itself()?,
            _ => (Stars::none(), None),
        };
        Ok(Target {
            ctype,
            stars,
            below,
        })
    }

    // The stars with which a pointer to this begins, and the type after them.
    fn with_itself(&self) -> Result<(Stars, Option<Rc<CType>>), OutOfMemory>
        ensures { IfOk result (λ p. IfSome p.1 (λ x. BeginsSo p.0 (Pointer self.now) (view_base x.value.base))) }
    {
        if let Some(below) = &self.below
            && let Some(stars) = self.stars.before(&self.ctype)
        {
            return Ok((stars, Some(below.clone()?)));
        }
        Ok((Stars::one(&self.ctype), Some(self.ctype.clone()?)))
    }

    /// The same target once more.
    pub fn copy(&self) -> Result<Target, OutOfMemory>
        ensures { IfOk result (λ t. t ≡ self.now) }
    {
        let below = match &self.below {
            Some(below) => Some(below.clone()?),
            None => None,
        };
        Ok(Target {
            ctype: self.ctype.clone()?,
            stars: self.stars,
            below,
        })
    }

    /// The type itself.
    #[cycle(types)]
    pub(crate) fn into_type(self) -> Rc<CType>
        ensures { view result.value ≡ self }
    {
        let Target {
            ctype,
            stars: _,
            below: _below,
        } = self;
        ctype
    }

    /// Two types that are equal exactly where the bases of these targets are: as many stars further on as both begin
    /// with.
    pub(crate) fn after_same<'a, 'b>(s: &'a Target, t: &'b Target) -> (&'a Base, &'b Base)
        ensures same { same_base (view_base result.0.now) (view_base result.1.now)
            ≡ same_base (base_of s.now) (base_of t.now) }
        ensures falls { base_depth (view_base result.0.now) ≤ depth s.now }
    {
        if let Some(a) = &s.below
            && let Some(b) = &t.below
            && s.stars.same(t.stars)
        {
            return (&a.base, &b.base);
        }
        (&s.ctype.base, &t.ctype.base)
    }
}

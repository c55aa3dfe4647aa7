//! Structs that are made alike.

ghost use Rattle.std.specs.Prelude.{◌≡◌, true, IsTrue};
ghost use Rattle.upc_types.specs.Cells.{struct_cells};
ghost use Rattle.upc_types.specs.Layout.{complete_in, layout_in};
ghost use Rattle.upc_types.specs.View.{view_base};
ghost use Rattle.upc_types.specs.ViewStructs.{view_structs};
ghost use Rattle.upc_types.specs.code.MadeOf.{part, parts};

use crate::codes::kind_number;
use crate::ctype::Base;
use crate::shape::leaf_of;
use crate::structs::{Member, Structs};
use block_layout::Kind;
use std::hash::{DefaultHasher, Hasher};

// What a kind adds to a code.
fn write_kind(hasher: &mut DefaultHasher, kind: Kind) {
    match kind {
        Kind::Shared(number, block) => {
            hasher.write_u64(u64::from(number));
            hasher.write_u64(u64::from(block));
        }
        Kind::Private(number) => hasher.write_u64(u64::from(number)),
        _ => hasher.write_u64(u64::from(kind_number(kind))),
    }
}

impl Structs {
    // Whether two objects have the same layout, as many leaf elements and cells of the same kinds at the same places,
    // as far as their types show it.
    #[tactic(auto, using(crate::proofs::MadeAlike::pointer_part, crate::proofs::MadeAlike::array_part, crate::proofs::MadeAlike::struct_part))]
    fn same_part(&self, a: &Base, b: &Base) -> bool
        ensures { IsTrue result → part (view_structs self.now) (view_base a.now)
            ≡ part (view_structs self.now) (view_base b.now) }
    {
        match (a, b) {
            (Base::Integer(k), Base::Integer(l)) => k.is(*l),
            (Base::Struct(m), Base::Struct(n)) => self.like(*m) == self.like(*n),
            (Base::Pointer(s), Base::Pointer(t)) => self.pointer_kind(s).is(self.pointer_kind(t)),
            (Base::Array(s, m), Base::Array(t, n)) => {
                *m == *n && self.same_part(&s.base, &t.base)
            }
            _ => false,
        }
    }

    // Whether the members of two structs are so, one by one.
    #[tactic(auto, using(crate::proofs::MadeAlike::parts_from, crate::proofs::MadeAlike::parts_end))]
    fn same_parts(&self, a: &[Member], b: &[Member]) -> bool
        ensures { IsTrue result → parts (view_structs self.now) a.now ≡ parts (view_structs self.now) b.now }
    {
        if a.len() != b.len() {
            return false;
        }
        for i in 0..a.len() {
            if !self.same_part(&a[i].ctype.base, &b[i].ctype.base) {
                return false;
            }
        }
        true
    }

    // Whether two complete structs have the same layout and the same cells, as far as their members show it.
    #[tactic(auto, using(crate::proofs::MadeAlike::alike_layout, crate::proofs::MadeAlike::alike_cells))]
    pub(crate) fn are_alike(&self, number: u32, other: u32) -> bool
        requires number { complete_in (view_structs self.now).completed number ≡ true }
        requires other { complete_in (view_structs self.now).completed other ≡ true }
        ensures layout { IsTrue result → layout_in (view_structs self.now).completed other
            ≡ layout_in (view_structs self.now).completed number }
        ensures cells { IsTrue result
            → struct_cells (view_structs self.now).targets (view_structs self.now).completed other
            ≡ struct_cells (view_structs self.now).targets (view_structs self.now).completed number }
    {
        self.same_parts(self.members(number), self.members(other))
    }

    // Adds to a code how many bytes an object has, and what its leaf elements are.
    fn write_part(&self, hasher: &mut DefaultHasher, base: &Base) {
        if let Some(layout) = self.layout_of(base) {
            hasher.write_u64(u64::from(layout.size));
        }
        match leaf_of(base) {
            Base::Integer(kind) => write_kind(hasher, *kind),
            Base::Struct(number) => hasher.write_u64(u64::from(self.like(*number))),
            Base::Pointer(target) => write_kind(hasher, self.pointer_kind(target)),
            Base::Void | Base::Array(_, _) | Base::LockObject => {}
        }
    }

    // A code of the members of a struct, the same for structs that are made alike, and seldom for others.
    pub(crate) fn members_code(&self, number: u32) -> u64 {
        let mut hasher = DefaultHasher::new();
        for member in self.members(number) {
            self.write_part(&mut hasher, &member.ctype.base);
        }
        hasher.finish()
    }
}

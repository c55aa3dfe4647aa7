//! The structs of a program (C99 6.7.2.1).

ghost use Rattle.std.specs.Prelude.{◌≡◌, ℕ, ◌<◌, ◌≤◌, None, OnOk, get_or, map, reverse, vec_len};
ghost use Rattle.upc_types.specs.Cells.{struct_cells};
ghost use Rattle.upc_types.specs.Layout.{layout_in};
ghost use Rattle.upc_types.specs.View.{view, view_completed};
ghost use Rattle.upc_types.specs.layer.Kept.{IsKept};
ghost use Rattle.upc_types.specs.code.KeptCells.{AreHeld};
ghost use Rattle.upc_types.specs.code.Made.{AreMade};

use crate::ctype::{Base, CType};
use crate::layout::{
    Known, Layout, MOST_BYTES, aligned, finished, many, pointer_size, scalar, wider,
};
use crate::member_names::first_members;
use crate::shape::leaf_of;
use crate::targets::Targets;
use block_layout::{Cells, Kind};
use std::alloc::Global;
use std::collections::BTreeMap;
use upc_text::{OutOfMemory, Text};

/// A member of a struct.
#[derive(Drop)]
pub struct Member {
    pub name: Text,
    pub ctype: CType,
}

/// A struct with its members in order.
#[derive(Drop)]
pub struct Completed {
    pub number: u32,
    pub members: Vec<Member>,
    /// How many structs lie in one another in it: 0 where it holds none, 4,294,967,295 where there are more.
    pub depth: u32,
    // Where each member begins.
    starts: Vec<u32>,
    // Where the members end.
    end: u32,
    // The first member of each name.
    names: BTreeMap<Vec<u8>, u32>,
}

// Where the members of a struct begin, and where they end.
#[derive(Drop)]
struct Spots {
    starts: Vec<u32>,
    end: u32,
}

/// What is held of a struct: its cells, or another struct with the same layout and cells, of which they are held.
#[derive(Drop)]
enum Held {
    Own(Cells),
    Like(u32),
}

/// What the numbers in types and in kinds stand for: structs, and targets of pointers.
#[derive(Drop)]
pub struct Structs {
    declared: u32,
    known: Vec<Option<Known>>,
    completed: Vec<Completed>,
    targets: Targets,
    // What is held of structs, by their numbers.
    cells: Vec<Option<Held>>,
    ghost kept: { IsKept (reverse (map view_completed completed.items)) known.items },
    ghost made: { AreMade (reverse completed.items) },
    ghost held: { AreHeld (layout_in (reverse (map view_completed completed.items)))
        (struct_cells (map view targets.list.items) (reverse (map view_completed completed.items)))
        cells.items },
}

// Makes room for what the list has of the struct with this number.
fn make_room<X: Drop>(list: &mut Vec<Option<X>>, number: u32) -> Result<(), OutOfMemory>
    ensures room { OnOk result (number < vec_len list.new) }
    ensures same { (n : ℕ) → get_or list.new.items n None ≡ get_or list.old.items n None }
{
    while list.len() <= number as usize {
        list.push(None)?;
    }
    Ok(())
}

// Where a member begins, and where the members end if there is no such one.
fn start_or(starts: &[u32], end: u32, member: u32) -> u32
    ensures { result ≡ get_or starts.now member end }
{
    match starts.get(member as usize) {
        Some(start) => *start,
        None => end,
    }
}

impl Structs {
    ghost use Rattle.std.specs.Prelude.{◌≡◌, ◌<◌, ◌∷◌, ◌+◌, [], true, IfOk, OnOk, OnErr, IfSome, Some, None, length};
    ghost use Rattle.std.specs.Prelude.{map, is_some};
    ghost use Rattle.upc_types.specs.Cells.{IsItsOwn, number_of, pointer_kind, struct_cells, with_target};
    ghost use Rattle.upc_types.specs.Layout.{base_within, members_within, known_in, base_complete, base_layout};
    ghost use Rattle.upc_types.specs.Layout.{complete_in, layout_in, most_bytes};
    ghost use Rattle.upc_types.specs.layer.Parts.{is_private_target, private_in};
    ghost use Rattle.upc_types.specs.Layout.{base_holds_private, members_hold_private, member_offset};
    ghost use Rattle.upc_types.specs.layer.Kept.{IsFine};
    ghost use Rattle.upc_types.specs.Layout.{end_behind, member_layouts};
    ghost use Rattle.upc_types.specs.code.KeptCells.{IsHeld};
    ghost use Rattle.upc_types.specs.code.Made.{IsMade};
    ghost use Rattle.upc_types.specs.layer.Named.{first_named};
    ghost use Rattle.upc_types.specs.code.Starts.{starts_behind};
    ghost use Rattle.upc_types.specs.Types as pure;
    ghost use Rattle.upc_types.specs.Types.{with_members, members_of};
    ghost use Rattle.upc_types.specs.View.{view, view_base, view_member};
    ghost use Rattle.upc_types.specs.ViewStructs.{view_structs};

    /// No struct.
    pub fn new(alloc: Global) -> Structs
        ensures { view_structs result ≡ record { declared = 0; completed = []; targets = [] } }
    {
        Structs {
            declared: 0,
            known: Vec::new(alloc),
            completed: Vec::new(alloc),
            targets: Targets::new(alloc),
            cells: Vec::new(alloc),
        }
    }

    /// One more struct; answers its number. After want of memory nothing is changed.
    pub fn declare(&mut self) -> Result<u32, OutOfMemory>
        ensures number { IfOk result (λ n. n ≡ (view_structs self.old).declared) }
        ensures ok { OnOk result (view_structs self.new
            ≡ record (view_structs self.old) { declared = (view_structs self.old).declared + 1 }) }
        ensures err { OnErr result (view_structs self.new ≡ view_structs self.old) }
    {
        let number = self.declared;
        self.declared = number.checked_add(1).ok_or(OutOfMemory)?;
        Ok(number)
    }

    /// How many structs there are.
    pub fn declared(&self) -> u32
        ensures { result ≡ (view_structs self.now).declared }
    {
        self.declared
    }

    /// The layout of a type, None where it is incomplete or has more bytes than an object can have. Takes no memory.
    pub fn layout_of(&self, base: &Base) -> Option<Layout>
        ensures value { result ≡ base_within (view_structs self.now).completed (view_base base.now) }
        ensures fine { IfSome result IsFine }
    {
        match base {
            Base::Void | Base::LockObject => None,
            Base::Integer(kind) => Some(scalar(kind.size())),
            Base::Struct(number) => self.struct_layout(*number),
            Base::Array(element, count) => many(self.layout_of(&element.base), *count),
            Base::Pointer(target) => Some(scalar(pointer_size(&target.base, target.shared))),
        }
    }

    // The layout of a complete type.
    pub fn whole_layout(&self, base: &Base) -> Layout
        requires complete { base_complete (complete_in (view_structs self.now).completed) (view_base base.now) ≡ true }
        requires few { (base_layout (layout_in (view_structs self.now).completed)
            (view_base base.now)).size ≤ most_bytes }
        ensures value { result ≡ base_layout (layout_in (view_structs self.now).completed) (view_base base.now) }
        ensures fine { IsFine result }
    {
        match self.layout_of(base) {
            Some(layout) => layout,
            None => unreachable!(),
        }
    }

    // What is known of a struct, None where it is incomplete.
    fn known_of(&self, number: u32) -> Option<Known>
        ensures { result ≡ known_in (view_structs self.now).completed number }
    {
        match self.known.get(number as usize) {
            Some(known) => *known,
            None => None,
        }
    }

    // The layout of a struct, None where it is incomplete.
    fn struct_layout(&self, number: u32) -> Option<Layout>
        ensures value { result ≡ base_within (view_structs self.now).completed (pure.Struct number) }
        ensures fine { IfSome result IsFine }
    {
        match self.known_of(number) {
            Some(known) => Some(known.layout),
            None => None,
        }
    }

    /// The layout of a struct with these members, None where one is incomplete or there are more bytes than an object
    /// can have. Takes no memory.
    pub fn members_layout(&self, members: &[Member]) -> Option<Layout>
        ensures value { result ≡ members_within (view_structs self.now).completed (map view_member members.now) }
        ensures fine { 0 < length members.now → IfSome result IsFine }
    {
        let mut end = 0;
        let mut align = 1;
        for member in members {
            let part = self.layout_of(&member.ctype.base)?;
            end = aligned(end, part.align) + part.size;
            if end > MOST_BYTES {
                return None;
            }
            align = wider(align, part.align);
        }
        finished(end, align)
    }

    // Whether a pointer to this target leads to a private object.
    fn is_private_target(target: &CType) -> bool
        ensures { result ≡ is_private_target (view target.now) }
    {
        target.shared.is_none() && !matches!(target.base, Base::LockObject)
    }

    // Whether an object of a struct holds a pointer to a private object.
    fn struct_holds_private(&self, number: u32) -> bool
        ensures { result ≡ private_in (view_structs self.now).completed number }
    {
        match self.known_of(number) {
            Some(known) => known.holds_private,
            None => false,
        }
    }

    /// Whether an object of a type holds a pointer to a private object, itself, in a member or in an element. Takes no
    /// memory.
    pub fn holds_private(&self, base: &Base) -> bool
        ensures { result ≡ base_holds_private (private_in (view_structs self.now).completed) (view_base base.now) }
    {
        match base {
            Base::Pointer(target) => Structs::is_private_target(target),
            Base::Struct(number) => self.struct_holds_private(*number),
            Base::Array(element, _) => self.holds_private(&element.base),
            _ => false,
        }
    }

    // How many structs lie in one another in an object of this type, itself the first.
    pub(crate) fn depth_of(&self, base: &Base) -> u32 {
        let Base::Struct(number) = leaf_of(base) else {
            return 0;
        };
        match self.completed_by(*number) {
            Some(completed) => completed.depth.saturating_add(1),
            None => 0,
        }
    }

    // The greatest depth of an object among these members.
    fn depth_among(&self, members: &[Member]) -> u32 {
        let mut depth = 0;
        for member in members {
            depth = depth.max(self.depth_of(&member.ctype.base));
        }
        depth
    }

    // Which of the complete structs, in the order of completion, are the leaf elements of this object or lie in them.
    pub(crate) fn structs_inside(
        &self,
        alloc: Global,
        base: &Base,
    ) -> Result<Vec<bool>, OutOfMemory> {
        let mut inside = vec![in alloc; false; self.completed.len()]?;
        self.mark(&mut inside, base);
        for place in (0..self.completed.len()).rev() {
            if inside.get(place).copied().unwrap_or(false) {
                self.mark_members(&mut inside, self.completed[place].members.as_slice());
            }
        }
        Ok(inside)
    }

    // Marks the structs that are the leaf elements of these members.
    fn mark_members(&self, inside: &mut Vec<bool>, members: &[Member]) {
        for member in members {
            self.mark(inside, &member.ctype.base);
        }
    }

    // Marks the struct that is the leaf element of this object.
    fn mark(&self, inside: &mut Vec<bool>, base: &Base) {
        if let Base::Struct(number) = leaf_of(base)
            && let Some(known) = self.known_of(*number)
            && known.place < inside.len()
        {
            inside[known.place] = true;
        }
    }

    // The complete structs in the order of completion.
    pub(crate) fn completed(&self) -> &[Completed] {
        self.completed.as_slice()
    }

    // A struct that is complete.
    fn completed_by(&self, number: u32) -> Option<&Completed>
        ensures known { is_some result ≡ complete_in (view_structs self.now).completed number }
        ensures made { IfSome result (λ x. IsMade (view_structs self.now).completed x.now
            (members_of (view_structs self.now) number)) }
    {
        match self.known_of(number) {
            Some(known) => Some(&self.completed[known.place]),
            None => None,
        }
    }

    // What is held of a struct.
    fn held_of(&self, number: u32) -> Option<&Held>
        ensures { IfSome result (λ held. IsHeld (layout_in (view_structs self.now).completed)
            (struct_cells (view_structs self.now).targets (view_structs self.now).completed) number held.now) }
    {
        match self.cells.get(number as usize) {
            Some(Some(held)) => Some(held),
            _ => None,
        }
    }

    /// A struct with the same layout and the same cells: one for many that are made alike, after `hold_cells`.
    pub fn like(&self, number: u32) -> u32
        ensures layout { layout_in (view_structs self.now).completed result
            ≡ layout_in (view_structs self.now).completed number }
        ensures cells { struct_cells (view_structs self.now).targets (view_structs self.now).completed result
            ≡ struct_cells (view_structs self.now).targets (view_structs self.now).completed number }
    {
        match self.held_of(number) {
            Some(Held::Like(other)) => *other,
            _ => number,
        }
    }

    // The cells of a struct, where they are held.
    pub(crate) fn held(&self, number: u32) -> Option<&Cells>
        ensures { IfSome result (λ cells. cells.now ≡ struct_cells (view_structs self.now).targets
            (view_structs self.now).completed number) }
    {
        match self.held_of(self.like(number)) {
            Some(Held::Own(cells)) => Some(cells),
            _ => None,
        }
    }

    // Holds the cells of a struct.
    pub(crate) fn hold(&mut self, number: u32, cells: Cells) -> Result<(), OutOfMemory>
        requires cells { cells ≡ struct_cells (view_structs self.old).targets
            (view_structs self.old).completed number }
        ensures { view_structs self.new ≡ view_structs self.old }
    {
        make_room(&mut self.cells, number)?;
        self.cells[number as usize] = Some(Held::Own(cells));
        Ok(())
    }

    // Holds that another struct has the same layout and the same cells.
    pub(crate) fn hold_like(&mut self, number: u32, other: u32) -> Result<(), OutOfMemory>
        requires layout { layout_in (view_structs self.old).completed other
            ≡ layout_in (view_structs self.old).completed number }
        requires cells { struct_cells (view_structs self.old).targets (view_structs self.old).completed other
            ≡ struct_cells (view_structs self.old).targets (view_structs self.old).completed number }
        ensures { view_structs self.new ≡ view_structs self.old }
    {
        make_room(&mut self.cells, number)?;
        self.cells[number as usize] = Some(Held::Like(other));
        Ok(())
    }

    // Whether one of these members holds a pointer to a private object.
    fn members_hold_private(&self, members: &[Member]) -> bool
        ensures { result ≡ members_hold_private (private_in (view_structs self.now).completed)
            (map view_member members.now) }
    {
        for member in members {
            if self.holds_private(&member.ctype.base) {
                return true;
            }
        }
        false
    }

    // Where members begin and end in their struct.
    fn spots_of(&self, alloc: Global, members: &[Member]) -> Result<Spots, OutOfMemory>
        requires fit { is_some (members_within (view_structs self.now).completed
            (map view_member members.now)) ≡ true }
        ensures starts { IfOk result (λ x. x.starts.items
            ≡ starts_behind 0 (member_layouts (layout_in (view_structs self.now).completed)
            (map view_member members.now))) }
        ensures end { IfOk result (λ x. x.end
            ≡ end_behind 0 (member_layouts (layout_in (view_structs self.now).completed)
            (map view_member members.now))) }
    {
        let mut starts = Vec::new(alloc);
        let mut end = 0;
        for member in members {
            let layout = self.whole_layout(&member.ctype.base);
            let start = aligned(end, layout.align);
            starts.push(start)?;
            end = start + layout.size;
        }
        Ok(Spots { starts, end })
    }

    // A struct with what is kept of it.
    fn made(&self, number: u32, members: Vec<Member>) -> Result<Completed, OutOfMemory>
        requires fit { is_some (members_within (view_structs self.now).completed
            (map view_member members.items)) ≡ true }
        ensures number { IfOk result (λ x. x.number ≡ number) }
        ensures members { IfOk result (λ x. map view_member x.members.items ≡ map view_member members.items) }
        ensures made { IfOk result (λ x. IsMade (view_structs self.now).completed x
            (map view_member members.items)) }
    {
        let alloc = *members.allocator();
        let depth = self.depth_among(members.as_slice());
        let spots = self.spots_of(alloc, members.as_slice())?;
        let names = first_members(alloc, members.as_slice())?;
        Ok(Completed {
            number,
            members,
            depth,
            starts: spots.starts,
            end: spots.end,
            names,
        })
    }

    /// Completes a struct. After want of memory nothing is changed.
    pub fn complete(
        &mut self,
        number: u32,
        members: Vec<Member>,
        layout: Layout,
    ) -> Result<(), OutOfMemory>
        requires incomplete { known_in (view_structs self.old).completed number ≡ None }
        requires layout { members_within (view_structs self.old).completed
            (map view_member members.items) ≡ Some layout }
        requires fine { IsFine layout }
        ensures ok { OnOk result (view_structs self.new
            ≡ with_members (view_structs self.old) number (map view_member members.items)) }
        ensures err { OnErr result (view_structs self.new ≡ view_structs self.old) }
    {
        let holds_private = self.members_hold_private(members.as_slice());
        let completed = self.made(number, members)?;
        self.completed.reserve(1)?;
        make_room(&mut self.known, number)?;
        let place = self.completed.len();
        self.cells.clear();
        self.completed.push(completed)?;
        self.known[number as usize] = Some(Known {
            place,
            layout,
            holds_private,
        });
        Ok(())
    }

    /// The members of a struct, none where it is incomplete or was not declared.
    pub fn members(&self, number: u32) -> &[Member]
        ensures { map view_member result.now ≡ members_of (view_structs self.now) number }
    {
        match self.known_of(number) {
            Some(known) => self.completed[known.place].members.as_slice(),
            None => &[],
        }
    }

    /// The offset in bytes of the member with this number, from 0, in a complete struct (C99 6.7.2.1); where the
    /// members end, if it has no such member. Takes no memory.
    pub fn member_offset(&self, number: u32, member: u32) -> u32
        requires complete { complete_in (view_structs self.now).completed number ≡ true }
        ensures value { result ≡ member_offset (view_structs self.now) number member }
        ensures few { result ≤ most_bytes }
    {
        match self.completed_by(number) {
            Some(completed) => start_or(completed.starts.as_slice(), completed.end, member),
            None => unreachable!(),
        }
    }

    /// The number of the first member of a struct with this name, from 0, None where it has none. Takes no memory.
    pub fn member_named(&self, number: u32, name: &[u8]) -> Option<u32>
        ensures { result ≡ first_named (members_of (view_structs self.now) number) name.now }
    {
        match self.completed_by(number) {
            Some(completed) => completed.names.get(name).copied(),
            None => None,
        }
    }

    /// Whether a type is complete (C99 6.2.5). Takes no memory.
    pub fn is_complete(&self, base: &Base) -> bool
        ensures { result ≡ base_complete (complete_in (view_structs self.now).completed) (view_base base.now) }
    {
        match base {
            Base::Void | Base::LockObject => false,
            Base::Integer(_) | Base::Pointer(_) => true,
            Base::Struct(number) => self.known_of(*number).is_some(),
            Base::Array(element, count) => *count > 0 && self.is_complete(&element.base),
        }
    }

    /// The number of the type of a pointer to this target, without its const, strict and relaxed: how many there are
    /// where it has none.
    pub fn number_of(&self, target: &CType) -> u32
        ensures value { result ≡ number_of (view_structs self.now).targets (view target.now) }
        ensures most { result ≤ length (view_structs self.now).targets }
        ensures own { IsItsOwn (view_structs self.now).targets (view target.now) result }
    {
        self.targets.number_of(target)
    }

    /// Gives the type of a pointer to this target a number where it has none; answers the number. After want of memory
    /// nothing is changed.
    pub fn note(&mut self, target: &CType) -> Result<u32, OutOfMemory>
        ensures number { IfOk result (λ n. n ≡ number_of (view_structs self.new).targets (view target.now)) }
        ensures below { IfOk result (λ n. n < length (view_structs self.new).targets) }
        ensures ok { OnOk result (view_structs self.new ≡ with_target (view_structs self.old) (view target.now)) }
        ensures err { OnErr result (view_structs self.new ≡ view_structs self.old) }
    {
        let number = self.targets.number_of(target);
        if (number as usize) < self.targets.len() {
            return Ok(number);
        }
        self.cells.clear();
        self.targets.note(target)
    }

    /// No target of pointers has a number any longer.
    pub fn forget_targets(&mut self)
        ensures { view_structs self.new ≡ record (view_structs self.old) { targets = [] } }
    {
        self.cells.clear();
        self.targets.clear();
    }

    // The kind of a pointer to this target.
    pub fn pointer_kind(&self, target: &CType) -> Kind
        ensures { result ≡ pointer_kind (view_structs self.now).targets (view target.now) }
    {
        match (&target.base, target.shared) {
            (Base::LockObject, _) => Kind::Lock,
            (_, Some(block)) => Kind::Shared(self.number_of(target), block),
            (_, None) => Kind::Private(self.number_of(target)),
        }
    }
}

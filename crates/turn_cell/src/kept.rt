//! What a world has to say of itself.
ghost use Rattle.std.specs.Prelude.{◌≡◌, ℕ, List, length};

/// A value that stands for a list, each of whose members names a number, and for an opening.
pub trait Kept {
    /// A member of the list, plain data.
    type Member;

    /// What the value began with, plain data, which is the same for all its life in a cell.
    type Opening;

    ghost members: { Self → List Self.Member };

    ghost opening: { Self → Self.Opening };

    // The number that a member names.
    ghost number: { Self.Member → ℕ };

    /// How many members the list has.
    fn len(&self) -> u64
        ensures { result ≡ length (members self.now) };
}

//! Code that is written from its last instruction to its first.

use stack_code::Instr;
use std::alloc::Global;
use std::marker::Model;
use upc_text::OutOfMemory;

/// Code, written from the last instruction to the first, so that what stands after a part is known before it.
/// Contracts see it in order.
#[derive(Drop)]
pub(crate) struct Backwards {
    written: Vec<Instr>,
}

impl Model for Backwards {
    ghost use Rattle.std.specs.Prelude.{List, reverse};
    ghost use Rattle.stack_code.specs.declared.instruction.Instr.{Instr};

    ghost Value = { List Instr };

    ghost view = { λ b. reverse b.written.items };
}

impl Backwards {
    ghost use Rattle.std.specs.Prelude.{◌≡◌, [], ◌∷◌, ◌++◌, length, OnOk};

    /// No code.
    pub(crate) fn new(alloc: Global) -> Backwards
        ensures { result ≡ [] }
    {
        Backwards {
            written: Vec::new(alloc),
        }
    }

    /// This code.
    pub(crate) fn of(code: Vec<Instr>) -> Backwards
        ensures { result ≡ code.items }
    {
        let mut written = code;
        written.reverse();
        Backwards { written }
    }

    /// Where its memory comes from.
    pub(crate) fn alloc(&self) -> Global {
        *self.written.allocator()
    }

    /// How many instructions there are.
    pub(crate) fn len(&self) -> usize
        ensures { result ≡ length self.now }
    {
        self.written.len()
    }

    /// Puts an instruction before those that are there.
    pub(crate) fn put(&mut self, instr: Instr) -> Result<(), OutOfMemory>
        ensures { OnOk result (self.new ≡ instr ∷ self.old) }
    {
        self.written.push(instr)?;
        Ok(())
    }

    /// Puts code before what is there.
    #[tactic(auto, using(crate::proofs::Backward::put_before))]
    pub(crate) fn put_code(&mut self, code: Vec<Instr>) -> Result<(), OutOfMemory>
        ensures { OnOk result (self.new ≡ code.items ++ self.old) }
    {
        let mut code = code;
        code.reverse();
        self.written.append(&mut code)?;
        Ok(())
    }

    /// The code in order.
    pub(crate) fn into_code(self) -> Vec<Instr>
        ensures { result.items ≡ self }
    {
        let mut code = self.written;
        code.reverse();
        code
    }
}

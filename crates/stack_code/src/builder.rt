//! Code that is being made.

ghost use Rattle.std.specs.Prelude.{◌≡◌, [], true, ◌↔◌, IfOk, OnOk, OnErr, IsErr, IsTrue, map};
ghost use Rattle.block_layout.specs.Shapes.{IsShape};
ghost use Rattle.shared_pointers.specs.layer.Ranges.{IsThreads};
ghost use Rattle.upc_values.specs.Lists.{Each};
ghost use Rattle.private_store.specs.Beginnings.{IsBeginning};
ghost use Rattle.stack_code.specs.layer.Depths.{IsDeep, BeginsOnce};
ghost use Rattle.stack_code.specs.layer.Kept.{IsCode, IsFitting, IsKnown};
ghost use Rattle.stack_code.specs.layer.Making.{Making, empty, with_instruction, with_instructions};
ghost use Rattle.stack_code.specs.layer.Making.{with_function, with_object, with_initial, with_failure};

use crate::code::Code;
use crate::fitting::{are_fitting, is_known};
use crate::instruction::Instr;
use block_layout::{LocalPtr, Shape};
use std::alloc::Global;
use std::marker::Model;
use upc_text::OutOfMemory;
use upc_values::{Value, copy_shapes};

/// Code that is being made, function by function. Once a call has answered want of memory, each later one does.
#[derive(Drop)]
pub struct Builder {
    alloc: Global,
    threads: u32,
    shapes: Vec<Shape>,
    functions: Vec<Vec<Instr>>,
    current: Vec<Instr>,
    private_shapes: Vec<Shape>,
    private_initials: Vec<(LocalPtr, Value)>,
    failed: bool,
}

impl Model for Builder {
    ghost use Rattle.std.specs.Prelude.{map};
    ghost use Rattle.stack_code.specs.layer.Codes.{codes_of};
    ghost use Rattle.stack_code.specs.layer.Making.{Making, IsMaking};

    ghost Value = { Making };

    ghost view = { λ b. record {
      codes = codes_of b.threads b.shapes.items (map (λ f. f.items) b.functions.items)
          b.private_shapes.items b.private_initials.items;
      current = b.current.items;
      failed = b.failed;
    } };

    ghost invariant = { λ b. IsMaking record {
      codes = codes_of b.threads b.shapes.items (map (λ f. f.items) b.functions.items)
          b.private_shapes.items b.private_initials.items;
      current = b.current.items;
      failed = b.failed;
    } };
}

impl Builder {
    /// No function and no object yet, for so many threads with these shapes of shared elements.
    pub fn make(alloc: Global, threads: u32, shapes: &[Shape]) -> Result<Builder, OutOfMemory>
        requires threads { IsThreads threads }
        requires shapes { Each IsShape shapes.now }
        ensures { IfOk result (λ b. b ≡ empty threads shapes.now) }
    {
        Ok(Builder {
            alloc,
            threads,
            shapes: copy_shapes(alloc, shapes)?,
            functions: Vec::new(alloc),
            current: Vec::new(alloc),
            private_shapes: Vec::new(alloc),
            private_initials: Vec::new(alloc),
            failed: false,
        })
    }

    /// Whether the code may name a value.
    pub fn knows(&self, value: &Value) -> bool
        ensures { IsTrue result ↔ IsKnown self.now.codes.threads self.now.codes.shapes value.now }
    {
        is_known(self.threads, &self.shapes, value)
    }

    /// Appends an instruction to the function that is not ended yet.
    pub fn append(&mut self, instr: Instr) -> Result<(), OutOfMemory>
        requires fits { IsFitting self.old.codes.threads self.old.codes.shapes instr }
        ensures done { OnOk result (self.new ≡ with_instruction instr self.old) }
        ensures failed { OnErr result (self.new.failed ≡ true) }
        ensures fails { self.old.failed ≡ true → IsErr result }
    {
        if self.failed {
            return Err(OutOfMemory);
        }
        self.failed = true;
        self.current.push(instr)?;
        self.failed = false;
        Ok(())
    }

    /// Appends instructions to the function that is not ended yet, where the code may have them; code of a typed
    /// program may.
    pub fn append_all(&mut self, code: Vec<Instr>) -> Result<(), OutOfMemory>
        ensures done { OnOk result (self.new ≡ with_instructions code.items self.old) }
        ensures failed { OnErr result (self.new.failed ≡ true) }
        ensures fails { self.old.failed ≡ true → IsErr result }
    {
        if self.failed {
            return Err(OutOfMemory);
        }
        self.failed = true;
        if !are_fitting(self.threads, &self.shapes, code.as_slice()) {
            return Err(OutOfMemory);
        }
        let mut code = code;
        self.current.append(&mut code)?;
        self.failed = false;
        Ok(())
    }

    /// Memory was wanting elsewhere: each later call answers so.
    pub fn fail(&mut self)
        ensures { self.new ≡ with_failure self.old }
    {
        self.failed = true;
    }

    /// Where the code takes its memory.
    pub fn allocator(&self) -> Global {
        self.alloc
    }

    /// Ends the function, which gets the next number, from 0. The instructions after it are those of another one.
    pub fn end_function(&mut self) -> Result<(), OutOfMemory>
        ensures done { OnOk result (self.new ≡ with_function self.old) }
        ensures failed { OnErr result (self.new.failed ≡ true) }
        ensures fails { self.old.failed ≡ true → IsErr result }
    {
        if self.failed {
            return Err(OutOfMemory);
        }
        self.failed = true;
        let instructions = std::mem::replace(&mut self.current, Vec::new(self.alloc));
        self.functions.push(instructions)?;
        self.failed = false;
        Ok(())
    }

    /// Appends a private object of the file, which gets the next number, from 0.
    pub fn append_object(&mut self, shape: Shape) -> Result<(), OutOfMemory>
        ensures done { OnOk result (self.new ≡ with_object shape self.old) }
        ensures failed { OnErr result (self.new.failed ≡ true) }
        ensures fails { self.old.failed ≡ true → IsErr result }
    {
        if self.failed {
            return Err(OutOfMemory);
        }
        self.failed = true;
        self.private_shapes.push(shape)?;
        self.failed = false;
        Ok(())
    }

    /// Appends the initial value of a cell of a private object of the file.
    pub fn append_initial(&mut self, at: LocalPtr, value: Value) -> Result<(), OutOfMemory>
        requires known { IsKnown self.old.codes.threads self.old.codes.shapes value }
        ensures done { OnOk result (self.new ≡ with_initial at value self.old) }
        ensures failed { OnErr result (self.new.failed ≡ true) }
        ensures fails { self.old.failed ≡ true → IsErr result }
    {
        if self.failed {
            return Err(OutOfMemory);
        }
        self.failed = true;
        self.private_initials.push((at, value))?;
        self.failed = false;
        Ok(())
    }

    /// The code of all that was appended, each function being ended.
    pub fn finish(self) -> Result<Code, OutOfMemory>
        requires ended { self.current ≡ [] }
        requires depths { Each IsDeep self.codes.functions }
        requires begins { BeginsOnce self.codes.functions }
        requires objects { IsBeginning self.codes.private_shapes self.codes.private_initials }
        ensures done { IfOk result (λ code. code ≡ self.codes) }
        ensures fails { self.failed ≡ true → IsErr result }
    {
        if self.failed {
            return Err(OutOfMemory);
        }
        Ok(Code::of(
            self.threads,
            self.shapes,
            self.functions,
            self.private_shapes,
            self.private_initials,
        ))
    }
}

//! Where the shared objects of a program lie, in text.

ghost use Rattle.std.specs.Prelude.{◌≡◌, ◌≤◌, ◌++◌, IfOk, decimal};
ghost use Rattle.std.specs.List.{flat_map};
ghost use Rattle.upc_values.specs.Lists.{Numbered};
ghost use Rattle.typed_tree.specs.ViewProgram.{view_program};
ghost use Rattle.upc_top_output.specs.Layout as pure;
ghost use Rattle.upc_top_output.specs.Layout.{IsSmall, layout, layout_line, pieces_text};

use crate::text::{add, add_number};
use block_layout::{ObjectRef, piece_bytes};
use std::alloc::{AllocError as OutOfMemory, Global};
use typed_tree::{Program, SharedDecl};

// A word and a number.
fn add_field(text: &mut Vec<u8>, word: &[u8], number: u32) -> Result<(), OutOfMemory>
    ensures { IfOk result (λ _. text.new.items ≡ text.old.items ++ pure.field word.now number) }
{
    add(text, word)?;
    add_number(text, number)
}

// The bytes that each thread has of an object, each after a blank.
fn pieces(alloc: Global, threads: u32, object: &ObjectRef) -> Result<Vec<u8>, OutOfMemory>
    requires { IsSmall object.now }
    ensures { IfOk result (λ text. text.items ≡ pieces_text threads object.now) }
{
    let mut text = Vec::new(alloc);
    for thread in 0..threads {
        add_field(&mut text, b" ", piece_bytes(object, thread, threads))?;
    }
    Ok(text)
}

// The line of an object.
fn line(alloc: Global, threads: u32, declared: &SharedDecl) -> Result<Vec<u8>, OutOfMemory>
    requires { IsSmall declared.now.object }
    ensures { IfOk result (λ text. text.items ≡ layout_line threads declared.now) }
{
    let mut text = Vec::from_slice(alloc, declared.name.as_slice())?;
    add_field(&mut text, b" block ", declared.block)?;
    add_field(&mut text, b" elements ", declared.elements)?;
    add_field(&mut text, b" size ", declared.size)?;
    add(&mut text, b" pieces")?;
    add(
        &mut text,
        pieces(alloc, threads, &declared.object)?.as_slice(),
    )?;
    add(&mut text, b"\n")?;
    Ok(text)
}

// The lines of these objects.
fn lines(alloc: Global, threads: u32, objects: &[SharedDecl]) -> Result<Vec<u8>, OutOfMemory>
    requires { Numbered (λ _ x. IsSmall x.object) objects.now }
    ensures { IfOk result (λ text. text.items ≡ flat_map (layout_line threads) objects.now) }
{
    let mut text = Vec::new(alloc);
    for object in objects {
        add(&mut text, line(alloc, threads, object)?.as_slice())?;
    }
    Ok(text)
}

/// A line for each shared object of a program, in order of declaration.
pub fn layout_text(alloc: Global, program: &Program) -> Result<Vec<u8>, OutOfMemory>
    ensures { IfOk result (λ text. text.items ≡ layout (view_program program.now)) }
{
    lines(alloc, program.threads(), program.shared_objects())
}

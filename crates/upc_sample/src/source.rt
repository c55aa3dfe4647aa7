//! The source with a number of stages.

ghost use Rattle.std.specs.Prelude.{◌≡◌, ◌≤◌, ◌++◌, IfOk, decimal, length};
ghost use Rattle.std.specs.List.{flat_map, range_with_len};
ghost use Rattle.upc_sample.specs.Sample as source;

use itoa::Buffer;
use std::alloc::Global;
use upc_text::OutOfMemory;

// Appends a text to the source.
fn add(text: &mut Vec<u8>, more: &[u8]) -> Result<(), OutOfMemory>
    ensures { IfOk result (λ _. text.new.items ≡ text.old.items ++ more.now) }
{
    text.extend_from_slice(more)?;
    Ok(())
}

// Appends a number to the source, in decimal.
fn add_number(text: &mut Vec<u8>, number: u32) -> Result<(), OutOfMemory>
    ensures { IfOk result (λ _. text.new.items ≡ text.old.items ++ decimal number) }
{
    let mut buffer = Buffer::new();
    add(text, buffer.format(number).as_bytes())
}

// Appends a text and a number to the source.
fn add_numbered(text: &mut Vec<u8>, more: &[u8], number: u32) -> Result<(), OutOfMemory>
    ensures { IfOk result (λ _. text.new.items ≡ text.old.items ++ source.numbered more.now number) }
{
    add(text, more)?;
    add_number(text, number)
}

fn add_objects(text: &mut Vec<u8>) -> Result<(), OutOfMemory>
    ensures { IfOk result (λ _. text.new.items ≡ text.old.items ++ source.objects) }
{
    add(text, b"#include <upc_relaxed.h>\n")?;
    add(text, b"#include <stdio.h>\n")?;
    add(text, b"#define M (16*THREADS)\n")?;
    add(text, b"shared [16] int a[M];\n")?;
    add(text, b"shared [16] int b[M];\n")?;
    add(text, b"shared int sum;\n")
}

fn stage(alloc: Global, number: u32) -> Result<Vec<u8>, OutOfMemory>
    ensures { IfOk result (λ text. text.items ≡ source.stage number) }
{
    let mut text = Vec::new(alloc);
    add_numbered(&mut text, b"void stage_", number)?;
    add_numbered(
        &mut text,
        b"(void){int i;upc_forall(i=0;i<M;i++;&b[i])b[i]=a[(i+1)%M]+",
        number,
    )?;
    add(
        &mut text,
        b";upc_barrier;upc_forall(i=0;i<M;i++;&a[i])a[i]=b[i];upc_barrier;}\n",
    )?;
    Ok(text)
}

fn add_call(text: &mut Vec<u8>, number: u32) -> Result<(), OutOfMemory>
    ensures { IfOk result (λ _. text.new.items ≡ text.old.items ++ source.call number) }
{
    add_numbered(text, b"stage_", number)?;
    add(text, b"();\n")
}

fn add_beginning(text: &mut Vec<u8>) -> Result<(), OutOfMemory>
    ensures { IfOk result (λ _. text.new.items ≡ text.old.items ++ source.beginning) }
{
    add(
        text,
        b"int main(void){int i;int part=0;upc_lock_t *lk=upc_all_lock_alloc();\n",
    )?;
    add(text, b"upc_forall(i=0;i<M;i++;&a[i])a[i]=i;\n")?;
    add(text, b"upc_barrier;\n")
}

fn ending(alloc: Global, stages: u32) -> Result<Vec<u8>, OutOfMemory>
    ensures { IfOk result (λ text. text.items ≡ source.ending stages) }
{
    let mut text = Vec::new(alloc);
    add(&mut text, b"upc_forall(i=0;i<M;i++;&a[i])part+=a[i];\n")?;
    add(&mut text, b"upc_lock(lk);sum+=part;upc_unlock(lk);\n")?;
    add(&mut text, b"upc_barrier;\n")?;
    add_numbered(&mut text, b"if(MYTHREAD==0)printf(\"stages ", stages)?;
    add(&mut text, b" sum %d\\n\",sum);\n")?;
    add(&mut text, b"return 0;}\n")?;
    Ok(text)
}

fn add_stages(alloc: Global, text: &mut Vec<u8>, stages: u32) -> Result<(), OutOfMemory>
    ensures { IfOk result (λ _.
        text.new.items ≡ text.old.items ++ flat_map source.stage (range_with_len 0 stages)) }
{
    for number in 0..stages {
        add(text, stage(alloc, number)?.as_slice())?;
    }
    Ok(())
}

fn add_calls(text: &mut Vec<u8>, stages: u32) -> Result<(), OutOfMemory>
    ensures { IfOk result (λ _.
        text.new.items ≡ text.old.items ++ flat_map source.call (range_with_len 0 stages)) }
{
    for number in 0..stages {
        add_call(text, number)?;
    }
    Ok(())
}

/// The source with so many stages, 1 to 1,000: two shared arrays in blocks of 16 ints, a function and a call for each
/// stage, and a sum under a lock, which thread 0 prints. It has about 165 bytes a stage.
pub fn sample(alloc: Global, stages: u32) -> Result<Vec<u8>, OutOfMemory>
    requires some { 1 ≤ stages }
    requires most { stages ≤ 1000 }
    ensures text { IfOk result (λ text. text.items ≡ source.sample stages) }
    ensures short { IfOk result (λ text. length text.items ≤ 1048576) }
{
    let mut text = Vec::new(alloc);
    add_objects(&mut text)?;
    add_stages(alloc, &mut text, stages)?;
    add_beginning(&mut text)?;
    add_calls(&mut text, stages)?;
    add(&mut text, ending(alloc, stages)?.as_slice())?;
    Ok(text)
}

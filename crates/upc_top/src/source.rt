//! The source that the words ask for.

ghost use Rattle.std.specs.Prelude.{◌≡◌, ◌≤◌, ℕ, List, length, IfOk, IfErr};
ghost use Rattle.upc_top_words.specs.declared.call.Mode.TheVariants.{Sample};
ghost use Rattle.upc_top_words.specs.Values.{IsAllowed, view_call};
ghost use Rattle.upc_top.specs.Verdicts.{reading, IsSource, NoSource};

use std::alloc::Global;
use upc_sample::sample;
use upc_text::{ReadEnd, Sources, read_all};
use upc_top_words::{Call, Mode, sample_number};

/// The source that the words ask for: made in mode `sample`, in every other mode the bytes of the file.
pub fn source_of<S: Sources>(
    alloc: Global,
    call: &Call<'_>,
    files: &mut S,
) -> Result<Vec<u8>, ReadEnd>
    requires { IsAllowed (view_call call.now) }
    ensures source { IfOk result (λ bytes.
        IsSource call.now.mode call.now.file.now (S.bytes_of files.old call.now.file.now) bytes.items) }
    ensures short { IfOk result (λ bytes. length bytes.items ≤ 1048576) }
    ensures none { IfErr result (NoSource
        (reading (S.bytes_of files.old) (S.faults files.old) (S.faults files.new))
        (view_call call.now)) }
    ensures sample { call.now.mode ≡ Sample → files.new ≡ files.old }
    ensures counts { (other : List ℕ) → S.faults files.old other ≤ S.faults files.new other }
    ensures same { (other : List ℕ) → S.bytes_of files.new other ≡ S.bytes_of files.old other }
{
    match call.mode {
        Mode::Sample => {
            let Some(stages) = sample_number(call.file) else {
                unreachable!()
            };
            match sample(alloc, stages) {
                Ok(source) => Ok(source),
                Err(_) => Err(ReadEnd::Memory),
            }
        }
        _ => read_all(alloc, files, call.file),
    }
}

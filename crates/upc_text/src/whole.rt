//! All bytes of a name, and all bytes to a sink.
ghost use Rattle.std.specs.Prelude.{◌≡◌, ◌<◌, ◌≤◌, ℕ, List, length, IfOk, OnOk, OnErr, IsErrOf, vec_len};
ghost use Rattle.upc_text.specs.Outside.{Rose, IsWhole, IsLonger, taken_with, TookPrefix};

use crate::{Failed, OutOfMemory, ReadEnd, Sink, Sources};
use std::alloc::Global;

/// The most bytes that a source may have.
pub const SOURCE_LIMIT: usize = 1_048_576;

// So many bytes are asked for at a time.
const CHUNK: usize = 65_536;

// So many bytes to read into.
fn room_for(alloc: Global, count: usize) -> Result<Vec<u8>, OutOfMemory>
    ensures { IfOk result (λ room. vec_len room ≡ count) }
{
    vec![in alloc; 0; count]
}

/// All bytes of the name, up to the end of the input. `TooLong` comes exactly where there are more than `most` of them,
/// unless a read fails or memory runs out first.
pub fn read_up_to<S: Sources>(
    alloc: Global,
    files: &mut S,
    name: &str,
    most: u64,
) -> Result<Vec<u8>, ReadEnd>
    ensures whole { IfOk result (λ bytes. IsWhole (S.bytes_of files.old name.now) bytes.items) }
    ensures limit { IfOk result (λ bytes. length bytes.items ≤ most) }
    ensures too_long { IsErrOf result ReadEnd.TooLong → IsLonger (S.bytes_of files.old name.now) most }
    ensures fault { IsErrOf result ReadEnd.ReadFault
        → Rose (S.faults files.old name.now) (S.faults files.new name.now) }
    ensures counts { (other : List ℕ) → S.faults files.old other ≤ S.faults files.new other }
    ensures same { (other : List ℕ) → S.bytes_of files.new other ≡ S.bytes_of files.old other }
{
    let mut room = room_for(alloc, CHUNK)?;
    let chunk = room.as_mut_slice();
    let mut bytes = Vec::new(alloc);
    while bytes.len() as u64 <= most {
        let count = files.read_at(name, bytes.len() as u64, chunk)?;
        if count == 0 {
            return Ok(bytes);
        }
        bytes.extend_from_slice(&chunk[..count])?;
    }
    Err(ReadEnd::TooLong)
}

/// All bytes of a source: `read_up_to` with `SOURCE_LIMIT`.
pub fn read_all<S: Sources>(alloc: Global, files: &mut S, name: &str) -> Result<Vec<u8>, ReadEnd>
    ensures whole { IfOk result (λ bytes. IsWhole (S.bytes_of files.old name.now) bytes.items) }
    ensures limit { IfOk result (λ bytes. length bytes.items ≤ SOURCE_LIMIT) }
    ensures too_long { IsErrOf result ReadEnd.TooLong
        → IsLonger (S.bytes_of files.old name.now) SOURCE_LIMIT }
    ensures fault { IsErrOf result ReadEnd.ReadFault
        → Rose (S.faults files.old name.now) (S.faults files.new name.now) }
    ensures counts { (other : List ℕ) → S.faults files.old other ≤ S.faults files.new other }
    ensures same { (other : List ℕ) → S.bytes_of files.new other ≡ S.bytes_of files.old other }
{
    read_up_to(alloc, files, name, SOURCE_LIMIT as u64)
}

/// Appends all bytes to the sink. After `Failed` it has taken the first of them, as far as it came. It takes no
/// memory.
pub fn put_all<O: Sink>(sink: &mut O, bytes: &[u8]) -> Result<(), Failed>
    ensures ok { OnOk result (O.taken sink.new ≡ taken_with (O.taken sink.old) bytes.now) }
    ensures prefix { OnErr result (TookPrefix (O.taken sink.old) (O.taken sink.new) bytes.now) }
    ensures failed { OnErr result (Rose (O.faults sink.old) (O.faults sink.new)) }
    // Where there is nothing to append, nothing fails.
    ensures some { OnErr result (0 < length bytes.now) }
    ensures counts { O.faults sink.old ≤ O.faults sink.new }
{
    let mut done = 0;
    while done < bytes.len() {
        done += sink.put(&bytes[done..])?;
    }
    Ok(())
}

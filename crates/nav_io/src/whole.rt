// A source read to its end, and a text written whole.
ghost use Rattle.std.specs.Prelude.{◌≡◌, ◌+◌, ◌≤◌, ◌<◌, length, IfOk, OnOk, OnErr, IsErrOf, IsOkUnless, ◌⊎◌};
ghost use Rattle.std.specs.Io.KnownBytes.{Appends};
ghost use Rattle.nav_io.specs.Causes.{Rose, GivesAll, TookMany, TookAtMost, HasAtMost, HasMore, AppendsPrefix};

use crate::{Failed, ReadRefusal, Sink, Source, WriteFault};
use std::alloc::Global;

/// How many bytes one read asks for at most.
const PIECE: usize = 16384;

/// Reads `source` to its end and gives all its bytes, which are at most `most`.
///
/// `ReadFault` comes only where the source's faults rose. `TooLong` comes exactly where `most + 1`
/// bytes were read, and nothing more is read then. After a refusal the bytes that were read are gone
/// from the source: what is left is the rest.
pub fn read_all<S: Source>(
    alloc: Global,
    source: &mut S,
    most: usize,
) -> Result<Vec<u8>, ReadRefusal>
    requires { most < usize.MAX }
    ensures ok { IfOk result (λ bytes. GivesAll (S.left source.old) (S.left source.new) bytes.items) }
    ensures short { IfOk result (λ bytes. length bytes.items ≤ most) }

    ensures fault { IsErrOf result ReadRefusal.ReadFault
        → Rose (S.faults source.old) (S.faults source.new) }
    ensures fault_within { IsErrOf result ReadRefusal.ReadFault
        → TookAtMost (S.left source.old) (S.left source.new) most }
    ensures long { IsErrOf result ReadRefusal.TooLong
        → TookMany (S.left source.old) (S.left source.new) (most + 1) }
    ensures memory_within { IsErrOf result ReadRefusal.OutOfMemory
        → TookAtMost (S.left source.old) (S.left source.new) most }
    ensures later { S.faults source.old ≤ S.faults source.new }

    // With no fault only memory can be missing: for all of a text that fits, or to see one that does not.
    ensures fits { HasAtMost (S.left source.old) most
        → ¬ Rose (S.faults source.old) (S.faults source.new)
        → IsOkUnless result ReadRefusal.OutOfMemory }
    ensures more { HasMore (S.left source.old) most
        → ¬ Rose (S.faults source.old) (S.faults source.new)
        → IsErrOf result ReadRefusal.TooLong ⊎ IsErrOf result ReadRefusal.OutOfMemory }
{
    let mut bytes = Vec::new(alloc);
    let mut piece = [0u8; PIECE];
    'pieces: loop {
        let want = (most - bytes.len()).min(PIECE - 1) + 1;
        let count = match source.read(&mut piece[..want]) {
            Ok(count) => count,
            Err(Failed) => return Err(ReadRefusal::ReadFault),
        };
        if count == 0 {
            return Ok(bytes);
        }
        if count > most - bytes.len() {
            return Err(ReadRefusal::TooLong);
        }
        bytes.extend_from_slice(&piece[..count])?;
    }
}

/// Writes all of `bytes` to `sink`, in order.
///
/// `WriteFault` comes only where the sink's faults rose. The sink then holds what it held and after
/// it a front part of `bytes`, not all of them.
pub fn write_all<K: Sink>(sink: &mut K, bytes: &[u8]) -> Result<(), WriteFault>
    ensures ok { OnOk result (Appends (K.held sink.old) (K.held sink.new) bytes.now) }
    ensures fault { OnErr result (Rose (K.faults sink.old) (K.faults sink.new)) }
    ensures prefix { OnErr result (AppendsPrefix (K.held sink.old) (K.held sink.new) bytes.now) }
    ensures later { K.faults sink.old ≤ K.faults sink.new }
{
    let mut at = 0;
    'rest: while at < bytes.len() {
        match sink.write(&bytes[at..]) {
            Ok(count) => at += count,
            Err(Failed) => return Err(WriteFault),
        }
    }
    Ok(())
}

ghost use Rattle.std.specs.Prelude.{◌≡◌, ℕ, ◌<◌, ◌≤◌, List, [], length, Option, IfOk, OnOk};
ghost use Rattle.std.specs.Io.{ReadsAtMost};
ghost use Rattle.std.specs.Io.KnownBytes.{ReadConsumes};
ghost use Rattle.cxx_edge.specs.Count.{Rose, HasCause};
ghost use Rattle.cxx_edge.specs.Source.{GivesAll, GivesMore, GivesPart, IsLonger, IsWithin};

use std::alloc::Global;

/// A read or a write failed. What went wrong is in the count of its source or sink alone.
#[derive(Clone, Copy, Debug, PartialEq, Eq)]
pub struct Failed;

/// Why a source was not read to its end.
#[derive(Clone, Copy, Debug, PartialEq, Eq)]
pub enum ReadFault {
    Failed,
    TooLong,
    OutOfMemory,
}

/// What bytes are read from.
pub trait Source {
    // The bytes that are left, where the source tells them.
    ghost left: { Self → Option (List ℕ) };

    // How often it has failed.
    ghost faults: { Self → ℕ };

    /// Puts bytes at the front of `buf` and says how many.
    fn read(&mut self, buf: &mut [u8]) -> Result<usize, Failed>
        ensures bound { ReadsAtMost result buf.new }
        ensures bytes { ReadConsumes (left self.old) (left self.new) result buf.new }
        ensures cause { HasCause (faults self.old) (faults self.new) result };
}

/// Reads all bytes to the end, unless there are more than `limit`. It asks for memory as the bytes
/// come, and for none before the first of them.
pub fn read_all<S: Source>(
    alloc: Global,
    source: &mut S,
    limit: usize,
) -> Result<Vec<u8>, ReadFault>
    ensures later { S.faults source.old ≤ S.faults source.new }
    ensures within { IfOk result (λ bytes. length bytes.items ≤ limit) }
    ensures whole { IfOk result (λ bytes.
        GivesAll (S.left source.old) (S.left source.new) bytes.items) }
    ensures failed { result ≡ Err ReadFault.Failed → Rose (S.faults source.old) (S.faults source.new) }
    ensures too_long { result ≡ Err ReadFault.TooLong →
        GivesMore (S.left source.old) (S.left source.new) limit }
    ensures longer { result ≡ Err ReadFault.TooLong → IsLonger (S.left source.old) limit }
    ensures not_longer { OnOk result (IsWithin (S.left source.old) limit) }
    ensures no_memory { result ≡ Err ReadFault.OutOfMemory →
        GivesMore (S.left source.old) (S.left source.new) 0 }
    ensures part { GivesPart (S.left source.old) (S.left source.new) }
{
    let mut bytes = Vec::new(alloc);
    let mut buffer = [0u8; 8192];
    loop {
        let count = match source.read(&mut buffer) {
            Ok(count) => count,
            Err(Failed) => return Err(ReadFault::Failed),
        };
        if count == 0 {
            return Ok(bytes);
        }
        if count > limit - bytes.len() {
            return Err(ReadFault::TooLong);
        }
        match bytes.extend_from_slice(&buffer[..count]) {
            Ok(()) => {}
            Err(_) => return Err(ReadFault::OutOfMemory),
        }
    }
}

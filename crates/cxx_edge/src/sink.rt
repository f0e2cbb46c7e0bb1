ghost use Rattle.std.specs.Prelude.{◌≡◌, ℕ, List, Option};
ghost use Rattle.std.specs.Io.{WritesAtMost};
ghost use Rattle.cxx_edge.specs.Count.{HasCause};
ghost use Rattle.cxx_edge.specs.Sink.{WritesPart, TakesSome, WritesAll};

use super::source::Failed;

/// What bytes are written to.
pub trait Sink {
    // The bytes that it has taken, where the sink tells them.
    ghost taken: { Self → Option (List ℕ) };

    // How often it has failed.
    ghost faults: { Self → ℕ };

    /// Takes bytes from the front of `piece` and says how many. A call that fails may have taken
    /// some.
    fn write(&mut self, piece: &[u8]) -> Result<usize, Failed>
        ensures bound { WritesAtMost result piece.now }
        ensures some { TakesSome result piece.now }
        ensures bytes { WritesPart (taken self.old) (taken self.new) result piece.now }
        ensures cause { HasCause (faults self.old) (faults self.new) result };
}

/// Writes the whole text, in as many calls as it takes, with no memory of its own.
pub fn write_all<K: Sink>(sink: &mut K, text: &[u8]) -> Result<(), Failed>
    ensures bytes { WritesAll (K.taken sink.old) (K.taken sink.new) result text.now }
    ensures cause { HasCause (K.faults sink.old) (K.faults sink.new) result }
{
    let mut at = 0;
    while at < text.len() {
        match sink.write(&text[at..]) {
            Ok(count) => at += count,
            Err(Failed) => return Err(Failed),
        }
    }
    Ok(())
}

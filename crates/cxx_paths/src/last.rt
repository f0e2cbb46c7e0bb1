//! The last part of a name, which is looked up behind the others.

ghost use Rattle.std.specs.Prelude.{◌≡◌};
ghost use Rattle.cxx_reading.specs.Trees.{last_part};
ghost use Rattle.cxx_tree.specs.Arena.{path_parts_at};

use cxx_model::{PathPart, Place};

/// The word of the last of some parts; none where there is no part.
#[tactic(auto, using(crate::proofs::Parts::last_word, crate::proofs::Parts::no_word))]
pub fn last_word(parts: &[PathPart]) -> &[u8]
    ensures { result.now ≡ (last_part (path_parts_at parts.now)).word }
{
    let count = parts.len();
    if count == 0 {
        return &[];
    }
    parts[count - 1].word.as_slice()
}

/// Where the last of some parts stands.
#[tactic(auto, using(crate::proofs::Parts::last_place, crate::proofs::Parts::no_place))]
pub fn last_place(parts: &[PathPart]) -> Place
    ensures { result ≡ (last_part (path_parts_at parts.now)).place }
{
    let count = parts.len();
    if count == 0 {
        return Place { line: 0, column: 0 };
    }
    parts[count - 1].place
}

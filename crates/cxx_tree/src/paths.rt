//! Names with their qualifiers.

ghost use Rattle.std.specs.Prelude.{◌≡◌};
ghost use Rattle.cxx_reading.specs.Trees.{is_alone as is_alone_by, is_plain_path as is_plain_path_by};
ghost use Rattle.cxx_tree.specs.Arena.{path_at, path_parts_at};

use cxx_model::{Path, PathPart};

#[tactic(auto, using(crate::proofs::Alone::alone_is))]
fn is_alone(parts: &[PathPart]) -> bool
    ensures { result ≡ is_alone_by (path_parts_at parts.now) }
{
    parts.len() == 1
}

/// Whether a name has no qualifiers (3.4.1).
pub fn is_plain_path(path: &Path) -> bool
    ensures { result ≡ is_plain_path_by (path_at path.now) }
{
    !path.global && is_alone(path.parts.as_slice())
}

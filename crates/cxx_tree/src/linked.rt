//! Declarations in blocks that declare members of namespaces (3.5).

ghost use Rattle.std.specs.Prelude.{◌≡◌, IfOk};
ghost use Rattle.cxx_model.specs.Facts.Declarations.{graph_at, spelled};
ghost use Rattle.cxx_names.specs.Looked.{looked_up};
ghost use Rattle.cxx_reading.specs.Linked.{is_among, linked_in as linked_in_space};
ghost use Rattle.cxx_reading.specs.Seen.{fact_numbers, numbered_at};
ghost use Rattle.cxx_tree.specs.Held.{meaning};

use crate::state::State;
use cxx_model::{FactId, FactList, OutOfMemory, ScopeId};

impl State {
    /// The declarations in blocks that declare a member of a namespace with a name, in order (3.5).
    pub fn linked_in(&self, space: ScopeId, word: &[u8]) -> Result<FactList, OutOfMemory>
        ensures looked { IfOk result (λ found. looked_up (self.now).types (self.now).graph.facts found ≡ linked_in_space (meaning self.now) space.0 (spelled word.now)) }
        ensures numbered { IfOk result (λ found. numbered_at (graph_at (self.now).types (self.now).graph) (fact_numbers found) ≡ linked_in_space (meaning self.now) space.0 (spelled word.now)) }
    {
        let row = self.linkages.row(space, word);
        Ok(FactList::from_vec(Vec::from_slice(self.alloc, row)?))
    }

    /// Whether a declaration is linked (3.5).
    pub fn is_linked(&self, number: FactId) -> bool
        ensures { result ≡ is_among number.0 (meaning self.now).linked }
    {
        self.linkages.has(number)
    }
}

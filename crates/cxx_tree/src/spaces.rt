//! Scopes of namespaces (7.3.1).

ghost use Rattle.std.specs.Prelude.{◌≡◌, Ok, OnOk};
ghost use Rattle.cxx_model.specs.Facts.Graph.{appended};
ghost use Rattle.cxx_model.specs.declared.facts.ScopeKind.TheVariants.{Space};
ghost use Rattle.cxx_reading.specs.Spaces as spaces;
ghost use Rattle.cxx_tree.specs.Answered.{IsAnswered, IsScopeKnown, scope_number};
ghost use Rattle.cxx_tree.specs.Held.{meaning};
ghost use Rattle.cxx_tree.specs.Later.{Later};
ghost use Rattle.cxx_tree.specs.Whole.{added_space, scope_fact};

use crate::state::State;
use cxx_model::{Place, ScopeId, ScopeKind, Stop};

impl State {
    /// Adds the scope of a namespace, at a place, in the scope where the reader stands, where there is room for it (7.3.1):
    /// its number. The reader does not stand in that then.
    pub fn add_space(&mut self, place: Place) -> Result<ScopeId, Stop>
        ensures answered { IsAnswered scope_number IsScopeKnown self.old self.new result (added_space place (meaning self.old)) }
        ensures held { OnOk result (self.new ≡ record self.old { graph = appended (self.old).graph (scope_fact Space place (self.old).scope) }) }
    {
        let number = self.names.scopes(&self.graph);
        self.add_scope(ScopeKind::Space, place)?;
        Ok(number)
    }

    /// A namespace ends: the reader stands in the scope that holds its scope (7.3.1).
    pub fn close_space(&mut self)
        ensures later { Later self.old self.new }
        ensures is { spaces.close_space (meaning self.old) ≡ Ok (tt, meaning self.new) }
    {
        self.leave_scope();
    }
}

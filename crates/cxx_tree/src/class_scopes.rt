//! Scopes of classes (9.2), and what a class declares at its end (12.1, 12.8).

ghost use Rattle.std.specs.Prelude.{◌≡◌, ◌<◌, length, IfOk, OnOk};
ghost use Rattle.cxx_model.specs.Facts.Declarations.{facts_at};
ghost use Rattle.cxx_model.specs.Facts.Fitted.{AreFactsBelow};
ghost use Rattle.cxx_model.specs.Facts.Graph.{EachMayFollow, appended};
ghost use Rattle.cxx_model.specs.declared.facts.ScopeKind.TheVariants as kind;
ghost use Rattle.cxx_implicit.specs.Members as members;
ghost use Rattle.cxx_names.specs.Plain.{ArePlain};
ghost use Rattle.cxx_tree.specs.Answered.{IsAnswered, IsScopeKnown, scope_number};
ghost use Rattle.cxx_tree.specs.Held.{meaning};
ghost use Rattle.cxx_tree.specs.Later.{Later};
ghost use Rattle.cxx_tree.specs.Whole.{added_class_scope, left_scope, scope_fact};

use crate::state::State;
use cxx_implicit::implicit_members;
use cxx_model::{ClassId, Fact, OutOfMemory, Place, ScopeId, ScopeKind, Stop};

impl State {
    /// Adds the scope of a class, at a place, in the scope where the reader stands, where there is room for it (9.2): its
    /// number. The reader does not stand in that then.
    pub fn add_class_scope(&mut self, class: ClassId, place: Place) -> Result<ScopeId, Stop>
        requires { class.0 < length (self.old).graph.classes }
        ensures answered { IsAnswered scope_number IsScopeKnown self.old self.new result (added_class_scope place class.0 (meaning self.old)) }
        ensures held { OnOk result (self.new ≡ record self.old { graph = appended (self.old).graph (scope_fact (kind.Class class) place (self.old).scope) }) }
    {
        let number = self.names.scopes(&self.graph);
        self.add_scope(ScopeKind::Class(class), place)?;
        Ok(number)
    }

    /// A class ends: the reader stands in the scope that holds its scope (9.2).
    pub fn leave_class(&mut self)
        ensures later { Later self.old self.new }
        ensures is { meaning self.new ≡ left_scope (meaning self.old) }
    {
        self.leave_scope();
    }

    /// The members that a class declares by itself at its end (12.1, 12.8), in order, in the scope where the reader stands,
    /// at a place. They are not added.
    pub fn implicit_members(
        &mut self,
        class: ClassId,
        place: Place,
    ) -> Result<Vec<Fact>, OutOfMemory>
        requires { class.0 < length (self.old).graph.classes }
        ensures later { Later self.old self.new }
        ensures same { meaning self.new ≡ meaning self.old }
        ensures held { self.new ≡ record self.old { types = (self.new).types } }
        ensures is { IfOk result (λ all. facts_at (self.new).types all.items ≡ members.implicit_members (meaning self.old).graph class.0 (self.old).scope.0 place) }

        // Each may be added in turn.
        ensures follow { IfOk result (λ all. EachMayFollow (self.new).graph (self.new).graph.facts all.items) }
        ensures below { IfOk result (λ all. AreFactsBelow (length (self.new).types) all.items) }
        ensures plain { IfOk result (λ all. ArePlain all.items) }
    {
        let Some(special) = &self.noting.special else {
            return Err(OutOfMemory);
        };
        implicit_members(
            self.alloc,
            special,
            &self.graph,
            &mut self.types,
            class,
            self.scope,
            place,
        )
    }
}

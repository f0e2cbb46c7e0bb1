ghost use Rattle.std.specs.Prelude.{◌≡◌, true};
ghost use Rattle.std.specs.List.{slice_get};
ghost use Rattle.cxx_defined.specs.Defined.{IsOwn};

use crate::declaring::Declaring;
use crate::phrases::{condition_value, member_value};
use cxx_answers::{Answering, constant_here};
use cxx_cursor::{Cursor, Declarator, NameToken, Specifiers, Spelled};
use cxx_declare as declare;
use cxx_graph::Graph;
use cxx_initialize::initialize;
use cxx_knot::{read_declarator, read_initializer, read_specifiers};
use cxx_language::{Declares, constant_value};
use cxx_model::{
    Access, Cv, Entity, FactId, Node, OutOfMemory, Path, Place, ScopeId, Stop, TreeId, TypeId,
};
use cxx_phrases::Initializer;
use cxx_reading::{Naming, SpecifierPlace};
use cxx_tree::State;

// Whether a number is that of a declaration of an object, a function or a template.
fn is_own(graph: &Graph, number: FactId) -> bool
    ensures { result ≡ true → IsOwn (slice_get graph.now.facts number.0) }
{
    match graph.facts().get(number.0 as usize) {
        Some(fact) => matches!(
            fact.what,
            Entity::Object { .. } | Entity::Function { .. } | Entity::Template { .. }
        ),
        None => false,
    }
}

impl Declares for Declaring {
    #[tactic(auto, unfolding(cxx_language::specs::Answers::asking))]
    fn specifiers(
        &self,
        state: &mut State,
        cursor: &mut Cursor<'_>,
        place: SpecifierPlace,
        so_far: Specifiers,
        room: u32,
    ) -> Result<Specifiers, Stop> {
        read_specifiers(self, state, cursor, place, so_far, room)
    }

    #[tactic(auto, unfolding(cxx_language::specs::Answers::asking))]
    fn declarator(
        &self,
        state: &mut State,
        cursor: &mut Cursor<'_>,
        naming: Naming,
        room: u32,
    ) -> Result<Declarator, Stop> {
        read_declarator(self, state, cursor, naming, room)
    }

    #[tactic(auto, unfolding(cxx_language::specs::Answers::asking))]
    fn initializer(
        &self,
        state: &mut State,
        cursor: &mut Cursor<'_>,
        room: u32,
    ) -> Result<Initializer, Stop> {
        read_initializer(self, state, cursor, room)
    }

    fn condition_value(
        &self,
        state: &mut State,
        cursor: &mut Cursor<'_>,
        room: u32,
    ) -> Result<Initializer, Stop> {
        condition_value(self, state, cursor, room)
    }

    fn member_value(
        &self,
        state: &mut State,
        cursor: &mut Cursor<'_>,
        room: u32,
    ) -> Result<Initializer, Stop> {
        member_value(self, state, cursor, room)
    }

    fn constant(&self, state: &mut State, number: TreeId) -> Result<(), Stop> {
        constant_here(state.alloc(), state, number)?;
        Ok(())
    }

    #[tactic(auto, using(crate::proofs::Answering::asked))]
    fn initialize(&self, state: &mut State, of: TypeId, node: Node) -> Result<TreeId, Stop> {
        let alloc = state.alloc();
        initialize(alloc, &Answering, state, of, node)
    }

    fn value(&self, state: &State, number: TreeId) -> Result<Option<i128>, OutOfMemory> {
        constant_value(state, number)
    }

    fn declare_synonym(
        &self,
        state: &mut State,
        name: &NameToken,
        of: TypeId,
    ) -> Result<FactId, Stop> {
        declare::declare_synonym(state, name.place, name.spelling.as_slice(), of)
    }

    fn declare_function(
        &self,
        state: &mut State,
        list: Option<ScopeId>,
        name: &NameToken,
        of: TypeId,
    ) -> Result<FactId, Stop> {
        declare::declare_function(state, list, name.place, name.spelling.as_slice(), of)
    }

    fn declare_again(
        &self,
        state: &mut State,
        name: &NameToken,
        cv: Cv,
        of: TypeId,
    ) -> Result<FactId, Stop> {
        declare::declare_again(state, name.place, name.spelling.as_slice(), cv, of)
    }

    fn declare_object(
        &self,
        state: &mut State,
        name: &NameToken,
        of: TypeId,
    ) -> Result<FactId, Stop> {
        declare::declare_object(state, name.place, name.spelling.as_slice(), of)
    }

    fn declare_linked_object(
        &self,
        state: &mut State,
        name: &NameToken,
        of: TypeId,
    ) -> Result<FactId, Stop> {
        declare::declare_linked_object(state, name.place, name.spelling.as_slice(), of)
    }

    fn define_object(
        &self,
        state: &mut State,
        name: &NameToken,
        of: TypeId,
    ) -> Result<FactId, Stop> {
        declare::define_object(state, name.place, name.spelling.as_slice(), of)
    }

    #[tactic(auto, using(cxx_cursor::proofs::Kept::later_refl))]
    fn define_declared(
        &self,
        state: &mut State,
        name: &NameToken,
        number: FactId,
    ) -> Result<(), Stop> {
        // No reader asks for the definition of what it did not declare as an object.
        if !is_own(state.graph(), number) {
            return Err(Stop::OutOfMemory);
        }
        declare::define_declared(state, name.place, name.spelling.as_slice(), number)
    }

    #[tactic(auto, using(crate::proofs::Answering::asked))]
    fn space_here(&self, state: &mut State, path: &Path) -> Result<ScopeId, Stop> {
        declare::space_here(state, path)
    }

    fn declare_alias(
        &self,
        state: &mut State,
        name: Spelled<'_>,
        inner: ScopeId,
    ) -> Result<(), Stop> {
        declare::declare_alias(state, name.place, name.spelling, inner)
    }

    #[tactic(auto, using(crate::proofs::Answering::asked))]
    fn declare_directive(
        &self,
        state: &mut State,
        place: Place,
        inner: ScopeId,
    ) -> Result<(), Stop> {
        declare::declare_directive(state, place, inner)
    }

    #[tactic(auto, using(crate::proofs::Answering::asked))]
    fn bring_here(&self, state: &mut State, path: &Path) -> Result<(), Stop> {
        declare::bring_here(state, path)
    }

    #[tactic(auto, using(crate::proofs::Answering::asked))]
    fn bring_member(&self, state: &mut State, label: Access, path: &Path) -> Result<(), Stop> {
        declare::bring_member(state, label, path)
    }

    fn agree_here(
        &self,
        state: &State,
        is_typedef: bool,
        name: &NameToken,
        of: TypeId,
    ) -> Result<(), Stop> {
        declare::agree_here(state, is_typedef, name.place, name.spelling.as_slice(), of)
    }

    #[tactic(auto, using(crate::proofs::Answering::asked, cxx_cursor::proofs::Kept::later_refl))]
    fn stand_in(&self, state: &mut State, scope: ScopeId) -> Result<(), Stop> {
        // The reader stood in it.
        if scope.0 >= state.names().scopes(state.graph()).0 {
            return Err(Stop::OutOfMemory);
        }
        declare::stand_in(state, scope)
    }
}

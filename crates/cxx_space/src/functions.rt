//! Functions (8.3.5), and the choice among declared entities.

ghost use Rattle.std.specs.Prelude.{◌≡◌, ◌<◌, length};
ghost use Rattle.cxx_language.specs.Units as units;
ghost use Rattle.cxx_space.specs.Parts.{function_by};
ghost use Rattle.cxx_space.specs.Views.{IsDeclaredKnown, declares_of};
ghost use Rattle.cxx_cursor.specs.Reading.{IsRead};
ghost use Rattle.cxx_cursor.specs.Views.{declarator_of, name_at};
ghost use Rattle.cxx_cursor.specs.Asking.{AnyKnown, IsAsked};
ghost use Rattle.cxx_tree.specs.Answered.{fact_number, scope_of_option};
ghost use Rattle.cxx_tree.specs.Held.{meaning, type_of};
ghost use Rattle.cxx_units.specs.Said.{IsDeclared, said_of};

use crate::bodies::{Declared, alone, declared_with};
use crate::declarators::is_in_class;
use crate::space::{Defines, Space};
use cxx_cursor::{Cursor, Declarator, NameToken};
use cxx_language::Reader;
use cxx_model::{Cv, FactId, ScopeId, Stop, TreeId, TypeId};
use cxx_tree::State;
use cxx_units::ends::own_parameters;
use cxx_units::said::Said;
use cxx_units::trees::{declarator_tree, token_or};
use cxx_units::types::is_function_type;

impl<D: Defines> Space<'_, D> {
    // Where the reader stands in a class, the function is one of the class (9.3).
    fn function_declared(
        &self,
        state: &mut State,
        list: Option<ScopeId>,
        name: &NameToken,
        cv: Cv,
        of: TypeId,
    ) -> Result<FactId, Stop>
        requires { of.0 < length (state.old).types }
        ensures { IsAsked fact_number AnyKnown state.old state.new result (function_by (scope_of_option list) (name_at name.now) cv (type_of state.old of) (meaning state.old)) }
    {
        if is_in_class(state) {
            self.declares.declare_again(state, name, cv, of)
        } else {
            self.declares.declare_function(state, list, name, of)
        }
    }

    // A function is declared before it is looked whether a body follows.
    #[tactic(auto, using(cxx_cursor::proofs::Kept::trees_kept, cxx_cursor::proofs::Kept::trees_later, cxx_cursor::proofs::Kept::layers_kept, cxx_cursor::proofs::Kept::type_kept, cxx_cursor::proofs::Kept::type_later, cxx_cursor::proofs::Kept::later_refl, cxx_cursor::proofs::Kept::later_trans, cxx_expr::proofs::Kept::tree_kept, cxx_expr::proofs::Kept::tree_later), unfolding(cxx_language::specs::Units::declared_function, cxx_language::specs::Units::function_declared, cxx_language::specs::Units::function_ended))]
    fn declared_function(
        &self,
        state: &mut State,
        cursor: &mut Cursor<'_>,
        said: Said,
        is_first: bool,
        from: &Cursor<'_>,
        declarator: Declarator,
        of: TypeId,
    ) -> Result<Declared, Stop>
        requires { IsDeclared state.old said declarator of }
        ensures { IsRead declares_of IsDeclaredKnown state.old state.new cursor.new result (units.declared_function self.now.room (said_of state.old said) is_first (declarator_of state.old declarator) from.now (meaning state.old) cursor.old) }
    {
        let name = token_or(cursor.alloc(), declarator.name);
        let list = own_parameters(state, &declarator.layers);
        let number = self.function_declared(state, list, &name, declarator.cv, of)?;
        let tree = declarator_tree(
            state,
            said.is_extern,
            &name,
            of,
            number,
            declarator.parts,
            from,
            cursor,
        )?;
        let body = self.function_ended(state, cursor, is_first, &name, of, number, list)?;
        Ok(declared_with(cursor.alloc(), tree, body))
    }

    /// What a declarator declares; its name is declared before what follows is looked at (3.3.1).
    #[tactic(auto, using(cxx_cursor::proofs::Kept::later_refl, cxx_cursor::proofs::Kept::later_trans))]
    pub(crate) fn declared_by(
        &self,
        state: &mut State,
        cursor: &mut Cursor<'_>,
        said: Said,
        is_first: bool,
        from: &Cursor<'_>,
        declarator: Declarator,
        of: TypeId,
    ) -> Result<Declared, Stop>
        requires { IsDeclared state.old said declarator of }
        ensures { IsRead declares_of IsDeclaredKnown state.old state.new cursor.new result (units.declared_by self.now.room (said_of state.old said) is_first from.now (declarator_of state.old declarator) (meaning state.old) cursor.old) }
    {
        let reader = Reader {
            declares: self.declares,
            room: self.room,
        };
        if said.is_typedef {
            let number = reader.bare_synonym(state, cursor, said, from, declarator, of)?;
            return Ok(alone(cursor.alloc(), number));
        }
        if is_function_type(state.types(), of) {
            return self.declared_function(state, cursor, said, is_first, from, declarator, of);
        }
        if said.is_extern {
            let number = reader.extern_object(state, cursor, said, from, declarator, of)?;
            return Ok(alone(cursor.alloc(), number));
        }
        let number = reader.defined_object(state, cursor, said, from, declarator, of)?;
        Ok(alone(cursor.alloc(), number))
    }
}

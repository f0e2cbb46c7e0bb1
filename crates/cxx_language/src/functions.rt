//! Synonyms of types (7.1.3), and functions that blocks declare (3.5).

ghost use Rattle.cxx_language.specs.Blocks as blocks;
ghost use Rattle.cxx_reading.specs.Units as definition;
ghost use Rattle.cxx_language.specs.Synonyms as synonyms;
ghost use Rattle.cxx_cursor.specs.Asking.{AnyKnown, IsTreeKnown, itself};
ghost use Rattle.cxx_cursor.specs.Reading.{IsRead};
ghost use Rattle.cxx_cursor.specs.Views.{declarator_of};
ghost use Rattle.cxx_tree.specs.Held.{meaning, tree};
ghost use Rattle.cxx_units.specs.Said.{IsDeclared, said_of};

use crate::declares::{Declares, Reader};
use cxx_cursor::{Cursor, Declarator};
use cxx_model::{FaultText, Stop, TreeId, TypeId};
use cxx_tree::State;
use cxx_units::ends::{own_parameters, synonym_ended};
use cxx_units::place_of_name;
use cxx_units::said::Said;
use cxx_units::trees::{declarator_tree, faulty, token_or};

// Words behind the parameters of a synonym are not read yet (8.3.5 p4).
#[tactic(auto, using(cxx_cursor::proofs::Kept::later_refl), unfolding(crate::specs::Synonyms::no_words_behind))]
fn no_words_behind(state: &State, cursor: &Cursor<'_>, declarator: &Declarator) -> Result<(), Stop>
    ensures { IsRead itself AnyKnown state.now state.now cursor.now result (synonyms.no_words_behind (declarator_of state.now declarator.now) (meaning state.now) cursor.now) }
{
    let _ = state;
    if declarator.cv.is_const || declarator.cv.is_volatile {
        let place = place_of_name(&declarator.name);
        let text = FaultText::NotBuilt;
        return Err(Stop::Fault(faulty(cursor.alloc(), place, text)?));
    }
    Ok(())
}

impl<D: Declares> Reader<'_, D> {
    // A name of a type (7.1.3), whatever stands behind its parameters.
    #[tactic(auto, using(cxx_cursor::proofs::Kept::trees_kept, cxx_cursor::proofs::Kept::trees_later, cxx_cursor::proofs::Kept::type_kept, cxx_cursor::proofs::Kept::type_later, cxx_cursor::proofs::Kept::later_refl, cxx_cursor::proofs::Kept::later_trans), unfolding(cxx_reading::specs::Units::declared_synonym))]
    fn declared_synonym(
        &self,
        state: &mut State,
        cursor: &Cursor<'_>,
        said: Said,
        from: &Cursor<'_>,
        declarator: Declarator,
        of: TypeId,
    ) -> Result<TreeId, Stop>
        requires { IsDeclared state.old said declarator of }
        ensures { IsRead tree IsTreeKnown state.old state.new cursor.now result (definition.declared_synonym (said_of state.old said) (declarator_of state.old declarator) from.now (meaning state.old) cursor.now) }
    {
        let _ = said;
        let name = token_or(cursor.alloc(), declarator.name);
        let number = self.declares.declare_synonym(state, &name, of)?;
        synonym_ended(state, cursor)?;
        declarator_tree(
            state,
            false,
            &name,
            of,
            number,
            declarator.parts,
            from,
            cursor,
        )
    }

    /// A name of a type (7.1.3).
    #[tactic(auto, using(cxx_cursor::proofs::Kept::later_refl, cxx_cursor::proofs::Kept::later_trans), unfolding(crate::specs::Synonyms::bare_synonym))]
    pub fn bare_synonym(
        &self,
        state: &mut State,
        cursor: &Cursor<'_>,
        said: Said,
        from: &Cursor<'_>,
        declarator: Declarator,
        of: TypeId,
    ) -> Result<TreeId, Stop>
        requires { IsDeclared state.old said declarator of }
        ensures { IsRead tree IsTreeKnown state.old state.new cursor.now result (synonyms.bare_synonym (said_of state.old said) (declarator_of state.old declarator) from.now (meaning state.old) cursor.now) }
    {
        no_words_behind(state, cursor, &declarator)?;
        self.declared_synonym(state, cursor, said, from, declarator, of)
    }

    /// A function that a block declares (3.5).
    #[tactic(auto, using(cxx_cursor::proofs::Kept::trees_kept, cxx_cursor::proofs::Kept::trees_later, cxx_cursor::proofs::Kept::layers_kept, cxx_cursor::proofs::Kept::type_kept, cxx_cursor::proofs::Kept::type_later, cxx_cursor::proofs::Kept::later_refl, cxx_cursor::proofs::Kept::later_trans), unfolding(crate::specs::Blocks::local_function))]
    pub(crate) fn local_function(
        &self,
        state: &mut State,
        cursor: &Cursor<'_>,
        said: Said,
        from: &Cursor<'_>,
        declarator: Declarator,
        of: TypeId,
    ) -> Result<TreeId, Stop>
        requires { IsDeclared state.old said declarator of }
        ensures { IsRead tree IsTreeKnown state.old state.new cursor.now result (blocks.local_function (said_of state.old said) from.now (declarator_of state.old declarator) (meaning state.old) cursor.now) }
    {
        let name = token_or(cursor.alloc(), declarator.name);
        let list = own_parameters(state, &declarator.layers);
        let number = self.declares.declare_function(state, list, &name, of)?;
        synonym_ended(state, cursor)?;
        declarator_tree(
            state,
            said.is_extern,
            &name,
            of,
            number,
            declarator.parts,
            from,
            cursor,
        )
    }
}

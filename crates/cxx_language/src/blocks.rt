//! Declarations in blocks (6.7).

ghost use Rattle.std.specs.Prelude.{false};
ghost use Rattle.cxx_language.specs.Blocks as definition;
ghost use Rattle.cxx_cursor.specs.Asking.{IsTreeKnown};
ghost use Rattle.cxx_cursor.specs.Reading.{IsRead};
ghost use Rattle.cxx_cursor.specs.Views.{AreSpecifiers, AreTreesHeld, IsDeclarator, declarator_of, specifiers_of, trees_held};
ghost use Rattle.cxx_tree.specs.Held.{meaning, tree};
ghost use Rattle.cxx_units.specs.Said.{IsDeclared, IsListed, IsListedTurn, IsSaid, listed_of, listed_turn, said_of};

use crate::declares::{Declares, Reader};
use crate::spaces::{local_alias_at, using_at};
use cxx_cursor::{Cursor, Declarator, Specifiers, Turn, is_keyword, is_punct, no_specifiers_yet};
use cxx_model::{Stop, TreeId, TreeIdList, TypeId, keyword, punct};
use cxx_reading::{Naming, SpecifierPlace};
use cxx_syntax::declared;
use cxx_tree::State;
use cxx_units::ends::nothing_declared;
use cxx_units::said::{Listed as ListedTrees, Said, said_by};
use cxx_units::types::is_function_type;
use cxx_units::{declaration_tree, declarator_ended, declared_fits, no_declarators};

impl<D: Declares> Reader<'_, D> {
    // What a declarator in a block declares.
    #[tactic(auto, using(cxx_cursor::proofs::Kept::later_refl, cxx_cursor::proofs::Kept::later_trans))]
    fn locally_declared(
        &self,
        state: &mut State,
        cursor: &mut Cursor<'_>,
        said: Said,
        from: &Cursor<'_>,
        declarator: Declarator,
        of: TypeId,
    ) -> Result<TreeId, Stop>
        requires { IsDeclared state.old said declarator of }
        ensures { IsRead tree IsTreeKnown state.old state.new cursor.new result (definition.locally_declared self.now.room (said_of state.old said) from.now (declarator_of state.old declarator) (meaning state.old) cursor.old) }
    {
        if said.is_typedef {
            return self.bare_synonym(state, cursor, said, from, declarator, of);
        }
        if is_function_type(state.types(), of) {
            return self.local_function(state, cursor, said, from, declarator, of);
        }
        if said.is_extern {
            return self.local_extern(state, cursor, said, from, declarator, of);
        }
        self.defined_object(state, cursor, said, from, declarator, of)
    }

    // A declarator that fits, with the type that it declares.
    #[tactic(auto, using(cxx_cursor::proofs::Kept::layers_kept, cxx_cursor::proofs::Kept::layers_later, cxx_cursor::proofs::Kept::trees_kept, cxx_cursor::proofs::Kept::trees_later, cxx_cursor::proofs::Kept::type_kept, cxx_cursor::proofs::Kept::type_later, cxx_cursor::proofs::Kept::later_refl, cxx_cursor::proofs::Kept::later_trans))]
    fn locally_declared_as(
        &self,
        state: &mut State,
        cursor: &mut Cursor<'_>,
        said: Said,
        from: &Cursor<'_>,
        declarator: Declarator,
    ) -> Result<TreeId, Stop>
        requires said { IsSaid state.old said }
        requires declarator { IsDeclarator state.old declarator }
        ensures { IsRead tree IsTreeKnown state.old state.new cursor.new result (definition.locally_declared self.now.room (said_of state.old said) from.now (declarator_of state.old declarator) (meaning state.old) cursor.old) }
    {
        match declared(state, declarator.layers.as_slice(), said.of) {
            Ok(of) => self.locally_declared(state, cursor, said, from, declarator, of),
            Err(_) => Err(Stop::OutOfMemory),
        }
    }

    #[tactic(auto, using(cxx_cursor::proofs::Kept::type_kept, cxx_cursor::proofs::Kept::type_later, cxx_cursor::proofs::Kept::later_refl, cxx_cursor::proofs::Kept::later_trans), unfolding(crate::specs::Blocks::local_declarator_at))]
    fn local_declarator_at(
        &self,
        state: &mut State,
        cursor: &mut Cursor<'_>,
        said: Said,
    ) -> Result<TreeId, Stop>
        requires { IsSaid state.old said }
        ensures { IsRead tree IsTreeKnown state.old state.new cursor.new result (definition.local_declarator_at self.now.room (said_of state.old said) (meaning state.old) cursor.old) }
    {
        let from = cursor.mark();
        let declarator = self
            .declares
            .declarator(state, cursor, Naming::Required, self.room)?;
        declared_fits(state, cursor, said, &declarator)?;
        self.locally_declared_as(state, cursor, said, &from, declarator)
    }

    // A declarator, and what separates it from the next.
    #[tactic(auto, using(cxx_cursor::proofs::Kept::trees_kept, cxx_cursor::proofs::Kept::trees_later, cxx_cursor::proofs::Kept::later_refl, cxx_cursor::proofs::Kept::later_trans), unfolding(crate::specs::Blocks::local_step))]
    fn local_step(
        &self,
        state: &mut State,
        cursor: &mut Cursor<'_>,
        said: Said,
        so_far: ListedTrees,
    ) -> Result<Turn<ListedTrees, TreeIdList>, Stop>
        requires said { IsSaid state.old said }
        requires listed { IsListed state.old so_far }
        ensures { IsRead listed_turn IsListedTurn state.old state.new cursor.new result (definition.local_step self.now.room (said_of state.old said) (listed_of state.old so_far) (meaning state.old) cursor.old) }
    {
        let number = self.local_declarator_at(state, cursor, said)?;
        declarator_ended(state, cursor, so_far, number)
    }

    // All declarators, with the end of their declaration.
    #[tactic(auto, using(cxx_cursor::proofs::Loops::turn, cxx_cursor::proofs::Loops::no_turn, cxx_cursor::proofs::Kept::type_kept, cxx_cursor::proofs::Kept::type_later, cxx_cursor::proofs::Kept::later_refl, cxx_cursor::proofs::Kept::later_trans), unfolding(crate::specs::Blocks::local_declarators_at))]
    fn local_declarators_at(
        &self,
        state: &mut State,
        cursor: &mut Cursor<'_>,
        said: Said,
    ) -> Result<TreeIdList, Stop>
        requires { IsSaid state.old said }
        ensures { IsRead trees_held AreTreesHeld state.old state.new cursor.new result (definition.local_declarators_at self.now.room (said_of state.old said) (meaning state.old) cursor.old) }
    {
        let mut so_far = no_declarators(cursor.alloc());
        for _turn in 0..cursor.count() {
            match self.local_step(state, cursor, said, so_far)? {
                Turn::More(next) => so_far = next,
                Turn::Done(all) => return Ok(all),
            }
        }
        Ok(so_far.trees)
    }

    #[tactic(auto, using(cxx_cursor::proofs::Kept::later_refl, cxx_cursor::proofs::Kept::later_trans), unfolding(crate::specs::Blocks::local_declarators_of))]
    fn local_declarators_of(
        &self,
        state: &mut State,
        cursor: &mut Cursor<'_>,
        specifiers: &Specifiers,
    ) -> Result<TreeIdList, Stop>
        requires { AreSpecifiers state.old specifiers.now }
        ensures { IsRead trees_held AreTreesHeld state.old state.new cursor.new result (definition.local_declarators_of self.now.room (specifiers_of state.old specifiers.now) (meaning state.old) cursor.old) }
    {
        if is_punct(punct::SEMICOLON, cursor.kind()) {
            return nothing_declared(state, cursor, specifiers);
        }
        let said = said_by(state, false, specifiers)?;
        self.local_declarators_at(state, cursor, said)
    }

    #[tactic(auto, using(cxx_cursor::proofs::Kept::named_kept, cxx_cursor::proofs::Kept::named_later, cxx_cursor::proofs::Kept::trees_kept, cxx_cursor::proofs::Kept::trees_later, cxx_cursor::proofs::Kept::later_refl, cxx_cursor::proofs::Kept::later_trans), unfolding(crate::specs::Blocks::simple_local_at))]
    fn simple_local_at(&self, state: &mut State, cursor: &mut Cursor<'_>) -> Result<TreeId, Stop>
        ensures { IsRead tree IsTreeKnown state.old state.new cursor.new result (definition.simple_local_at self.now.room (meaning state.old) cursor.old) }
    {
        let from = cursor.mark();
        let none = no_specifiers_yet(cursor.alloc());
        let specifiers = self
            .declares
            .specifiers(state, cursor, SpecifierPlace::Block, none, self.room)?;
        let between = cursor.mark();
        let declarators = self.local_declarators_of(state, cursor, &specifiers)?;
        declaration_tree(state, specifiers, declarators, &from, &between, cursor)
    }

    #[tactic(auto, unfolding(crate::specs::Blocks::local_declaration_at))]
    fn local_declaration_at(
        &self,
        state: &mut State,
        cursor: &mut Cursor<'_>,
    ) -> Result<TreeId, Stop>
        ensures { IsRead tree IsTreeKnown state.old state.new cursor.new result (definition.local_declaration_at self.now.room (meaning state.old) cursor.old) }
    {
        if is_keyword(keyword::NAMESPACE, cursor.kind()) {
            return local_alias_at(self.declares, state, cursor);
        }
        if is_keyword(keyword::USING, cursor.kind()) {
            return using_at(self.declares, state, cursor);
        }
        self.simple_local_at(state, cursor)
    }
}

/// A declaration in a block, with its end (6.7), with room for so many more brackets inside one another.
pub fn read_local_declaration<D: Declares>(
    declares: &D,
    state: &mut State,
    cursor: &mut Cursor<'_>,
    room: u32,
) -> Result<TreeId, Stop>
    ensures { IsRead tree IsTreeKnown state.old state.new cursor.new result (definition.local_declaration_at room (meaning state.old) cursor.old) }
{
    let reader = Reader { declares, room };
    reader.local_declaration_at(state, cursor)
}

//! The declarators of a declaration (8).

ghost use Rattle.std.specs.Prelude.{◌≡◌, ◌<◌, length};
ghost use Rattle.cxx_language.specs.Units as units;
ghost use Rattle.cxx_space.specs.Behind.{stood_again};
ghost use Rattle.cxx_space.specs.Parts.{agreed, declarator_apart, fitting_by, outside_by};
ghost use Rattle.cxx_space.specs.Views.{IsDeclaredKnown, declares_of};
ghost use Rattle.cxx_cursor.specs.Asking.{AnyKnown, itself};
ghost use Rattle.cxx_cursor.specs.Reading.{IsRead};
ghost use Rattle.cxx_cursor.specs.Views.{AreSpecifiers, AreTreesHeld, IsDeclarator, declarator_of, name_at, specifiers_of, trees_held};
ghost use Rattle.cxx_tree.specs.Held.{meaning, type_of};
ghost use Rattle.cxx_units.specs.Said.{IsDeclared, IsListed, IsListedTurn, IsSaid, listed_of, listed_turn, said_of};

use crate::bodies::{Declared, ended_by};
use crate::space::{Defines, Space};
use cxx_cursor::{Cursor, Declarator, NameToken, Specifiers, Turn, is_punct};
use cxx_model::{ScopeId, Stop, TreeIdList, TypeId, punct};
use cxx_reading::Naming;
use cxx_syntax::declared;
use cxx_tree::State;
use cxx_units::ends::nothing_declared;
use cxx_units::said::{Listed as ListedTrees, Said, said_by};
use cxx_units::trees::token_or;
use cxx_units::types::is_function_type;
use cxx_units::{declared_fits, no_declarators};

/// The scope where the reader stands.
#[tactic(auto, unfolding(cxx_tree::specs::Held::meaning))]
pub(crate) fn standing(state: &State) -> ScopeId
    ensures { result.0 ≡ (meaning state.now).here.scope }
{
    state.scope()
}

/// Whether the reader stands in the scope of a class (9.2).
#[tactic(auto, unfolding(cxx_tree::specs::Held::meaning))]
pub(crate) fn is_in_class(state: &State) -> bool
    ensures { result ≡ units.stands_in_class (meaning state.now) }
{
    match state.names().class_of_scope(state.graph(), state.scope()) {
        Some(_) => true,
        None => false,
    }
}

impl<D: Defines> Space<'_, D> {
    // The same with the name; whether a class has declared its function is asked when that is declared (9.3).
    #[tactic(auto, using(cxx_cursor::proofs::Kept::later_refl))]
    fn outside_agrees(
        &self,
        state: &State,
        cursor: &Cursor<'_>,
        said: Said,
        name: &NameToken,
        of: TypeId,
    ) -> Result<(), Stop>
        requires { of.0 < length (state.now).types }
        ensures { IsRead itself AnyKnown state.now state.now cursor.now result (outside_by said.is_typedef (name_at name.now) (type_of state.now of) (meaning state.now) cursor.now) }
    {
        let _ = cursor;
        if !said.is_typedef && (is_function_type(state.types(), of) && is_in_class(state)) {
            return Ok(());
        }
        self.declares.agree_here(state, said.is_typedef, name, of)
    }

    // What has qualifiers was declared before with the same type (8.3).
    #[tactic(auto, using(cxx_cursor::proofs::Kept::later_refl), unfolding(crate::specs::Parts::agreed))]
    fn member_agrees(
        &self,
        state: &State,
        cursor: &Cursor<'_>,
        said: Said,
        declarator: &Declarator,
        of: TypeId,
    ) -> Result<(), Stop>
        requires { IsDeclared state.now said declarator.now of }
        ensures { IsRead itself AnyKnown state.now state.now cursor.now result (agreed (said_of state.now said) (declarator_of state.now declarator.now) (meaning state.now) cursor.now) }
    {
        if !declarator.is_qualified {
            return Ok(());
        }
        match &declarator.name {
            Some(name) => self.outside_agrees(state, cursor, said, name, of),
            None => {
                let name = token_or(cursor.alloc(), None);
                self.outside_agrees(state, cursor, said, &name, of)
            }
        }
    }

    // A declarator that fits, given the type that it declares.
    #[tactic(auto, using(cxx_cursor::proofs::Kept::later_refl, cxx_cursor::proofs::Kept::later_trans))]
    fn declared_of(
        &self,
        state: &mut State,
        cursor: &mut Cursor<'_>,
        said: Said,
        is_first: bool,
        from: &Cursor<'_>,
        declarator: Declarator,
        of: TypeId,
    ) -> Result<Declared, Stop>
        requires { IsDeclared state.old said declarator of }
        ensures { IsRead declares_of IsDeclaredKnown state.old state.new cursor.new result (fitting_by self.now.room (said_of state.old said) is_first from.now (declarator_of state.old declarator) (meaning state.old) cursor.old) }
    {
        self.member_agrees(state, cursor, said, &declarator, of)?;
        self.declared_by(state, cursor, said, is_first, from, declarator, of)
    }

    // A declarator that fits, with the type that it declares.
    #[tactic(auto, using(cxx_cursor::proofs::Kept::layers_kept, cxx_cursor::proofs::Kept::layers_later, cxx_cursor::proofs::Kept::trees_kept, cxx_cursor::proofs::Kept::trees_later, cxx_cursor::proofs::Kept::type_kept, cxx_cursor::proofs::Kept::type_later, cxx_cursor::proofs::Kept::later_refl, cxx_cursor::proofs::Kept::later_trans))]
    fn declared_as(
        &self,
        state: &mut State,
        cursor: &mut Cursor<'_>,
        said: Said,
        is_first: bool,
        from: &Cursor<'_>,
        declarator: Declarator,
    ) -> Result<Declared, Stop>
        requires said { IsSaid state.old said }
        requires declarator { IsDeclarator state.old declarator }
        ensures { IsRead declares_of IsDeclaredKnown state.old state.new cursor.new result (fitting_by self.now.room (said_of state.old said) is_first from.now (declarator_of state.old declarator) (meaning state.old) cursor.old) }
    {
        match declared(state, declarator.layers.as_slice(), said.of) {
            Ok(of) => self.declared_of(state, cursor, said, is_first, from, declarator, of),
            Err(_) => Err(Stop::OutOfMemory),
        }
    }

    // Behind a declarator the reader stands where it stood before.
    fn stood_again(
        &self,
        state: &mut State,
        cursor: &Cursor<'_>,
        one: Declared,
        outside: ScopeId,
    ) -> Result<Declared, Stop>
        requires { IsDeclaredKnown state.old one }
        ensures { IsRead declares_of IsDeclaredKnown state.old state.new cursor.now result (stood_again outside.0 (declares_of state.old one) (meaning state.old) cursor.now) }
    {
        let _ = cursor;
        self.declares.stand_in(state, outside)?;
        Ok(one)
    }

    // A declarator with what stands behind it.
    #[tactic(auto, using(cxx_cursor::proofs::Kept::type_kept, cxx_cursor::proofs::Kept::type_later, cxx_cursor::proofs::Kept::later_refl, cxx_cursor::proofs::Kept::later_trans), unfolding(crate::specs::Parts::declarator_apart))]
    fn declarator_apart(
        &self,
        state: &mut State,
        cursor: &mut Cursor<'_>,
        said: Said,
        is_first: bool,
    ) -> Result<Declared, Stop>
        requires { IsSaid state.old said }
        ensures { IsRead declares_of IsDeclaredKnown state.old state.new cursor.new result (declarator_apart self.now.room (said_of state.old said) is_first (meaning state.old) cursor.old) }
    {
        let outside = standing(state);
        let from = cursor.mark();
        let declarator = self
            .declares
            .declarator(state, cursor, Naming::Qualified, self.room)?;
        declared_fits(state, cursor, said, &declarator)?;
        let one = self.declared_as(state, cursor, said, is_first, &from, declarator)?;
        self.stood_again(state, cursor, one, outside)
    }

    // The same, in the steps of its definition.
    #[tactic(auto, using(crate::proofs::Apart::apart_read))]
    fn init_declarator_at(
        &self,
        state: &mut State,
        cursor: &mut Cursor<'_>,
        said: Said,
        is_first: bool,
    ) -> Result<Declared, Stop>
        requires { IsSaid state.old said }
        ensures { IsRead declares_of IsDeclaredKnown state.old state.new cursor.new result (units.init_declarator_at self.now.room (said_of state.old said) is_first (meaning state.old) cursor.old) }
    {
        self.declarator_apart(state, cursor, said, is_first)
    }

    // A declarator, and what separates it from the next.
    #[tactic(auto, using(cxx_cursor::proofs::Kept::trees_kept, cxx_cursor::proofs::Kept::trees_later, cxx_cursor::proofs::Kept::later_refl, cxx_cursor::proofs::Kept::later_trans), unfolding(cxx_language::specs::Units::declarator_step))]
    fn declarator_step(
        &self,
        state: &mut State,
        cursor: &mut Cursor<'_>,
        said: Said,
        so_far: ListedTrees,
    ) -> Result<Turn<ListedTrees, TreeIdList>, Stop>
        requires said { IsSaid state.old said }
        requires listed { IsListed state.old so_far }
        ensures { IsRead listed_turn IsListedTurn state.old state.new cursor.new result (units.declarator_step self.now.room (said_of state.old said) (listed_of state.old so_far) (meaning state.old) cursor.old) }
    {
        let one = self.init_declarator_at(state, cursor, said, so_far.is_first)?;
        ended_by(state, cursor, so_far, one)
    }

    // All declarators, with the end of their declaration.
    #[tactic(auto, using(cxx_cursor::proofs::Loops::turn, cxx_cursor::proofs::Loops::no_turn, cxx_cursor::proofs::Kept::type_kept, cxx_cursor::proofs::Kept::type_later, cxx_cursor::proofs::Kept::later_refl, cxx_cursor::proofs::Kept::later_trans), unfolding(cxx_language::specs::Units::declarators_at))]
    fn declarators_at(
        &self,
        state: &mut State,
        cursor: &mut Cursor<'_>,
        said: Said,
    ) -> Result<TreeIdList, Stop>
        requires { IsSaid state.old said }
        ensures { IsRead trees_held AreTreesHeld state.old state.new cursor.new result (units.declarators_at self.now.room (said_of state.old said) (meaning state.old) cursor.old) }
    {
        let mut so_far = no_declarators(cursor.alloc());
        for _turn in 0..cursor.count() {
            match self.declarator_step(state, cursor, said, so_far)? {
                Turn::More(next) => so_far = next,
                Turn::Done(all) => return Ok(all),
            }
        }
        Ok(so_far.trees)
    }

    /// The declarators that stand behind specifiers, with the end of their declaration (clause 7).
    #[tactic(auto, using(cxx_cursor::proofs::Kept::later_refl, cxx_cursor::proofs::Kept::later_trans), unfolding(cxx_language::specs::Units::declarators_of))]
    pub(crate) fn declarators_of(
        &self,
        state: &mut State,
        cursor: &mut Cursor<'_>,
        counts_as_extern: bool,
        specifiers: &Specifiers,
    ) -> Result<TreeIdList, Stop>
        requires { AreSpecifiers state.old specifiers.now }
        ensures { IsRead trees_held AreTreesHeld state.old state.new cursor.new result (units.declarators_of self.now.room counts_as_extern (specifiers_of state.old specifiers.now) (meaning state.old) cursor.old) }
    {
        if is_punct(punct::SEMICOLON, cursor.kind()) {
            return nothing_declared(state, cursor, specifiers);
        }
        let said = said_by(state, counts_as_extern, specifiers)?;
        self.declarators_at(state, cursor, said)
    }
}

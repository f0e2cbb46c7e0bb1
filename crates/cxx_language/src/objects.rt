//! Objects, with what initializes them (8.5).

ghost use Rattle.std.specs.Prelude.{◌≡◌, ◌<◌, length, true, false};
ghost use Rattle.cxx_language.specs.Asked.{answers, inner_at, phrases_at};
ghost use Rattle.cxx_language.specs.Blocks as blocks;
ghost use Rattle.cxx_language.specs.Made as made;
ghost use Rattle.cxx_language.specs.Objects as definition;
ghost use Rattle.cxx_language.specs.Parts.{constant_by as constant_by_one, initialized_by as initialized_by_one};
ghost use Rattle.cxx_language.specs.Values as values;
ghost use Rattle.cxx_cursor.specs.Asking.{AnyKnown, IsTreeKnown, itself};
ghost use Rattle.cxx_cursor.specs.Reading.{IsRead};
ghost use Rattle.cxx_cursor.specs.Views.{AreTreesHeld, declarator_of, name_at, trees_held};
ghost use Rattle.cxx_tree.specs.Held.{meaning, tree, type_of};
ghost use Rattle.cxx_units.specs.Said.{IsDeclared, said_of};

use crate::declares::{Declares, Reader};
use crate::initializers::{begins_initializer, initializer_node, some_elements};
use crate::known::{constant_given, is_constant_type, note_known, type_known};
use cxx_answers::typed::type_so_far;
use cxx_constant::value_of_name;
use cxx_cursor::{Cursor, Declarator, NameToken, is_punct, joined};
use cxx_model::{FactId, FaultText, Listed, Stop, TreeId, TreeIdList, TypeId, punct};
use cxx_tree::State;
use cxx_units::ends::{complete_object, ends_declarator, synonym_ended, uninitialized};
use cxx_units::said::Said;
use cxx_units::trees::{declarator_tree, one_tree, token_or};
use cxx_units::types::is_const_type;

// Whether an object is a constant whose value is known already, as that of a member is which its class gives (9.4.2).
#[tactic(auto, unfolding(cxx_tree::specs::Held::meaning))]
fn is_given(state: &State, number: FactId, of: TypeId) -> bool
    requires { of.0 < length (state.now).types }
    ensures { result ≡ definition.is_given (meaning state.now) number.0 (type_of state.now of) }
{
    is_const_type(state.types(), of) && value_of_name(state.graph(), Some(number)).is_some()
}

// An object that has no initializer.
#[tactic(auto, using(cxx_cursor::proofs::Kept::later_refl), unfolding(crate::specs::Objects::without_initializer))]
fn without_initializer(
    state: &State,
    cursor: &Cursor<'_>,
    name: &NameToken,
    of: TypeId,
    number: FactId,
) -> Result<TreeIdList, Stop>
    requires { of.0 < length (state.now).types }
    ensures { IsRead trees_held AreTreesHeld state.now state.now cursor.now result (definition.without_initializer (name_at name.now) (type_of state.now of) number.0 (meaning state.now) cursor.now) }
{
    if is_given(state, number, of) {
        return Ok(Listed::new(cursor.alloc()));
    }
    uninitialized(state, cursor, name, type_so_far(state, number, of))
}

// An object that a block declares with `extern` has no initializer there (3.5, 6.7).
#[tactic(auto, using(cxx_cursor::proofs::Kept::later_refl), unfolding(crate::specs::Blocks::linked_ended))]
fn linked_ended(state: &State, cursor: &Cursor<'_>) -> Result<(), Stop>
    ensures { IsRead itself AnyKnown state.now state.now cursor.now result (blocks.linked_ended (meaning state.now) cursor.now) }
{
    if begins_initializer(cursor) {
        return Err(Stop::Fault(cursor.faulty(FaultText::OperandsDoNotFit)?));
    }
    synonym_ended(state, cursor)
}

impl<D: Declares> Reader<'_, D> {
    /// What the initializer of an object says, once it is known how it initializes it.
    #[tactic(auto, using(cxx_cursor::proofs::Kept::trees_kept, cxx_cursor::proofs::Kept::trees_later, cxx_cursor::proofs::Kept::type_kept, cxx_cursor::proofs::Kept::type_later, cxx_cursor::proofs::Kept::later_refl, cxx_cursor::proofs::Kept::later_trans))]
    pub(crate) fn initialized_by(
        &self,
        state: &mut State,
        cursor: &Cursor<'_>,
        name: &NameToken,
        of: TypeId,
        number: FactId,
        given: TreeId,
    ) -> Result<TreeIdList, Stop>
        requires of { of.0 < length (state.old).types }
        requires given { IsTreeKnown state.old given }
        ensures { IsRead trees_held AreTreesHeld state.old state.new cursor.now result (initialized_by_one (name_at name.now) (type_of state.old of) number.0 (tree state.old given) (meaning state.old) cursor.now) }
    {
        let known = type_known(state, of, given);
        some_elements(state, cursor, name, known)?;
        note_known(self.declares, state, name, number, of, given)?;
        Ok(one_tree(cursor.alloc(), given)?)
    }

    // From `=` or `(` on, of the object with a declaration.
    #[tactic(auto, using(cxx_cursor::proofs::Kept::trees_kept, cxx_cursor::proofs::Kept::trees_later, cxx_cursor::proofs::Kept::type_kept, cxx_cursor::proofs::Kept::type_later, cxx_cursor::proofs::Kept::later_refl, cxx_cursor::proofs::Kept::later_trans), unfolding(crate::specs::Objects::initialized_part))]
    fn initialized_part(
        &self,
        state: &mut State,
        cursor: &mut Cursor<'_>,
        name: &NameToken,
        of: TypeId,
        number: FactId,
    ) -> Result<TreeIdList, Stop>
        requires { of.0 < length (state.old).types }
        ensures { IsRead trees_held AreTreesHeld state.old state.new cursor.new result (definition.initialized_part answers (phrases_at self.now.room) (inner_at self.now.room).phrases (name_at name.now) (type_of state.old of) number.0 (meaning state.old) cursor.old) }
    {
        complete_object(state, cursor, name, of)?;
        let from = cursor.mark();
        let read = self.declares.initializer(state, cursor, self.room)?;
        let node = initializer_node(state, read, &from, cursor)?;
        let known = type_so_far(state, number, of);
        let given = self.declares.initialize(state, known, node)?;
        self.initialized_by(state, cursor, name, known, number, given)
    }

    // What the value of a member in its class says, once it is known how it initializes the member.
    #[tactic(auto, using(cxx_cursor::proofs::Kept::trees_kept, cxx_cursor::proofs::Kept::trees_later, cxx_cursor::proofs::Kept::type_kept, cxx_cursor::proofs::Kept::type_later, cxx_cursor::proofs::Kept::later_refl, cxx_cursor::proofs::Kept::later_trans))]
    fn constant_by(
        &self,
        state: &mut State,
        cursor: &Cursor<'_>,
        name: &NameToken,
        of: TypeId,
        number: FactId,
        given: TreeId,
    ) -> Result<TreeIdList, Stop>
        requires of { of.0 < length (state.old).types }
        requires given { IsTreeKnown state.old given }
        ensures { IsRead trees_held AreTreesHeld state.old state.new cursor.now result (constant_by_one (name_at name.now) (type_of state.old of) number.0 (tree state.old given) (meaning state.old) cursor.now) }
    {
        constant_given(self.declares, state, given)?;
        note_known(self.declares, state, name, number, of, given)?;
        Ok(one_tree(cursor.alloc(), given)?)
    }

    /// The value of a static constant in its class, from its `=` on (9.4.2).
    #[tactic(auto, using(cxx_cursor::proofs::Kept::trees_kept, cxx_cursor::proofs::Kept::trees_later, cxx_cursor::proofs::Kept::type_kept, cxx_cursor::proofs::Kept::type_later, cxx_cursor::proofs::Kept::later_refl, cxx_cursor::proofs::Kept::later_trans), unfolding(crate::specs::Values::constant_part))]
    fn constant_part(
        &self,
        state: &mut State,
        cursor: &mut Cursor<'_>,
        name: &NameToken,
        of: TypeId,
        number: FactId,
    ) -> Result<TreeIdList, Stop>
        requires { of.0 < length (state.old).types }
        ensures { IsRead trees_held AreTreesHeld state.old state.new cursor.new result (values.constant_part self.now.room (name_at name.now) (type_of state.old of) number.0 (meaning state.old) cursor.old) }
    {
        let from = cursor.mark();
        let read = self.declares.member_value(state, cursor, self.room)?;
        let node = initializer_node(state, read, &from, cursor)?;
        let given = self.declares.initialize(state, of, node)?;
        self.constant_by(state, cursor, name, of, number, given)
    }

    /// The value of a member in its class, where one may stand there and does (9.4.2).
    #[tactic(auto, using(cxx_cursor::proofs::Kept::later_refl), unfolding(crate::specs::Values::member_value))]
    pub fn member_value(
        &self,
        state: &mut State,
        cursor: &mut Cursor<'_>,
        is_static: bool,
        name: &NameToken,
        of: TypeId,
        number: FactId,
    ) -> Result<TreeIdList, Stop>
        requires { of.0 < length (state.old).types }
        ensures { IsRead trees_held AreTreesHeld state.old state.new cursor.new result (values.member_value self.now.room is_static (name_at name.now) (type_of state.old of) number.0 (meaning state.old) cursor.old) }
    {
        if is_static && (is_constant_type(state, of) && is_punct(punct::EQUALS, cursor.kind())) {
            return self.constant_part(state, cursor, name, of, number);
        }
        Ok(Listed::new(cursor.alloc()))
    }

    // Behind the name of an object that is defined.
    #[tactic(auto, using(cxx_cursor::proofs::Kept::later_refl, cxx_cursor::proofs::Kept::later_trans), unfolding(crate::specs::Objects::defined_part))]
    fn defined_part(
        &self,
        state: &mut State,
        cursor: &mut Cursor<'_>,
        name: &NameToken,
        of: TypeId,
        number: FactId,
    ) -> Result<TreeIdList, Stop>
        requires { of.0 < length (state.old).types }
        ensures { IsRead trees_held AreTreesHeld state.old state.new cursor.new result (definition.defined_part answers (phrases_at self.now.room) (inner_at self.now.room).phrases (name_at name.now) (type_of state.old of) number.0 (meaning state.old) cursor.old) }
    {
        if begins_initializer(cursor) {
            return self.initialized_part(state, cursor, name, of, number);
        }
        if ends_declarator(cursor.kind()) {
            return without_initializer(state, cursor, name, of, number);
        }
        Err(Stop::Fault(cursor.refused()?))
    }

    #[tactic(auto, using(cxx_cursor::proofs::Kept::type_kept, cxx_cursor::proofs::Kept::type_later, cxx_cursor::proofs::Kept::later_refl, cxx_cursor::proofs::Kept::later_trans), unfolding(crate::specs::Objects::defined_later))]
    fn defined_later(
        &self,
        state: &mut State,
        cursor: &mut Cursor<'_>,
        name: &NameToken,
        of: TypeId,
        number: FactId,
    ) -> Result<TreeIdList, Stop>
        requires { of.0 < length (state.old).types }
        ensures { IsRead trees_held AreTreesHeld state.old state.new cursor.new result (definition.defined_later answers (phrases_at self.now.room) (inner_at self.now.room).phrases (name_at name.now) (type_of state.old of) number.0 (meaning state.old) cursor.old) }
    {
        self.declares.define_declared(state, name, number)?;
        self.initialized_part(state, cursor, name, of, number)
    }

    // Behind the name of an object that is declared with `extern`, which an initializer defines (3.1).
    #[tactic(auto, using(cxx_cursor::proofs::Kept::later_refl, cxx_cursor::proofs::Kept::later_trans), unfolding(crate::specs::Objects::extern_part))]
    fn extern_part(
        &self,
        state: &mut State,
        cursor: &mut Cursor<'_>,
        name: &NameToken,
        of: TypeId,
        number: FactId,
    ) -> Result<TreeIdList, Stop>
        requires { of.0 < length (state.old).types }
        ensures { IsRead trees_held AreTreesHeld state.old state.new cursor.new result (definition.extern_part answers (phrases_at self.now.room) (inner_at self.now.room).phrases (name_at name.now) (type_of state.old of) number.0 (meaning state.old) cursor.old) }
    {
        if begins_initializer(cursor) {
            return self.defined_later(state, cursor, name, of, number);
        }
        if ends_declarator(cursor.kind()) {
            return Ok(Listed::new(cursor.alloc()));
        }
        Err(Stop::Fault(cursor.refused()?))
    }

    /// An object that is declared with `extern`.
    #[tactic(auto, using(cxx_cursor::proofs::Kept::trees_kept, cxx_cursor::proofs::Kept::trees_later, cxx_cursor::proofs::Kept::trees_append, cxx_cursor::proofs::Kept::trees_below_append, cxx_cursor::proofs::Kept::type_kept, cxx_cursor::proofs::Kept::type_later, cxx_cursor::proofs::Kept::later_refl, cxx_cursor::proofs::Kept::later_trans), unfolding(crate::specs::Made::extern_object))]
    pub fn extern_object(
        &self,
        state: &mut State,
        cursor: &mut Cursor<'_>,
        said: Said,
        from: &Cursor<'_>,
        declarator: Declarator,
        of: TypeId,
    ) -> Result<TreeId, Stop>
        requires { IsDeclared state.old said declarator of }
        ensures { IsRead tree IsTreeKnown state.old state.new cursor.new result (made.extern_object self.now.room (said_of state.old said) (declarator_of state.old declarator) from.now (meaning state.old) cursor.old) }
    {
        let name = token_or(cursor.alloc(), declarator.name);
        let number = self.declares.declare_object(state, &name, of)?;
        let parts = self.extern_part(state, cursor, &name, of, number)?;
        let parts = joined(declarator.parts, parts)?;
        declarator_tree(state, true, &name, of, number, parts, from, cursor)
    }

    /// An object that is defined.
    #[tactic(auto, using(cxx_cursor::proofs::Kept::trees_kept, cxx_cursor::proofs::Kept::trees_later, cxx_cursor::proofs::Kept::trees_append, cxx_cursor::proofs::Kept::trees_below_append, cxx_cursor::proofs::Kept::type_kept, cxx_cursor::proofs::Kept::type_later, cxx_cursor::proofs::Kept::later_refl, cxx_cursor::proofs::Kept::later_trans), unfolding(crate::specs::Made::defined_object))]
    pub fn defined_object(
        &self,
        state: &mut State,
        cursor: &mut Cursor<'_>,
        said: Said,
        from: &Cursor<'_>,
        declarator: Declarator,
        of: TypeId,
    ) -> Result<TreeId, Stop>
        requires { IsDeclared state.old said declarator of }
        ensures { IsRead tree IsTreeKnown state.old state.new cursor.new result (made.defined_object self.now.room (said_of state.old said) (declarator_of state.old declarator) from.now (meaning state.old) cursor.old) }
    {
        let name = token_or(cursor.alloc(), declarator.name);
        let number = self.declares.define_object(state, &name, of)?;
        let parts = self.defined_part(state, cursor, &name, of, number)?;
        let parts = joined(declarator.parts, parts)?;
        declarator_tree(state, false, &name, of, number, parts, from, cursor)
    }

    /// An object that a block declares with `extern` (3.5).
    #[tactic(auto, using(cxx_cursor::proofs::Kept::trees_kept, cxx_cursor::proofs::Kept::trees_later, cxx_cursor::proofs::Kept::type_kept, cxx_cursor::proofs::Kept::type_later, cxx_cursor::proofs::Kept::later_refl, cxx_cursor::proofs::Kept::later_trans), unfolding(crate::specs::Blocks::local_extern))]
    pub(crate) fn local_extern(
        &self,
        state: &mut State,
        cursor: &Cursor<'_>,
        said: Said,
        from: &Cursor<'_>,
        declarator: Declarator,
        of: TypeId,
    ) -> Result<TreeId, Stop>
        requires { IsDeclared state.old said declarator of }
        ensures { IsRead tree IsTreeKnown state.old state.new cursor.now result (blocks.local_extern (said_of state.old said) from.now (declarator_of state.old declarator) (meaning state.old) cursor.now) }
    {
        let _ = said;
        let name = token_or(cursor.alloc(), declarator.name);
        let number = self.declares.declare_linked_object(state, &name, of)?;
        linked_ended(state, cursor)?;
        declarator_tree(
            state,
            true,
            &name,
            of,
            number,
            declarator.parts,
            from,
            cursor,
        )
    }
}

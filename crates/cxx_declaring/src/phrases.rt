//! The expressions and the bodies that declarations hold, namespaces, and classes.

ghost use Rattle.cxx_language.specs.Asked.{inner_at, phrases_at};
ghost use Rattle.cxx_language.specs.Blocks as blocks;
ghost use Rattle.cxx_language.specs.Values.{constant_read};
ghost use Rattle.cxx_phrases.specs.Initializers.{copy_at, expression_at};
ghost use Rattle.cxx_phrases.specs.Views.{IsInitializer, initializer_of};
ghost use Rattle.cxx_cursor.specs.Asking.{IsTreeKnown};
ghost use Rattle.cxx_cursor.specs.Reading.{IsRead};
ghost use Rattle.cxx_tree.specs.Held.{meaning, tree};

use crate::declaring::Declaring;
use cxx_answers::{begin_later, end_later};
use cxx_body::{Phrasing, read_function_body};
use cxx_cursor::{Cursor, NameToken, Spelled, is_punct};
use cxx_declare as declare;
use cxx_declare::{BaseOf, MemberWords};
use cxx_heads::Head;
use cxx_knot::{condition_ahead, head_ahead, read_phrase};
use cxx_model::{
    ClassId, Cv, FactId, Form, Listed, Path, Place, ScopeId, Stop, TreeId, TypeId, punct,
};
use cxx_phrases::{Initializer, Level};
use cxx_space::Defines;
use cxx_tree::State;

#[tactic(auto, unfolding(cxx_language::specs::Answers::asking))]
fn phrase(
    declaring: &Declaring,
    state: &mut State,
    cursor: &mut Cursor<'_>,
    level: Level,
    room: u32,
) -> Result<TreeId, Stop>
    ensures { IsRead tree IsTreeKnown state.old state.new cursor.new result (expression_at (phrases_at room) (inner_at room).phrases level (meaning state.old) cursor.old) }
{
    read_phrase(declaring, state, cursor, level, room)
}

// The value of an object, behind `=` (8.5).
#[tactic(auto, using(cxx_cursor::proofs::Kept::later_refl), unfolding(cxx_phrases::specs::Initializers::copy_at))]
fn value_behind(
    declaring: &Declaring,
    state: &mut State,
    cursor: &mut Cursor<'_>,
    room: u32,
) -> Result<Initializer, Stop>
    ensures { IsRead initializer_of IsInitializer state.old state.new cursor.new result (copy_at (phrases_at room) (inner_at room).phrases (meaning state.old) cursor.old) }
{
    let number = phrase(declaring, state, cursor, Level::Assignment, room)?;
    let mut parts = Listed::new(cursor.alloc());
    parts.push(number)?;
    Ok(Initializer {
        form: Form::Copy,
        parts,
    })
}

/// The value of the object that a condition declares, from its `=` on (6.4).
#[tactic(auto, using(cxx_cursor::proofs::Kept::later_refl), unfolding(cxx_language::specs::Blocks::condition_value))]
pub(crate) fn condition_value(
    declaring: &Declaring,
    state: &mut State,
    cursor: &mut Cursor<'_>,
    room: u32,
) -> Result<Initializer, Stop>
    ensures { IsRead initializer_of IsInitializer state.old state.new cursor.new result (blocks.condition_value (phrases_at room) (inner_at room).phrases (meaning state.old) cursor.old) }
{
    if is_punct(punct::EQUALS, cursor.kind()) {
        cursor.advance();
        return value_behind(declaring, state, cursor, room);
    }
    Err(Stop::Fault(cursor.refused()?))
}

/// The value of a static constant in its class, from its `=` on (9.2).
#[tactic(auto, using(cxx_cursor::proofs::Kept::later_refl))]
pub(crate) fn member_value(
    declaring: &Declaring,
    state: &mut State,
    cursor: &mut Cursor<'_>,
    room: u32,
) -> Result<Initializer, Stop>
    ensures { IsRead initializer_of IsInitializer state.old state.new cursor.new result (constant_read (phrases_at room) (inner_at room).phrases (meaning state.old) cursor.old) }
{
    cursor.advance();
    let number = phrase(declaring, state, cursor, Level::Constant, room)?;
    let mut parts = Listed::new(cursor.alloc());
    parts.push(number)?;
    Ok(Initializer {
        form: Form::Copy,
        parts,
    })
}

impl Phrasing for Declaring {
    #[tactic(auto, unfolding(cxx_language::specs::Answers::asking))]
    fn head(&self, state: &mut State, cursor: &Cursor<'_>, room: u32) -> Result<Head, Stop> {
        head_ahead(self, state, cursor, room)
    }

    #[tactic(auto, unfolding(cxx_language::specs::Answers::asking))]
    fn is_condition(
        &self,
        state: &mut State,
        cursor: &Cursor<'_>,
        room: u32,
    ) -> Result<bool, Stop> {
        condition_ahead(self, state, cursor, room)
    }

    fn phrase(
        &self,
        state: &mut State,
        cursor: &mut Cursor<'_>,
        level: Level,
        room: u32,
    ) -> Result<TreeId, Stop> {
        phrase(self, state, cursor, level, room)
    }
}

impl Defines for Declaring {
    fn body(
        &self,
        state: &mut State,
        cursor: &mut Cursor<'_>,
        name: &NameToken,
        of: TypeId,
        number: FactId,
        list: ScopeId,
        room: u32,
    ) -> Result<TreeId, Stop> {
        read_function_body(self, state, cursor, name, of, number, list, room)
    }

    fn open_space(&self, state: &mut State, name: Spelled<'_>) -> Result<(), Stop> {
        declare::open_space(state, name.place, name.spelling)
    }

    #[tactic(auto, using(crate::proofs::Answering::asked))]
    fn open_unnamed(&self, state: &mut State, place: Place) -> Result<(), Stop> {
        declare::open_unnamed(state, place)
    }

    #[tactic(auto, using(crate::proofs::Answering::asked))]
    fn close_space(&self, state: &mut State) -> Result<(), Stop> {
        declare::close_space(state)
    }

    fn begin_class(
        &self,
        state: &mut State,
        is_union: bool,
        name: &NameToken,
    ) -> Result<ClassId, Stop> {
        declare::begin_class(state, is_union, name.place, name.spelling.as_slice())
    }

    #[tactic(auto, using(crate::proofs::Answering::asked))]
    fn enter_class(&self, state: &mut State, path: &Path) -> Result<(), Stop> {
        declare::enter_class(state, path)
    }

    #[tactic(auto, using(crate::proofs::Answering::asked))]
    fn begin_unnamed(
        &self,
        state: &mut State,
        is_union: bool,
        place: Place,
    ) -> Result<ClassId, Stop> {
        declare::begin_unnamed(state, is_union, place)
    }

    #[tactic(auto, using(crate::proofs::Answering::asked))]
    fn declare_base(&self, state: &mut State, of: BaseOf, path: &Path) -> Result<(), Stop> {
        declare::declare_base(state, of, path)
    }

    fn declare_member(
        &self,
        state: &mut State,
        words: MemberWords,
        list: Option<ScopeId>,
        name: &NameToken,
        of: TypeId,
    ) -> Result<FactId, Stop> {
        let word = name.spelling.as_slice();
        declare::declare_member(state, words, list, name.place, word, of)
    }

    fn befriend_function(
        &self,
        state: &mut State,
        scope: ScopeId,
        list: Option<ScopeId>,
        name: &NameToken,
        of: TypeId,
    ) -> Result<FactId, Stop> {
        let word = name.spelling.as_slice();
        declare::befriend_function(state, scope, list, name.place, word, of)
    }

    fn befriend_again(
        &self,
        state: &mut State,
        scope: ScopeId,
        name: &NameToken,
        cv: Cv,
        of: TypeId,
    ) -> Result<FactId, Stop> {
        let word = name.spelling.as_slice();
        declare::befriend_again(state, scope, name.place, word, cv, of)
    }

    #[tactic(auto, using(crate::proofs::Answering::asked))]
    fn befriend_class(&self, state: &mut State, is_union: bool, path: &Path) -> Result<(), Stop> {
        declare::befriend_class(state, path, is_union)
    }

    #[tactic(auto, using(crate::proofs::Answering::asked, cxx_cursor::proofs::Kept::later_refl))]
    fn end_class(&self, state: &mut State, class: ClassId, place: Place) -> Result<(), Stop> {
        // No reader asks for the end of a class that did not begin.
        if class.0 >= state.graph().class_count() {
            return Err(Stop::OutOfMemory);
        }
        declare::end_class(state, class, place)
    }

    #[tactic(auto, using(crate::proofs::Answering::asked))]
    fn begin_later(&self, state: &mut State) -> Result<(), Stop> {
        begin_later(state)
    }

    fn default_value(
        &self,
        state: &mut State,
        cursor: &mut Cursor<'_>,
        room: u32,
    ) -> Result<TreeId, Stop> {
        phrase(self, state, cursor, Level::Assignment, room)
    }

    #[tactic(auto, using(crate::proofs::Answering::asked))]
    fn end_later(
        &self,
        state: &mut State,
        equals: Place,
        declaration: Option<FactId>,
        index: u32,
        of: TypeId,
        number: TreeId,
    ) -> Result<(), Stop> {
        end_later(state.alloc(), state, equals, declaration, index, of, number)
    }
}

//! Who reads the bodies of functions and the default arguments in classes, opens namespaces and defines classes.

ghost use Rattle.std.specs.Prelude.{◌<◌, length};
ghost use Rattle.cxx_answers.specs.Defaults as defaults;
ghost use Rattle.cxx_declare.specs.Based.{base_of};
ghost use Rattle.cxx_declare.specs.Bases as bases;
ghost use Rattle.cxx_declare.specs.ClassDefinitions as classes;
ghost use Rattle.cxx_declare.specs.Friends as friends;
ghost use Rattle.cxx_declare.specs.OutsideClasses as outside;
ghost use Rattle.cxx_language.specs.Asked.{inner_at, phrases_at};
ghost use Rattle.cxx_language.specs.Bodies.{function_body};
ghost use Rattle.cxx_phrases.specs.Levels.{assignment_at};
ghost use Rattle.cxx_reading.specs.Spaces as spaces;
ghost use Rattle.cxx_cursor.specs.Asking.{AnyKnown, IsAsked, IsTreeKnown, itself};
ghost use Rattle.cxx_cursor.specs.Reading.{IsRead};
ghost use Rattle.cxx_cursor.specs.Views.{lexeme_at, name_at};
ghost use Rattle.cxx_tree.specs.Answered.{IsClassKnown, class_number, fact_number, scope_of_option};
ghost use Rattle.cxx_tree.specs.Arena.{number_of_option, path_at};
ghost use Rattle.cxx_tree.specs.Held.{meaning, tree, trees, type_of};

use cxx_cursor::{Cursor, NameToken, Spelled};
use cxx_declare::{BaseOf, MemberWords};
use cxx_language::Declares;
use cxx_model::{ClassId, Cv, FactId, Path, Place, ScopeId, Stop, TreeId, TypeId};
use cxx_tree::State;

/// Who reads the bodies of functions and the default arguments in classes, opens namespaces and defines classes too.
pub trait Defines: Declares {
    /// The body of the function with a declaration, whose list of parameters has a scope, from its `{` on (8.4).
    fn body(
        &self,
        state: &mut State,
        cursor: &mut Cursor<'_>,
        name: &NameToken,
        of: TypeId,
        number: FactId,
        list: ScopeId,
        room: u32,
    ) -> Result<TreeId, Stop>
        requires { of.0 < length (state.old).types }
        ensures { IsRead tree IsTreeKnown state.old state.new cursor.new result (function_body room (name_at name.now) (type_of state.old of) number.0 list.0 (meaning state.old) cursor.old) };

    /// A namespace begins, at its name (7.3.1).
    fn open_space(&self, state: &mut State, name: Spelled<'_>) -> Result<(), Stop>
        ensures { IsAsked itself AnyKnown state.old state.new result (spaces.open_space (lexeme_at name.entry) (meaning state.old)) };

    /// An unnamed namespace begins, at the word `namespace` (7.3.1.1).
    fn open_unnamed(&self, state: &mut State, place: Place) -> Result<(), Stop>
        ensures { IsAsked itself AnyKnown state.old state.new result (spaces.open_unnamed place (meaning state.old)) };

    /// A namespace ends.
    fn close_space(&self, state: &mut State) -> Result<(), Stop>
        ensures { IsAsked itself AnyKnown state.old state.new result (spaces.close_space (meaning state.old)) };

    /// The definition of a class begins, at its name (3.3.1, clause 9): its number.
    fn begin_class(
        &self,
        state: &mut State,
        is_union: bool,
        name: &NameToken,
    ) -> Result<ClassId, Stop>
        ensures { IsAsked class_number IsClassKnown state.old state.new result (classes.begin_class is_union (name_at name.now) (meaning state.old)) };

    /// The name of a class that is defined, with qualifiers, means one in what declares it, where the reader stands then (clause
    /// 9, 3.4.3).
    fn enter_class(&self, state: &mut State, path: &Path) -> Result<(), Stop>
        ensures { IsAsked itself AnyKnown state.old state.new result (outside.enter_class (path_at path.now) (meaning state.old)) };

    /// The definition of a class without a name begins, at its key (clause 9): its number.
    fn begin_unnamed(
        &self,
        state: &mut State,
        is_union: bool,
        place: Place,
    ) -> Result<ClassId, Stop>
        ensures { IsAsked class_number IsClassKnown state.old state.new result (classes.begin_unnamed is_union place (meaning state.old)) };

    /// A name stands for a base of a class (10).
    fn declare_base(&self, state: &mut State, of: BaseOf, path: &Path) -> Result<(), Stop>
        ensures { IsAsked itself AnyKnown state.old state.new result (bases.declare_base (base_of of) (path_at path.now) (meaning state.old)) };

    /// A member (9.2), with what is said of it besides its name and its type, and the scope of the list of parameters that its
    /// declarator has.
    fn declare_member(
        &self,
        state: &mut State,
        words: MemberWords,
        list: Option<ScopeId>,
        name: &NameToken,
        of: TypeId,
    ) -> Result<FactId, Stop>
        requires { of.0 < length (state.old).types }
        ensures { IsAsked fact_number AnyKnown state.old state.new result (classes.declare_member words (scope_of_option list) (name_at name.now) (type_of state.old of) (meaning state.old)) };

    /// The class in whose scope the reader stands befriends a function whose name has no qualifiers, which is declared in the
    /// innermost namespace round it (11.4, 7.3.1.2 p3), with the scope of the list of parameters that its declarator has. The
    /// reader stands in the given scope then.
    fn befriend_function(
        &self,
        state: &mut State,
        scope: ScopeId,
        list: Option<ScopeId>,
        name: &NameToken,
        of: TypeId,
    ) -> Result<FactId, Stop>
        requires { of.0 < length (state.old).types }
        ensures { IsAsked fact_number AnyKnown state.old state.new result (friends.befriend_function scope.0 (scope_of_option list) (name_at name.now) (type_of state.old of) (meaning state.old)) };

    /// The class in a given scope befriends a function whose name has qualifiers, which is declared again where the reader
    /// stands (11.4, 8.3), with the words behind its parameters. The reader stands in the given scope then.
    fn befriend_again(
        &self,
        state: &mut State,
        scope: ScopeId,
        name: &NameToken,
        cv: Cv,
        of: TypeId,
    ) -> Result<FactId, Stop>
        requires { of.0 < length (state.old).types }
        ensures { IsAsked fact_number AnyKnown state.old state.new result (friends.befriend_again scope.0 (name_at name.now) cv (type_of state.old of) (meaning state.old)) };

    /// The class in whose scope the reader stands befriends the class that a name behind its key means (11.4).
    fn befriend_class(&self, state: &mut State, is_union: bool, path: &Path) -> Result<(), Stop>
        ensures { IsAsked itself AnyKnown state.old state.new result (friends.befriend_class is_union (path_at path.now) (meaning state.old)) };

    /// The definition of a class ends, at the place of its name (9.2, 12.1).
    fn end_class(&self, state: &mut State, class: ClassId, place: Place) -> Result<(), Stop>
        ensures { IsAsked itself AnyKnown state.old state.new result (classes.end_class class.0 place (meaning state.old)) };

    /// A default argument that was passed over in a class begins to be read (8.3.6, 9.2 p2).
    fn begin_later(&self, state: &mut State) -> Result<(), Stop>
        ensures { IsAsked itself AnyKnown state.old state.new result (defaults.begin_later (meaning state.old)) };

    /// The expression of a default argument, from behind its `=` on (8.3.6).
    fn default_value(
        &self,
        state: &mut State,
        cursor: &mut Cursor<'_>,
        room: u32,
    ) -> Result<TreeId, Stop>
        ensures { IsRead tree IsTreeKnown state.old state.new cursor.new result (assignment_at (phrases_at room) (inner_at room).phrases (meaning state.old) cursor.old) };

    /// A default argument that was passed over was read, of the parameter with an index and a type: it is converted at its `=`,
    /// and given by the declaration of its function, where that tells it.
    fn end_later(
        &self,
        state: &mut State,
        equals: Place,
        declaration: Option<FactId>,
        index: u32,
        of: TypeId,
        number: TreeId,
    ) -> Result<(), Stop>
        requires of { of.0 < length (state.old).types }
        requires number { number.0 < length (trees state.old) }
        ensures { IsAsked itself AnyKnown state.old state.new result (defaults.end_later equals (number_of_option declaration) index (type_of state.old of) (tree state.old number) (meaning state.old)) };
}

/// A reader of declarations with room for so many more brackets and braces.
#[derive_where(Clone, Copy)]
pub(crate) struct Space<'d, D> {
    pub declares: &'d D,
    pub room: u32,
}

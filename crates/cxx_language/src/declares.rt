//! Who reads what a declaration is made of, and answers for the declarations so far.

ghost use Rattle.std.specs.Prelude.{◌≡◌, ◌<◌, length, IfOk};
ghost use Rattle.cxx_constant.specs.Constants.{constant};
ghost use Rattle.cxx_declare.specs.Functions.{declare_function};
ghost use Rattle.cxx_expr.specs.Initializing.{initialize};
ghost use Rattle.cxx_expr.specs.Nodes.{IsNodeHeld, node_tree};
ghost use Rattle.cxx_language.specs.Known.{value_of};
ghost use Rattle.cxx_model.specs.Facts.Graph.{scopes};
ghost use Rattle.cxx_language.specs.Asked.{answers, asked, inner_at, phrases_at};
ghost use Rattle.cxx_answers.specs.Answers.{constant_here};
ghost use Rattle.cxx_language.specs.Blocks as blocks;
ghost use Rattle.cxx_language.specs.Values as values;
ghost use Rattle.cxx_phrases.specs.Initializers.{initializer_at};
ghost use Rattle.cxx_phrases.specs.Views.{IsInitializer, initializer_of};
ghost use Rattle.cxx_reading.specs.Declaring as definition;
ghost use Rattle.cxx_declare.specs.Outside as members;
ghost use Rattle.cxx_reading.specs.Spaces as spaces;
ghost use Rattle.cxx_reading.specs.Specifiers.{specifiers_from};
ghost use Rattle.cxx_reading.specs.Syntax.{declarator_at};
ghost use Rattle.cxx_declare.specs.MemberUsings as member_usings;
ghost use Rattle.cxx_reading.specs.Usings as usings;
ghost use Rattle.cxx_cursor.specs.Asking.{AnyKnown, IsAsked, IsTreeKnown, itself, scope_number};
ghost use Rattle.cxx_cursor.specs.Reading.{IsRead};
ghost use Rattle.cxx_cursor.specs.Views.{AreSpecifiers, IsDeclarator, declarator_of, lexeme_at, name_at, specifiers_of};
ghost use Rattle.cxx_tree.specs.Answered.{IsScopeKnown, fact_number, scope_of_option};
ghost use Rattle.cxx_tree.specs.Arena.{path_at};
ghost use Rattle.cxx_tree.specs.Held.{meaning, tree, trees, type_of};

use cxx_cursor::{Cursor, Declarator, NameToken, Specifiers, Spelled};
use cxx_model::{
    Access, Cv, FactId, Node, OutOfMemory, Path, Place, ScopeId, Stop, TreeId, TypeId,
};
use cxx_phrases::Initializer;
use cxx_reading::{Naming, SpecifierPlace};
use cxx_tree::State;

/// Who reads specifiers, declarators and initializers, declares names, and says what expressions mean and what their values
/// are. What a reader takes is room for so many brackets inside one another.
pub trait Declares {
    /// The specifiers of a declaration behind those that were read (7.1), by where it stands.
    fn specifiers(
        &self,
        state: &mut State,
        cursor: &mut Cursor<'_>,
        place: SpecifierPlace,
        so_far: Specifiers,
        room: u32,
    ) -> Result<Specifiers, Stop>
        requires { AreSpecifiers state.old so_far }
        ensures { IsRead specifiers_of AreSpecifiers state.old state.new cursor.new result (specifiers_from (asked room).kinds (inner_at room).types place (specifiers_of state.old so_far) (meaning state.old) cursor.old) };

    /// A declarator (8), by which names it may have.
    fn declarator(
        &self,
        state: &mut State,
        cursor: &mut Cursor<'_>,
        naming: Naming,
        room: u32,
    ) -> Result<Declarator, Stop>
        ensures { IsRead declarator_of IsDeclarator state.old state.new cursor.new result (declarator_at (asked room).kinds (inner_at room).types naming (meaning state.old) cursor.old) };

    /// An initializer, from its `=` or `(` on (8.5).
    fn initializer(
        &self,
        state: &mut State,
        cursor: &mut Cursor<'_>,
        room: u32,
    ) -> Result<Initializer, Stop>
        ensures { IsRead initializer_of IsInitializer state.old state.new cursor.new result (initializer_at (phrases_at room) (inner_at room).phrases (meaning state.old) cursor.old) };

    /// The value of the object that a condition declares, from its `=` on (6.4).
    fn condition_value(
        &self,
        state: &mut State,
        cursor: &mut Cursor<'_>,
        room: u32,
    ) -> Result<Initializer, Stop>
        ensures { IsRead initializer_of IsInitializer state.old state.new cursor.new result (blocks.condition_value (phrases_at room) (inner_at room).phrases (meaning state.old) cursor.old) };

    /// The value of a static constant in its class, from its `=` on (9.2).
    fn member_value(
        &self,
        state: &mut State,
        cursor: &mut Cursor<'_>,
        room: u32,
    ) -> Result<Initializer, Stop>
        ensures { IsRead initializer_of IsInitializer state.old state.new cursor.new result (values.constant_read (phrases_at room) (inner_at room).phrases (meaning state.old) cursor.old) };

    /// An expression has to be an integral constant expression (5.19).
    fn constant(&self, state: &mut State, number: TreeId) -> Result<(), Stop>
        requires { number.0 < length (trees state.old) }
        ensures { IsAsked itself AnyKnown state.old state.new result (values.told_constant (constant_here (tree state.old number) (meaning state.old))) };

    /// How an object of a type is initialized, by the node of its initializer as it was read (8.5).
    fn initialize(&self, state: &mut State, of: TypeId, node: Node) -> Result<TreeId, Stop>
        requires of { of.0 < length (state.old).types }
        requires node { IsNodeHeld state.old node }
        ensures { IsAsked tree IsTreeKnown state.old state.new result (initialize answers (type_of state.old of) (node_tree state.old node) (meaning state.old)) };

    /// The value of an integral constant expression, where it is one and has a value (5.19).
    fn value(&self, state: &State, number: TreeId) -> Result<Option<i128>, OutOfMemory>
        requires { number.0 < length (trees state.now) }
        ensures { IfOk result (λ value. value ≡ value_of (constant (meaning state.now).graph (tree state.now number))) };

    /// A synonym of a type (7.1.3).
    fn declare_synonym(
        &self,
        state: &mut State,
        name: &NameToken,
        of: TypeId,
    ) -> Result<FactId, Stop>
        requires { of.0 < length (state.old).types }
        ensures { IsAsked fact_number AnyKnown state.old state.new result (definition.declare_synonym (name_at name.now) (type_of state.old of) (meaning state.old)) };

    /// A function (8.3.5), with the scope of the list of parameters that its declarator has.
    fn declare_function(
        &self,
        state: &mut State,
        list: Option<ScopeId>,
        name: &NameToken,
        of: TypeId,
    ) -> Result<FactId, Stop>
        requires { of.0 < length (state.old).types }
        ensures { IsAsked fact_number AnyKnown state.old state.new result (declare_function (scope_of_option list) (name_at name.now) (type_of state.old of) (meaning state.old)) };

    /// A function of the class in whose scope the reader stands, which is declared again (9.3), with the words behind its
    /// parameters.
    fn declare_again(
        &self,
        state: &mut State,
        name: &NameToken,
        cv: Cv,
        of: TypeId,
    ) -> Result<FactId, Stop>
        requires { of.0 < length (state.old).types }
        ensures { IsAsked fact_number AnyKnown state.old state.new result (members.declare_again (name_at name.now) cv (type_of state.old of) (meaning state.old)) };

    /// An object that is declared, and not defined (3.1).
    fn declare_object(
        &self,
        state: &mut State,
        name: &NameToken,
        of: TypeId,
    ) -> Result<FactId, Stop>
        requires { of.0 < length (state.old).types }
        ensures { IsAsked fact_number AnyKnown state.old state.new result (definition.declare_object (name_at name.now) (type_of state.old of) (meaning state.old)) };

    /// An object that a block declares with `extern` (3.5).
    fn declare_linked_object(
        &self,
        state: &mut State,
        name: &NameToken,
        of: TypeId,
    ) -> Result<FactId, Stop>
        requires { of.0 < length (state.old).types }
        ensures { IsAsked fact_number AnyKnown state.old state.new result (definition.declare_linked_object (name_at name.now) (type_of state.old of) (meaning state.old)) };

    /// An object that is defined, once (3.2).
    fn define_object(&self, state: &mut State, name: &NameToken, of: TypeId) -> Result<FactId, Stop>
        requires { of.0 < length (state.old).types }
        ensures { IsAsked fact_number AnyKnown state.old state.new result (definition.define_object (name_at name.now) (type_of state.old of) (meaning state.old)) };

    /// What was declared is defined by the initializer or the body that follows (3.1).
    fn define_declared(
        &self,
        state: &mut State,
        name: &NameToken,
        number: FactId,
    ) -> Result<(), Stop>
        ensures { IsAsked itself AnyKnown state.old state.new result (definition.define_declared (name_at name.now) number.0 (meaning state.old)) };

    /// The namespace that a name means (3.4.6).
    fn space_here(&self, state: &mut State, path: &Path) -> Result<ScopeId, Stop>
        ensures { IsAsked scope_number IsScopeKnown state.old state.new result (spaces.space_here (path_at path.now) (meaning state.old)) };

    /// Another name of a namespace (7.3.2).
    fn declare_alias(
        &self,
        state: &mut State,
        name: Spelled<'_>,
        inner: ScopeId,
    ) -> Result<(), Stop>
        requires { inner.0 < scopes (state.old).graph.facts }
        ensures { IsAsked itself AnyKnown state.old state.new result (spaces.declare_alias (lexeme_at name.entry) inner.0 (meaning state.old)) };

    /// A using-directive (7.3.4), at the name of the namespace that it nominates.
    fn declare_directive(&self, state: &mut State, place: Place, inner: ScopeId) -> Result<(), Stop>
        requires { inner.0 < scopes (state.old).graph.facts }
        ensures { IsAsked itself AnyKnown state.old state.new result (spaces.declare_directive place inner.0 (meaning state.old)) };

    /// What a name means in its namespace is declared where the reader stands (7.3.3).
    fn bring_here(&self, state: &mut State, path: &Path) -> Result<(), Stop>
        ensures { IsAsked itself AnyKnown state.old state.new result (usings.bring_here (path_at path.now) (meaning state.old)) };

    /// What a name means in the class before it is declared in the class where the reader stands, with an access (7.3.3, 11.1).
    fn bring_member(&self, state: &mut State, label: Access, path: &Path) -> Result<(), Stop>
        ensures { IsAsked itself AnyKnown state.old state.new result (member_usings.bring_member label (path_at path.now) (meaning state.old)) };

    /// Whether the namespace where the reader stands has declared a member with a type, or a synonym of it (8.3).
    fn agree_here(
        &self,
        state: &State,
        is_typedef: bool,
        name: &NameToken,
        of: TypeId,
    ) -> Result<(), Stop>
        requires { of.0 < length (state.now).types }
        ensures { IsAsked itself AnyKnown state.now state.now result (members.agree_here is_typedef (name_at name.now) (type_of state.now of) (meaning state.now)) };

    /// The reader stands in a scope where it stood before.
    fn stand_in(&self, state: &mut State, scope: ScopeId) -> Result<(), Stop>
        ensures { IsAsked itself AnyKnown state.old state.new result (members.stand_in scope.0 (meaning state.old)) };
}

/// A reader with room for so many more brackets and statements inside one another.
#[derive_where(Clone, Copy)]
pub struct Reader<'d, D> {
    pub declares: &'d D,
    pub room: u32,
}

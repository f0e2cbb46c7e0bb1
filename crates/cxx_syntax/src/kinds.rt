ghost use Rattle.std.specs.Prelude.{ℕ, ◌<◌, length};
ghost use Rattle.cxx_reading.specs.Kinds as definition;
ghost use Rattle.cxx_reading.specs.State.{CxxState};
ghost use Rattle.cxx_reading.specs.Tokens.{path_ahead};
ghost use Rattle.cxx_cursor.specs.Asking.{AnyKnown, IsAsked, IsConstantKnown, IsEnumeration, IsTypeKnown, enumeration_number, itself, scope_number};
ghost use Rattle.cxx_cursor.specs.Views.{lexeme_at, name_of_option};
ghost use Rattle.cxx_tree.specs.Arena.{path_at};
ghost use Rattle.cxx_tree.specs.Held.{meaning, tree, trees, type_of};

use cxx_cursor::{Cursor, NameToken, Spelled};
use cxx_model::{EnumId, Kind, Path, Place, ScopeId, Stop, TreeId, TypeId};
use cxx_tree::State;

/// What a reader of tokens asks of its user. `asks` is the definition that the answers follow; it may depend on how many
/// more brackets there may be, which is `room`.
pub trait Kinds {
    ghost asks: { Self → ℕ → definition.Kinds CxxState };

    ghost is_ready: { Self → Type 0 };

    /// What the name ahead is to a reader (3.4).
    fn kind(&self, state: &mut State, ahead: &Cursor<'_>, room: u32) -> Result<Kind, Stop>
        requires { is_ready self.now }
        ensures { IsAsked itself AnyKnown state.old state.new result ((asks self.now room).kind (path_ahead ahead.now) (meaning state.old)) };

    /// The type that a name of that kind names (7.1.5.2).
    fn type_named(&self, state: &mut State, ahead: &Cursor<'_>, room: u32) -> Result<TypeId, Stop>
        requires { is_ready self.now }
        ensures { IsAsked type_of IsTypeKnown state.old state.new result ((asks self.now room).type_named (path_ahead ahead.now) (meaning state.old)) };

    /// The type that a name behind `enum` names (7.1.5.3).
    fn elaborated(&self, state: &mut State, ahead: &Cursor<'_>, room: u32) -> Result<TypeId, Stop>
        requires { is_ready self.now }
        ensures { IsAsked type_of IsTypeKnown state.old state.new result ((asks self.now room).elaborated (path_ahead ahead.now) (meaning state.old)) };

    /// The class that a name behind `class`, `struct` or `union` means (3.4.4, 7.1.5.3), by whether the key is that of a
    /// union, and whether the key and the name are all of their declaration, which declares the class then (3.3.1).
    fn class_named(
        &self,
        state: &mut State,
        path: &Path,
        is_union: bool,
        is_all: bool,
        room: u32,
    ) -> Result<TypeId, Stop>
        requires { is_ready self.now }
        ensures { IsAsked type_of IsTypeKnown state.old state.new result ((asks self.now room).class_named is_union is_all (path_at path.now) (meaning state.old)) };

    /// A declarator has a name with qualifiers: it declares a member of their namespace, and what stands behind the name is
    /// read there (8.3).
    fn entered(&self, state: &mut State, ahead: &Cursor<'_>, room: u32) -> Result<(), Stop>
        requires { is_ready self.now }
        ensures { IsAsked itself AnyKnown state.old state.new result ((asks self.now room).entered (path_ahead ahead.now) (meaning state.old)) };

    /// An enumeration begins, with the place of its name or of `enum` (7.2). It answers its number and that of its type.
    fn enumeration(
        &self,
        state: &mut State,
        name: &Option<NameToken>,
        place: Place,
        room: u32,
    ) -> Result<(EnumId, TypeId), Stop>
        requires { is_ready self.now }
        ensures { IsAsked enumeration_number IsEnumeration state.old state.new result ((asks self.now room).enumeration (name_of_option name.now) place (meaning state.old)) };

    /// An enumerator, with the value that is written, where one is (7.2).
    fn enumerator(
        &self,
        state: &mut State,
        number: EnumId,
        name: Spelled<'_>,
        value: Option<i128>,
        room: u32,
    ) -> Result<(), Stop>
        requires { is_ready self.now }
        ensures { IsAsked itself AnyKnown state.old state.new result ((asks self.now room).enumerator number.0 (lexeme_at name.entry) value (meaning state.old)) };

    /// The list of an enumeration ends (7.2).
    fn enumerated(&self, state: &mut State, number: EnumId, room: u32) -> Result<(), Stop>
        requires { is_ready self.now }
        ensures { IsAsked itself AnyKnown state.old state.new result ((asks self.now room).enumerated number.0 (meaning state.old)) };

    /// The value of a constant expression (5.19).
    fn constant(&self, state: &mut State, number: TreeId, room: u32) -> Result<i128, Stop>
        requires ready { is_ready self.now }
        requires known { number.0 < length (trees state.old) }
        ensures { IsAsked itself IsConstantKnown state.old state.new result ((asks self.now room).constant (tree state.old number) (meaning state.old)) };

    /// A list of parameters begins (3.3.2). It answers their scope.
    fn enter_parameters(&self, state: &mut State, room: u32) -> Result<ScopeId, Stop>
        requires { is_ready self.now }
        ensures { IsAsked scope_number AnyKnown state.old state.new result ((asks self.now room).enter_parameters (meaning state.old)) };

    /// A parameter, with its name where it has one (8.3.5).
    fn parameter(
        &self,
        state: &mut State,
        name: &Option<NameToken>,
        place: Place,
        of: TypeId,
        room: u32,
    ) -> Result<(), Stop>
        requires ready { is_ready self.now }
        requires known { of.0 < length (state.old).types }
        ensures { IsAsked itself AnyKnown state.old state.new result ((asks self.now room).parameter (name_of_option name.now) place (type_of state.old of) (meaning state.old)) };

    /// A list of parameters ends.
    fn leave_parameters(&self, state: &mut State, room: u32) -> Result<(), Stop>
        requires { is_ready self.now }
        ensures { IsAsked itself AnyKnown state.old state.new result ((asks self.now room).leave_parameters (meaning state.old)) };
}

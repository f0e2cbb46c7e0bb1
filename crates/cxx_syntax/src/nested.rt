//! What stands behind a bracket or an operator that was taken, which counts for the nesting.

ghost use Rattle.cxx_reading.specs.Kinds as definition;
ghost use Rattle.cxx_reading.specs.State.{CxxState};
ghost use Rattle.cxx_cursor.specs.Asking.{AnyKnown, itself};
ghost use Rattle.cxx_cursor.specs.Reading.{IsRead};
ghost use Rattle.cxx_cursor.specs.Views.{AreParameters, AreTreesHeld, IsDeclarator, IsValue, declarator_of, parameters_of, trees_held, value_of};
ghost use Rattle.cxx_tree.specs.Held.{meaning};

use cxx_cursor::{Cursor, Declarator, ParameterTypes};
use cxx_model::{EnumId, Stop, TreeIdList};
use cxx_reading::Naming;
use cxx_tree::State;

/// The readers behind a bracket or an operator. `inner` is the definition that they follow.
pub trait Nested {
    ghost inner: { Self → definition.Readers CxxState };

    ghost is_open: { Self → Type 0 };

    /// Behind `*` (8.3.1).
    fn pointed(
        &self,
        state: &mut State,
        cursor: &mut Cursor<'_>,
        naming: Naming,
    ) -> Result<Declarator, Stop>
        requires { is_open self.now }
        ensures { IsRead declarator_of IsDeclarator state.old state.new cursor.new result ((inner self.now).pointed naming (meaning state.old) cursor.old) };

    /// Behind `&` (8.3.2).
    fn referred(
        &self,
        state: &mut State,
        cursor: &mut Cursor<'_>,
        naming: Naming,
    ) -> Result<Declarator, Stop>
        requires { is_open self.now }
        ensures { IsRead declarator_of IsDeclarator state.old state.new cursor.new result ((inner self.now).referred naming (meaning state.old) cursor.old) };

    /// Behind `(`, with its end (8).
    fn grouped(
        &self,
        state: &mut State,
        cursor: &mut Cursor<'_>,
        naming: Naming,
    ) -> Result<Declarator, Stop>
        requires { is_open self.now }
        ensures { IsRead declarator_of IsDeclarator state.old state.new cursor.new result ((inner self.now).grouped naming (meaning state.old) cursor.old) };

    /// Behind `[`, with its end: the value of the bound, where one is written, and its tree (8.3.4).
    fn bound(
        &self,
        state: &mut State,
        cursor: &mut Cursor<'_>,
        is_first: bool,
    ) -> Result<(Option<i128>, TreeIdList), Stop>
        requires { is_open self.now }
        ensures { IsRead value_of IsValue state.old state.new cursor.new result ((inner self.now).bound is_first (meaning state.old) cursor.old) };

    /// Behind the `(` of a list, with its end (8.3.5).
    fn parameters(&self, state: &mut State, cursor: &mut Cursor<'_>) -> Result<ParameterTypes, Stop>
        requires { is_open self.now }
        ensures { IsRead parameters_of AreParameters state.old state.new cursor.new result ((inner self.now).parameters (meaning state.old) cursor.old) };

    /// Behind the `{` of an enumeration, with its end (7.2).
    fn enumerators(
        &self,
        state: &mut State,
        cursor: &mut Cursor<'_>,
        number: EnumId,
    ) -> Result<TreeIdList, Stop>
        requires { is_open self.now }
        ensures { IsRead trees_held AreTreesHeld state.old state.new cursor.new result ((inner self.now).enumerators number.0 (meaning state.old) cursor.old) };

    /// Whether what stands behind a `(` are parameters (8.2).
    fn holds_parameters(&self, state: &mut State, cursor: &mut Cursor<'_>) -> Result<bool, Stop>
        requires { is_open self.now }
        ensures { IsRead itself AnyKnown state.old state.new cursor.new result ((inner self.now).holds_parameters (meaning state.old) cursor.old) };
}

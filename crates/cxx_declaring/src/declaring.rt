ghost use Rattle.std.specs.Prelude.{◌≡◌, ◌<◌, IfOk, Ok, true};
ghost use Rattle.cxx_model.specs.Facts.Graph.{enumerations};
ghost use Rattle.cxx_declare.specs.Made.{IsNameOf};
ghost use Rattle.cxx_names.specs.Clashes.{IsPlainName};
ghost use Rattle.cxx_reading.specs.Declaring.{kind_here, type_here};
ghost use Rattle.cxx_reading.specs.Tokens.{is_plain_name, path_ahead};
ghost use Rattle.cxx_cursor.specs.Asking.{AnyKnown, IsAsked, IsEnumeration, IsTypeKnown, enumeration_number, itself};
ghost use Rattle.cxx_cursor.specs.Views.{name_of_option};
ghost use Rattle.cxx_tree.specs.Held.{meaning, type_of};

use cxx_answers::{
    Answering, begin_default, constant_here, end_default, is_default_later, offer_default,
};
use cxx_cursor::{Cursor, NameToken, Spelled};
use cxx_declare as declare;
use cxx_elaborate::whole;
use cxx_knot::Asking;
use cxx_model::{EnumId, Kind, Name, Node, Path, Place, ScopeId, Stop, TreeId, TypeId, Word};
use cxx_syntax::Kinds;
use cxx_tree::State;
use std::alloc::{AllocError, Global};

/// What a reader asks is answered by the state that it reads into.
pub struct Declaring;

// The name that a declaration has.
fn name_of(alloc: Global, name: &Option<NameToken>) -> Result<Name, AllocError>
    ensures plain { IfOk result IsPlainName }
    ensures is { IfOk result (λ made. IsNameOf (name_of_option name.now) made) }
{
    match name {
        Some(name) => Ok(Name::Spelled(Word::from_slice(alloc, name.spelling.as_slice())?)),
        None => Ok(Name::Unnamed),
    }
}

// The type of an enumeration that begins.
#[tactic(auto, using(cxx_cursor::proofs::Kept::later_trans))]
fn begun(state: &mut State, number: EnumId) -> Result<(EnumId, TypeId), Stop>
    requires { number.0 < enumerations (state.old).graph.facts }
    ensures { IsAsked enumeration_number IsEnumeration state.old state.new result (Ok (number.0, meaning state.old)) }
{
    match state.enumeration_type(number) {
        Ok(of) => Ok((number, of)),
        Err(_) => Err(Stop::OutOfMemory),
    }
}

// What the name ahead is, which has no qualifiers (3.4.1).
fn kind_of_word(state: &State, ahead: &Cursor<'_>) -> Result<Kind, Stop>
    requires { is_plain_name ahead.now ≡ true }
    ensures { IsAsked itself AnyKnown state.now state.now result (kind_here (path_ahead ahead.now) (meaning state.now)) }
{
    declare::kind(state, ahead.spelling())
}

// The same with its qualifiers (3.4.3).
#[tactic(auto, using(crate::proofs::Answering::asked, cxx_cursor::proofs::Kept::later_refl))]
fn kind_of_path(state: &State, ahead: &Cursor<'_>) -> Result<Kind, Stop>
    ensures { IsAsked itself AnyKnown state.now state.now result (kind_here (path_ahead ahead.now) (meaning state.now)) }
{
    let path = ahead.path()?;
    declare::kind_of_name(state, &path)
}

// The type that the name ahead names, which has no qualifiers (7.1.5.2).
fn type_of_word(state: &mut State, ahead: &Cursor<'_>) -> Result<TypeId, Stop>
    requires { is_plain_name ahead.now ≡ true }
    ensures { IsAsked type_of IsTypeKnown state.old state.new result (type_here (path_ahead ahead.now) (meaning state.old)) }
{
    declare::type_named(state, ahead.spelling())
}

// The same with its qualifiers.
#[tactic(auto, using(crate::proofs::Answering::asked, cxx_cursor::proofs::Kept::later_refl))]
fn type_of_path(state: &mut State, ahead: &Cursor<'_>) -> Result<TypeId, Stop>
    ensures { IsAsked type_of IsTypeKnown state.old state.new result (type_here (path_ahead ahead.now) (meaning state.old)) }
{
    let path = ahead.path()?;
    declare::type_of_name(state, &path)
}

impl Kinds for Declaring {
    ghost use Rattle.cxx_language.specs.Asked.{asked};

    ghost asks = { λ self room. (asked room).kinds };

    ghost is_ready = { λ self. Unit {0} };

    #[tactic(auto, unfolding(cxx_language::specs::Answers::asking))]
    fn kind(&self, state: &mut State, ahead: &Cursor<'_>, _room: u32) -> Result<Kind, Stop> {
        if ahead.is_plain_name() {
            return kind_of_word(state, ahead);
        }
        kind_of_path(state, ahead)
    }

    #[tactic(auto, unfolding(cxx_language::specs::Answers::asking))]
    fn type_named(
        &self,
        state: &mut State,
        ahead: &Cursor<'_>,
        _room: u32,
    ) -> Result<TypeId, Stop> {
        if ahead.is_plain_name() {
            return type_of_word(state, ahead);
        }
        type_of_path(state, ahead)
    }

    #[tactic(auto, using(crate::proofs::Answering::asked, cxx_cursor::proofs::Kept::later_refl), unfolding(cxx_language::specs::Answers::asking))]
    fn elaborated(
        &self,
        state: &mut State,
        ahead: &Cursor<'_>,
        _room: u32,
    ) -> Result<TypeId, Stop> {
        let path = ahead.path()?;
        declare::elaborated(state, &path)
    }

    #[tactic(auto, using(crate::proofs::Answering::asked, cxx_cursor::proofs::Kept::later_refl), unfolding(cxx_language::specs::Answers::asking))]
    fn class_named(
        &self,
        state: &mut State,
        path: &Path,
        is_union: bool,
        is_all: bool,
        _room: u32,
    ) -> Result<TypeId, Stop> {
        declare::class_here(state, path, is_union, is_all)
    }

    #[tactic(auto, using(crate::proofs::Answering::asked, cxx_cursor::proofs::Kept::later_refl), unfolding(cxx_language::specs::Answers::asking))]
    fn entered(&self, state: &mut State, ahead: &Cursor<'_>, _room: u32) -> Result<(), Stop> {
        let path = ahead.path()?;
        declare::enter_member(state, &path)
    }

    #[tactic(auto, using(crate::proofs::Answering::asked, cxx_cursor::proofs::Kept::later_refl, cxx_cursor::proofs::Kept::later_trans), unfolding(cxx_language::specs::Answers::asking))]
    fn enumeration(
        &self,
        state: &mut State,
        name: &Option<NameToken>,
        place: Place,
        _room: u32,
    ) -> Result<(EnumId, TypeId), Stop> {
        let name = name_of(state.alloc(), name)?;
        let number = declare::declare_enumeration(state, name, place)?;
        begun(state, number)
    }

    #[tactic(auto, using(crate::proofs::Answering::asked, cxx_cursor::proofs::Kept::later_refl), unfolding(cxx_language::specs::Answers::asking))]
    fn enumerator(
        &self,
        state: &mut State,
        number: EnumId,
        name: Spelled<'_>,
        value: Option<i128>,
        _room: u32,
    ) -> Result<(), Stop> {
        // No reader asks for an enumerator of an enumeration that did not begin.
        if number.0 >= state.names().enumerations(state.graph()).0 {
            return Err(Stop::OutOfMemory);
        }
        declare::declare_enumerator(state, number, name.place, name.spelling, value)
    }

    #[tactic(auto, using(crate::proofs::Answering::asked), unfolding(cxx_language::specs::Answers::asking))]
    fn enumerated(&self, state: &mut State, number: EnumId, _room: u32) -> Result<(), Stop> {
        declare::end_enumeration(state, number)
    }

    #[tactic(auto, using(cxx_cursor::proofs::Kept::later_refl), unfolding(cxx_language::specs::Answers::asking))]
    fn constant(&self, state: &mut State, number: TreeId, _room: u32) -> Result<i128, Stop> {
        constant_here(state.alloc(), state, number)
    }

    #[tactic(auto, using(crate::proofs::Answering::asked), unfolding(cxx_language::specs::Answers::asking))]
    fn enter_parameters(&self, state: &mut State, _room: u32) -> Result<ScopeId, Stop> {
        state.enter_parameters()
    }

    #[tactic(auto, using(crate::proofs::Answering::asked, cxx_cursor::proofs::Kept::later_refl), unfolding(cxx_language::specs::Answers::asking))]
    fn parameter(
        &self,
        state: &mut State,
        name: &Option<NameToken>,
        place: Place,
        of: TypeId,
        _room: u32,
    ) -> Result<(), Stop> {
        let name = name_of(state.alloc(), name)?;
        declare::declare_parameter(state, name, place, of)
    }

    #[tactic(auto, unfolding(cxx_language::specs::Answers::asking))]
    fn leave_parameters(&self, state: &mut State, _room: u32) -> Result<(), Stop> {
        state.leave_parameters();
        Ok(())
    }
}

impl Asking for Declaring {
    ghost use Rattle.cxx_language.specs.Asked.{asked};

    ghost wholes = { λ self room. (asked room).whole };

    ghost offers = { λ self. (asked 0).defaults };

    #[tactic(auto, unfolding(cxx_language::specs::Answers::asking))]
    fn whole(&self, state: &mut State, node: Node, _room: u32) -> Result<TreeId, Stop> {
        whole(&Answering, state, node)
    }

    #[tactic(auto, using(crate::proofs::Answering::asked), unfolding(cxx_language::specs::Answers::asking))]
    fn is_later(&self, state: &mut State) -> Result<bool, Stop> {
        is_default_later(state)
    }

    #[tactic(auto, using(crate::proofs::Answering::asked), unfolding(cxx_language::specs::Answers::asking))]
    fn passed(&self, state: &mut State, index: usize, number: TreeId) -> Result<(), Stop> {
        offer_default(state, index, number)
    }

    #[tactic(auto, using(crate::proofs::Answering::asked), unfolding(cxx_language::specs::Answers::asking))]
    fn begun(&self, state: &mut State, equals: Place) -> Result<bool, Stop> {
        begin_default(state, equals)
    }

    #[tactic(auto, using(crate::proofs::Answering::asked), unfolding(cxx_language::specs::Answers::asking))]
    fn ended(
        &self,
        state: &mut State,
        equals: Place,
        was: bool,
        index: usize,
        of: TypeId,
        number: TreeId,
    ) -> Result<TreeId, Stop> {
        end_default(state.alloc(), state, equals, was, index, of, number)
    }
}

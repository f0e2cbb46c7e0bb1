//! What stands behind a bracket or an operator is read by a function value.

use crate::asking::Asking;
use crate::types::type_id_at;
use cxx_cursor::{Cursor, Declarator, ParameterTypes};
use cxx_model::{EnumId, Kind, Node, Stop, TreeId, TreeIdList, TypeId};
use cxx_phrases::{Level, Phrases, TypeShape};
use cxx_reading::Naming;
use cxx_syntax::{Nested, Reader};
use cxx_tree::State;

/// What stands behind a bracket or an operator that was taken.
#[derive(Clone, Copy)]
pub(crate) enum Entrance {
    Pointed(Naming),
    Referred(Naming),
    Grouped(Naming),
    Bound(bool),
    Parameters,
    Enumerators(EnumId),
    HoldsParameters,
    Expression(Level),
    Sized,
    TypeId,
    TypePassed,
}

/// What was read there.
#[derive(Drop)]
pub(crate) enum Found {
    Declarator(Declarator),
    Value(Option<i128>, TreeIdList),
    Parameters(ParameterTypes),
    Trees(TreeIdList),
    Holds(bool),
    Tree(TreeId),
    Sized(Option<TypeId>, TreeIdList),
    Written(TypeId, TreeIdList),
    Shape(TypeShape),
}

/// Readers with room for so many more brackets.
#[derive_where(Clone, Copy; F)]
pub(crate) struct Behind<'k, K, F> {
    pub kinds: &'k K,
    pub room: u32,
    pub read: F,
}

impl<K: Asking, F: Fn(&K, &mut State, &mut Cursor<'_>, Entrance, u32) -> Result<Found, Stop>> Nested
    for Behind<'_, K, F> {
    ghost use Rattle.cxx_knot.specs.Knot.{Nests, asking_by};
    ghost use Rattle.cxx_knot.specs.Readers.{both};

    ghost inner = { λ self. (both (asking_by K.asks K.wholes K.offers self.kinds.now) self.room).types };

    ghost is_open = { λ self. Nests K.asks K.wholes K.offers K.is_ready F.Fn self.kinds.now self.room self.read };

    fn pointed(
        &self,
        state: &mut State,
        cursor: &mut Cursor<'_>,
        naming: Naming,
    ) -> Result<Declarator, Stop> {
        match (self.read)(
            self.kinds,
            state,
            cursor,
            Entrance::Pointed(naming),
            self.room,
        )? {
            Found::Declarator(declarator) => Ok(declarator),
            _ => unreachable!(),
        }
    }

    fn referred(
        &self,
        state: &mut State,
        cursor: &mut Cursor<'_>,
        naming: Naming,
    ) -> Result<Declarator, Stop> {
        match (self.read)(
            self.kinds,
            state,
            cursor,
            Entrance::Referred(naming),
            self.room,
        )? {
            Found::Declarator(declarator) => Ok(declarator),
            _ => unreachable!(),
        }
    }

    fn grouped(
        &self,
        state: &mut State,
        cursor: &mut Cursor<'_>,
        naming: Naming,
    ) -> Result<Declarator, Stop> {
        match (self.read)(
            self.kinds,
            state,
            cursor,
            Entrance::Grouped(naming),
            self.room,
        )? {
            Found::Declarator(declarator) => Ok(declarator),
            _ => unreachable!(),
        }
    }

    fn bound(
        &self,
        state: &mut State,
        cursor: &mut Cursor<'_>,
        is_first: bool,
    ) -> Result<(Option<i128>, TreeIdList), Stop> {
        match (self.read)(
            self.kinds,
            state,
            cursor,
            Entrance::Bound(is_first),
            self.room,
        )? {
            Found::Value(value, parts) => Ok((value, parts)),
            _ => unreachable!(),
        }
    }

    fn parameters(
        &self,
        state: &mut State,
        cursor: &mut Cursor<'_>,
    ) -> Result<ParameterTypes, Stop> {
        match (self.read)(self.kinds, state, cursor, Entrance::Parameters, self.room)? {
            Found::Parameters(list) => Ok(list),
            _ => unreachable!(),
        }
    }

    fn enumerators(
        &self,
        state: &mut State,
        cursor: &mut Cursor<'_>,
        number: EnumId,
    ) -> Result<TreeIdList, Stop> {
        match (self.read)(
            self.kinds,
            state,
            cursor,
            Entrance::Enumerators(number),
            self.room,
        )? {
            Found::Trees(trees) => Ok(trees),
            _ => unreachable!(),
        }
    }

    fn holds_parameters(&self, state: &mut State, cursor: &mut Cursor<'_>) -> Result<bool, Stop> {
        match (self.read)(
            self.kinds,
            state,
            cursor,
            Entrance::HoldsParameters,
            self.room,
        )? {
            Found::Holds(answer) => Ok(answer),
            _ => unreachable!(),
        }
    }
}

impl<
    K: Asking,
    F: Fn(&K, &mut State, &mut Cursor<'_>, Entrance, u32) -> Result<Found, Stop>,
> Phrases for Behind<'_, K, F> {
    ghost use Rattle.cxx_knot.specs.Knot.{Nests, asking_by};
    ghost use Rattle.cxx_knot.specs.Readers.{both, here};

    ghost asks = { λ self. here (asking_by K.asks K.wholes K.offers self.kinds.now self.room) (both (asking_by K.asks K.wholes K.offers self.kinds.now) self.room) self.room };

    ghost inner = { λ self. (both (asking_by K.asks K.wholes K.offers self.kinds.now) self.room).phrases };

    ghost is_ready = { λ self. Nests K.asks K.wholes K.offers K.is_ready F.Fn self.kinds.now self.room self.read };

    fn room(&self) -> u32 {
        self.room
    }

    fn kind(&self, state: &mut State, ahead: &Cursor<'_>) -> Result<Kind, Stop> {
        self.kinds.kind(state, ahead, self.room)
    }

    fn type_named(&self, state: &mut State, ahead: &Cursor<'_>) -> Result<TypeId, Stop> {
        self.kinds.type_named(state, ahead, self.room)
    }

    fn whole(&self, state: &mut State, node: Node) -> Result<TreeId, Stop> {
        self.kinds.whole(state, node, self.room)
    }

    fn type_id(
        &self,
        state: &mut State,
        cursor: &mut Cursor<'_>,
    ) -> Result<(TypeId, TreeIdList), Stop> {
        let reader = Reader {
            kinds: self.kinds,
            room: self.room,
            nested: self,
        };
        type_id_at(&reader, state, cursor)
    }

    fn inner_expression(
        &self,
        state: &mut State,
        cursor: &mut Cursor<'_>,
        level: Level,
    ) -> Result<TreeId, Stop> {
        match (self.read)(
            self.kinds,
            state,
            cursor,
            Entrance::Expression(level),
            self.room,
        )? {
            Found::Tree(number) => Ok(number),
            _ => unreachable!(),
        }
    }

    fn inner_sized(
        &self,
        state: &mut State,
        cursor: &mut Cursor<'_>,
    ) -> Result<(Option<TypeId>, TreeIdList), Stop> {
        match (self.read)(self.kinds, state, cursor, Entrance::Sized, self.room)? {
            Found::Sized(of, parts) => Ok((of, parts)),
            _ => unreachable!(),
        }
    }

    fn inner_type_id(
        &self,
        state: &mut State,
        cursor: &mut Cursor<'_>,
    ) -> Result<(TypeId, TreeIdList), Stop> {
        match (self.read)(self.kinds, state, cursor, Entrance::TypeId, self.room)? {
            Found::Written(of, parts) => Ok((of, parts)),
            _ => unreachable!(),
        }
    }

    fn inner_type_passed(
        &self,
        state: &mut State,
        cursor: &mut Cursor<'_>,
    ) -> Result<TypeShape, Stop> {
        match (self.read)(self.kinds, state, cursor, Entrance::TypePassed, self.room)? {
            Found::Shape(shape) => Ok(shape),
            _ => unreachable!(),
        }
    }
}

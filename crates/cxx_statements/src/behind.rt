//! What stands behind a bracket, or in another statement, is read by a function value.

use crate::around::{Around, Several, Stated};
use crate::parts::{Parts, Target};
use crate::within::Within;
use cxx_cursor::Cursor;
use cxx_model::{Stop, TreeId, TreeIdList};
use cxx_tree::State;

/// What stands behind a bracket that was taken, or in another statement.
#[derive(Drop)]
pub(crate) enum Entrance {
    Condition(Target),
    LastCondition,
    LoopParts,
    SubStatement(Around),
    Statements(Around),
}

/// What was read there.
#[derive(Drop)]
pub(crate) enum Found {
    Tree(TreeId),
    Trees(TreeIdList),
    Statement(Stated),
    Statements(Several),
}

/// Readers with room for so many more brackets and statements.
#[derive_where(Clone, Copy; F)]
pub(crate) struct Behind<'k, P, F> {
    pub parts: &'k P,
    pub room: u32,
    pub read: F,
}

impl<P: Parts, F: Fn(&P, &mut State, &mut Cursor<'_>, Entrance, u32) -> Result<Found, Stop>> Within
    for Behind<'_, P, F> {
    ghost use Rattle.cxx_statements.specs.Knot.{Nests};
    ghost use Rattle.cxx_statements.specs.Statements.{within};

    ghost inner = { λ self. within (P.asks self.parts.now) self.room };

    ghost is_open = { λ self. Nests P.asks P.is_ready F.Fn self.parts.now self.room self.read };

    fn condition(
        &self,
        state: &mut State,
        cursor: &mut Cursor<'_>,
        target: Target,
    ) -> Result<TreeId, Stop> {
        match (self.read)(
            self.parts,
            state,
            cursor,
            Entrance::Condition(target),
            self.room,
        )? {
            Found::Tree(number) => Ok(number),
            _ => unreachable!(),
        }
    }

    fn last_condition(&self, state: &mut State, cursor: &mut Cursor<'_>) -> Result<TreeId, Stop> {
        match (self.read)(
            self.parts,
            state,
            cursor,
            Entrance::LastCondition,
            self.room,
        )? {
            Found::Tree(number) => Ok(number),
            _ => unreachable!(),
        }
    }

    fn loop_parts(&self, state: &mut State, cursor: &mut Cursor<'_>) -> Result<TreeIdList, Stop> {
        match (self.read)(self.parts, state, cursor, Entrance::LoopParts, self.room)? {
            Found::Trees(trees) => Ok(trees),
            _ => unreachable!(),
        }
    }

    fn sub_statement(
        &self,
        state: &mut State,
        cursor: &mut Cursor<'_>,
        around: Around,
    ) -> Result<Stated, Stop> {
        match (self.read)(
            self.parts,
            state,
            cursor,
            Entrance::SubStatement(around),
            self.room,
        )? {
            Found::Statement(one) => Ok(one),
            _ => unreachable!(),
        }
    }

    fn statements(
        &self,
        state: &mut State,
        cursor: &mut Cursor<'_>,
        around: Around,
    ) -> Result<Several, Stop> {
        match (self.read)(
            self.parts,
            state,
            cursor,
            Entrance::Statements(around),
            self.room,
        )? {
            Found::Statements(all) => Ok(all),
            _ => unreachable!(),
        }
    }
}

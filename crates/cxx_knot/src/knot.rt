//! The readers tied together: what stands behind a bracket is read by the same readers, with one room less.

ghost use Rattle.cxx_heads.specs.Heads as heads;
ghost use Rattle.cxx_knot.specs.Knot.{Follows, Nests, asking_by};
ghost use Rattle.cxx_knot.specs.Readers.{both, both_by, here, too_deep as too_deep_readers};
ghost use Rattle.cxx_phrases.specs.Initializers.{expression_at, initializer_at};
ghost use Rattle.cxx_phrases.specs.Views.{IsInitializer, initializer_of};
ghost use Rattle.cxx_reading.specs.Specifiers.{specifiers_from};
ghost use Rattle.cxx_reading.specs.Syntax.{declarator_at};
ghost use Rattle.cxx_cursor.specs.Asking.{AnyKnown, IsTreeKnown, itself};
ghost use Rattle.cxx_cursor.specs.Reading.{IsRead};
ghost use Rattle.cxx_cursor.specs.Views.{AreSpecifiers, IsDeclarator, declarator_of, specifiers_of};
ghost use Rattle.cxx_tree.specs.Held.{meaning, tree};

use crate::asking::Asking;
use crate::behind::{Behind, Entrance, Found};
use crate::types::{type_id_at, type_passed_at};
use crate::values::Values;
use cxx_cursor::{Cursor, Declarator, Specifiers};
use cxx_heads::{Head, head_at, is_declared_condition};
use cxx_model::{LimitKind, Stop, TreeId};
use cxx_phrases::{
    Initializer, Level, TypeShape, read_expression, read_initializer as initializer_behind,
    read_sized,
};
use cxx_reading::{Naming, SpecifierPlace};
use cxx_syntax::Reader;
use cxx_tree::State;

// Where there is no room for a bracket.
#[tactic(auto, using(cxx_cursor::proofs::Kept::later_refl))]
pub(crate) fn too_deep(state: &State, cursor: &Cursor<'_>, what: Entrance) -> Result<Found, Stop>
    ensures { Follows too_deep_readers what state.now cursor.now result state.now cursor.now }
{
    let _ = state;
    let _ = cursor;
    match what {
        Entrance::Pointed(_) => Err(Stop::Limit(LimitKind::Nesting)),
        Entrance::Referred(_) => Err(Stop::Limit(LimitKind::Nesting)),
        Entrance::Grouped(_) => Err(Stop::Limit(LimitKind::Nesting)),
        Entrance::Bound(_) => Err(Stop::Limit(LimitKind::Nesting)),
        Entrance::Parameters => Err(Stop::Limit(LimitKind::Nesting)),
        Entrance::Enumerators(_) => Err(Stop::Limit(LimitKind::Nesting)),
        Entrance::HoldsParameters => Ok(Found::Holds(true)),
        Entrance::Expression(_) => Err(Stop::Limit(LimitKind::Nesting)),
        Entrance::Sized => Err(Stop::Limit(LimitKind::Nesting)),
        Entrance::TypeId => Err(Stop::Limit(LimitKind::Nesting)),
        Entrance::TypePassed => Ok(Found::Shape(TypeShape::NoType)),
    }
}

// What stands behind a bracket, with room for so many more.
pub(crate) fn opened<
    K: Asking,
    F: Fn(&K, &mut State, &mut Cursor<'_>, Entrance, u32) -> Result<Found, Stop>,
>(
    behind: &Behind<'_, K, F>,
    state: &mut State,
    cursor: &mut Cursor<'_>,
    what: Entrance,
) -> Result<Found, Stop>
    requires { Nests K.asks K.wholes K.offers K.is_ready F.Fn behind.now.kinds.now behind.now.room behind.now.read }
    ensures { Follows (both_by (asking_by K.asks K.wholes K.offers behind.now.kinds.now behind.now.room) behind.now.room (both (asking_by K.asks K.wholes K.offers behind.now.kinds.now) behind.now.room)) what state.old cursor.old result state.new cursor.new }
{
    let types = Reader {
        kinds: behind.kinds,
        room: behind.room,
        nested: behind,
    };
    let values = Values {
        kinds: behind.kinds,
        room: behind.room,
        phrases: behind,
    };
    match what {
        Entrance::Pointed(naming) => {
            Ok(Found::Declarator(types.pointed_at(state, cursor, naming)?))
        }
        Entrance::Referred(naming) => {
            Ok(Found::Declarator(types.referred_at(state, cursor, naming)?))
        }
        Entrance::Grouped(naming) => {
            Ok(Found::Declarator(types.grouped_at(state, cursor, naming)?))
        }
        Entrance::Bound(is_first) => {
            let (value, parts) = values.bound_at(state, cursor, is_first)?;
            Ok(Found::Value(value, parts))
        }
        Entrance::Parameters => Ok(Found::Parameters(types.parameters_at(state, cursor, &values)?)),
        Entrance::Enumerators(number) => {
            Ok(Found::Trees(values.enumerators_at(state, cursor, number)?))
        }
        Entrance::HoldsParameters => Ok(Found::Holds(types.parameters_shape(state, cursor)?)),
        Entrance::Expression(level) => {
            Ok(Found::Tree(read_expression(behind, state, cursor, level)?))
        }
        Entrance::Sized => {
            let (of, parts) = read_sized(behind, state, cursor)?;
            Ok(Found::Sized(of, parts))
        }
        Entrance::TypeId => {
            let (of, parts) = type_id_at(&types, state, cursor)?;
            Ok(Found::Written(of, parts))
        }
        Entrance::TypePassed => Ok(Found::Shape(type_passed_at(&types, state, cursor)?)),
    }
}

// What stands behind a bracket that was taken, with room for so many more, that one counted.
#[tactic(auto, using(crate::proofs::Nesting::both_zero, crate::proofs::Nesting::both_more))]
pub(crate) fn read<K: Asking>(
    kinds: &K,
    state: &mut State,
    cursor: &mut Cursor<'_>,
    what: Entrance,
    room: u32,
) -> Result<Found, Stop>
    requires { K.is_ready kinds.now }
    ensures { Follows (both (asking_by K.asks K.wholes K.offers kinds.now) room) what state.old cursor.old result state.new cursor.new }
{
    if room == 0 {
        return too_deep(state, cursor, what);
    }
    let behind = Behind {
        kinds,
        room: room - 1,
        read: read::<K>,
    };
    opened(&behind, state, cursor, what)
}

/// The specifiers of a declaration behind those that were read (7.1), with room for so many brackets and operators inside one
/// another. A limit is that of nesting, that of parameters or that of arguments, or one of the user's.
pub fn read_specifiers<K: Asking>(
    kinds: &K,
    state: &mut State,
    cursor: &mut Cursor<'_>,
    place: SpecifierPlace,
    so_far: Specifiers,
    room: u32,
) -> Result<Specifiers, Stop>
    requires known { AreSpecifiers state.old so_far }
    requires ready { K.is_ready kinds.now }
    ensures { IsRead specifiers_of AreSpecifiers state.old state.new cursor.new result (specifiers_from (K.asks kinds.now room) (both (asking_by K.asks K.wholes K.offers kinds.now) room).types place (specifiers_of state.old so_far) (meaning state.old) cursor.old) }
{
    let behind = Behind {
        kinds,
        room,
        read: read::<K>,
    };
    let reader = Reader {
        kinds,
        room,
        nested: &behind,
    };
    reader.specifiers_from(state, cursor, place, so_far)
}

/// A declarator (8), with room for so many brackets and operators inside one another. A limit is that of nesting, that of
/// parameters or that of arguments, or one of the user's.
pub fn read_declarator<K: Asking>(
    kinds: &K,
    state: &mut State,
    cursor: &mut Cursor<'_>,
    naming: Naming,
    room: u32,
) -> Result<Declarator, Stop>
    requires { K.is_ready kinds.now }
    ensures { IsRead declarator_of IsDeclarator state.old state.new cursor.new result (declarator_at (K.asks kinds.now room) (both (asking_by K.asks K.wholes K.offers kinds.now) room).types naming (meaning state.old) cursor.old) }
{
    let behind = Behind {
        kinds,
        room,
        read: read::<K>,
    };
    let reader = Reader {
        kinds,
        room,
        nested: &behind,
    };
    reader.declarator_at(state, cursor, naming)
}

/// An initializer, from its `=` or `(` on (8.5), with room for so many brackets and operators inside one another. A limit
/// is that of nesting, that of parameters or that of arguments, or one of the user's.
pub fn read_initializer<K: Asking>(
    kinds: &K,
    state: &mut State,
    cursor: &mut Cursor<'_>,
    room: u32,
) -> Result<Initializer, Stop>
    requires { K.is_ready kinds.now }
    ensures { IsRead initializer_of IsInitializer state.old state.new cursor.new result (initializer_at (here (asking_by K.asks K.wholes K.offers kinds.now room) (both (asking_by K.asks K.wholes K.offers kinds.now) room) room) (both (asking_by K.asks K.wholes K.offers kinds.now) room).phrases (meaning state.old) cursor.old) }
{
    let behind = Behind {
        kinds,
        room,
        read: read::<K>,
    };
    initializer_behind(&behind, state, cursor)
}

/// An expression of a level (5), with room for so many brackets and operators inside one another. A limit is that of nesting,
/// that of parameters or that of arguments, or one of the user's.
pub fn read_phrase<K: Asking>(
    kinds: &K,
    state: &mut State,
    cursor: &mut Cursor<'_>,
    level: Level,
    room: u32,
) -> Result<TreeId, Stop>
    requires { K.is_ready kinds.now }
    ensures { IsRead tree IsTreeKnown state.old state.new cursor.new result (expression_at (here (asking_by K.asks K.wholes K.offers kinds.now room) (both (asking_by K.asks K.wholes K.offers kinds.now) room) room) (both (asking_by K.asks K.wholes K.offers kinds.now) room).phrases level (meaning state.old) cursor.old) }
{
    let behind = Behind {
        kinds,
        room,
        read: read::<K>,
    };
    read_expression(&behind, state, cursor, level)
}

/// What stands ahead where a statement begins with none of its keywords (6), with room for so many brackets and operators
/// inside one another. No token is taken. A limit is that of nesting, or one of the user's.
pub fn head_ahead<K: Asking>(
    kinds: &K,
    state: &mut State,
    cursor: &Cursor<'_>,
    room: u32,
) -> Result<Head, Stop>
    requires { K.is_ready kinds.now }
    ensures { IsRead itself AnyKnown state.old state.new cursor.now result (heads.head_at (K.asks kinds.now room) (both (asking_by K.asks K.wholes K.offers kinds.now) room).types (meaning state.old) cursor.now) }
{
    let behind = Behind {
        kinds,
        room,
        read: read::<K>,
    };
    let reader = Reader {
        kinds,
        room,
        nested: &behind,
    };
    head_at(&reader, state, cursor)
}

/// Whether a declaration of an object with `=` stands ahead in a condition (6.4), with room for so many brackets and
/// operators inside one another. No token is taken. A limit is that of nesting, or one of the user's.
pub fn condition_ahead<K: Asking>(
    kinds: &K,
    state: &mut State,
    cursor: &Cursor<'_>,
    room: u32,
) -> Result<bool, Stop>
    requires { K.is_ready kinds.now }
    ensures { IsRead itself AnyKnown state.old state.new cursor.now result (heads.is_declared_condition (K.asks kinds.now room) (both (asking_by K.asks K.wholes K.offers kinds.now) room).types (meaning state.old) cursor.now) }
{
    let behind = Behind {
        kinds,
        room,
        read: read::<K>,
    };
    let reader = Reader {
        kinds,
        room,
        nested: &behind,
    };
    is_declared_condition(&reader, state, cursor)
}

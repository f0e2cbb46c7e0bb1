//! The trees of types that a key names, and of enumerations.

ghost use Rattle.std.specs.Prelude.{◌<◌, length};
ghost use Rattle.cxx_cursor.specs.Asking.{IsEnumeration};
ghost use Rattle.cxx_cursor.specs.Making.{GrowsTree};
ghost use Rattle.cxx_cursor.specs.Views.{AreTreesHeld, name_of_option, trees_held};
ghost use Rattle.cxx_reading.specs.Specifiers as definition;
ghost use Rattle.cxx_tree.specs.Arena.{path_at};
ghost use Rattle.cxx_tree.specs.Held.{type_of};

use cxx_cursor::{Cursor, NameToken, last_place, node_from, path_to_option, place_of, push};
use cxx_model::{EnumId, Listed, Path, Stop, Text, TreeId, TreeIdList, TypeId};
use cxx_tree::State;
use std::alloc::Global;

/// The numbers of the productions.
pub(crate) mod production {
    pub const ELABORATED: u8 = 9;

    pub const ENUMERATION_LIST: u8 = 11;

    pub const PARAMETER: u8 = 54;
}

/// A key and a name (7.1.5.3).
pub(crate) fn elaborated_tree(
    alloc: Global,
    state: &mut State,
    key: &[u8],
    path: Path,
    of: TypeId,
    from: &Cursor<'_>,
    to: &Cursor<'_>,
) -> Result<TreeId, Stop>
    requires { of.0 < length (state.old).types }
    ensures { GrowsTree state.old state.new result (definition.elaborated_tree key.now (path_at path) (type_of state.old of) from.now to.now) }
{
    let spelling = Text::from_slice(alloc, key)?;
    let mut node = node_from(
        production::ELABORATED,
        spelling,
        from,
        to,
        Listed::new(alloc),
    );
    node.place = last_place(path.parts.as_slice());
    node.path = Some(path);
    node.of = Some(of);
    push(state, node)
}

/// An enumeration with its list (7.2).
pub(crate) fn enumeration_tree(
    alloc: Global,
    state: &mut State,
    name: &Option<NameToken>,
    both: (EnumId, TypeId),
    values: TreeIdList,
    from: &Cursor<'_>,
    to: &Cursor<'_>,
) -> Result<TreeId, Stop>
    requires known { IsEnumeration state.old both }
    requires values { AreTreesHeld state.old values }
    ensures { GrowsTree state.old state.new result (definition.enumeration_tree (name_of_option name.now) both.0.0 (trees_held state.old values) from.now to.now) }
{
    let path = path_to_option(alloc, name)?;
    let mut node = node_from(
        production::ENUMERATION_LIST,
        Listed::new(alloc),
        from,
        to,
        values,
    );
    node.place = place_of(from.place(), name);
    node.path = path;
    node.of = Some(both.1);
    push(state, node)
}

//! The trees of what is read.

ghost use Rattle.std.specs.Prelude.{◌≡◌, ◌<◌, ◌-◌, ◌++◌, length, None, IfOk};
ghost use Rattle.std.specs.List.{slice_get};
ghost use Rattle.std.specs.Option.{option_copied};
ghost use Rattle.cxx_reading.specs.Productions as production;
ghost use Rattle.cxx_reading.specs.Reads.{count_ahead, place_ahead};
ghost use Rattle.cxx_reading.specs.Specifiers as definition;
ghost use Rattle.cxx_reading.specs.Specifiers.{path_of, place_or};
ghost use Rattle.cxx_cursor.specs.Making.{GrowsTree};
ghost use Rattle.cxx_cursor.specs.Passing.{part_or};
ghost use Rattle.cxx_cursor.specs.Views.{name_at, name_of_option};
ghost use Rattle.cxx_reading.specs.Trees.{last_part};
ghost use Rattle.cxx_tree.specs.Arena.{AreTreesBelow, IsNodeBelow, path_at, path_parts_at, tree_over};
ghost use Rattle.cxx_tree.specs.Arena as arena;
ghost use Rattle.cxx_tree.specs.Held.{trees};

use crate::cursor::Cursor;
use crate::name::NameToken;
use cxx_model::{Listed, Node, Path, PathPart, Place, Stop, Text, TreeId, TreeIdList, Word};
use cxx_tree::State;
use std::alloc::{AllocError, Global};

/// A node that covers what was read from one place up to another, and says nothing else yet.
pub fn node_from(
    production: u8,
    spelling: Text,
    from: &Cursor<'_>,
    to: &Cursor<'_>,
    children: TreeIdList,
) -> Node
    ensures { result ≡ record { production = production; children = children; first = count_ahead from.now; last = count_ahead to.now; start = place_ahead from.now; place = place_ahead from.now; path = None; operand = None; of = None; target = None; call = None; spelling = spelling } }
{
    Node {
        production,
        children,
        first: from.count(),
        last: to.count(),
        start: from.place(),
        place: from.place(),
        path: None,
        operand: None,
        of: None,
        target: None,
        call: None,
        spelling,
    }
}

/// The trees of both lists.
pub fn joined(one: TreeIdList, two: TreeIdList) -> Result<TreeIdList, AllocError>
    ensures { IfOk result (λ all. all ≡ one ++ two) }
{
    let mut items = one.into_vec();
    items.extend_from_slice(two.as_slice())?;
    Ok(Listed::from_vec(items))
}

/// The path of a name without qualifiers.
pub fn path_to(alloc: Global, name: &NameToken) -> Result<Path, AllocError>
    ensures { IfOk result (λ path. path_at path ≡ path_of (name_at name.now)) }
{
    let mut parts = Listed::new(alloc);
    parts.push(PathPart {
        word: Word::from_slice(alloc, name.spelling.as_slice())?,
        place: name.place,
        arguments: None,
    })?;
    Ok(Path {
        global: false,
        parts,
    })
}

/// The same of a name, where there is one.
pub fn path_to_option(alloc: Global, name: &Option<NameToken>) -> Result<Option<Path>, AllocError>
    ensures { IfOk result (λ path. arena.path_of_option path ≡ definition.path_of_option (name_of_option name.now)) }
{
    match name {
        None => Ok(None),
        Some(name) => Ok(Some(path_to(alloc, name)?)),
    }
}

/// The place of a name, or another where there is none.
pub fn place_of(place: Place, name: &Option<NameToken>) -> Place
    ensures { result ≡ place_or place (name_of_option name.now) }
{
    match name {
        None => place,
        Some(name) => name.place,
    }
}

fn last_of(parts: &[PathPart]) -> Option<&PathPart>
    ensures { option_copied result ≡ slice_get parts.now (length parts.now - 1) }
{
    parts.get(parts.len().saturating_sub(1))
}

/// The last of the parts of a name.
#[tactic(auto, using(crate::proofs::Names::last_is))]
pub fn last_part(parts: &[PathPart]) -> Option<&PathPart>
    ensures { part_or (option_copied result) ≡ last_part (path_parts_at parts.now) }
{
    last_of(parts)
}

/// Where the last of the parts of a name stands.
pub fn last_place(parts: &[PathPart]) -> Place
    ensures { result ≡ (last_part (path_parts_at parts.now)).place }
{
    match last_part(parts) {
        Some(part) => part.place,
        None => Place { line: 0, column: 0 },
    }
}

/// Adds a node.
pub fn push(state: &mut State, node: Node) -> Result<TreeId, Stop>
    requires below { IsNodeBelow (length (state.old).types) node }
    requires children { AreTreesBelow (length (trees state.old)) node.children }
    ensures { GrowsTree state.old state.new result (tree_over (state.old).types (trees state.old) node) }
{
    match state.push(node) {
        Ok(number) => Ok(number),
        Err(_) => Err(Stop::OutOfMemory),
    }
}

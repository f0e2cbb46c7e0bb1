//! Copies of nodes.

ghost use Rattle.std.specs.Prelude.{◌≡◌, ◌<◌, length, Some, IfOk};
ghost use Rattle.cxx_tree.specs.Held.{tree, trees};
ghost use Rattle.cxx_expr.specs.Nodes.{IsNodeHeld, node_tree};

use cxx_model::{
    Listed, Node, Path, PathPart, PathPartList, Text, TreeId, TreeIdList, TypeId, Word,
};
use cxx_tree::State;
use std::alloc::{AllocError, Global};

fn copy_arguments(
    alloc: Global,
    arguments: &Option<TreeIdList>,
) -> Result<Option<TreeIdList>, AllocError>
    ensures { IfOk result (λ copy. copy ≡ arguments.now) }
{
    match arguments {
        None => Ok(None),
        Some(numbers) => Ok(Some(TreeIdList::from_slice(alloc, numbers.as_slice())?)),
    }
}

fn copy_part(alloc: Global, part: &PathPart) -> Result<PathPart, AllocError>
    ensures { IfOk result (λ copy. copy ≡ part.now) }
{
    let word = Word::from_slice(alloc, part.word.as_slice())?;
    let arguments = copy_arguments(alloc, &part.arguments)?;
    Ok(PathPart {
        word,
        place: part.place,
        arguments,
    })
}

fn copy_parts(alloc: Global, parts: &[PathPart]) -> Result<PathPartList, AllocError>
    ensures { IfOk result (λ copies. copies ≡ parts.now) }
{
    let mut copies = Listed::new(alloc);
    for part in parts {
        copies.push(copy_part(alloc, part)?)?;
    }
    Ok(copies)
}

fn copy_path(alloc: Global, path: &Option<Path>) -> Result<Option<Path>, AllocError>
    ensures { IfOk result (λ copy. copy ≡ path.now) }
{
    match path {
        None => Ok(None),
        Some(path) => Ok(Some(Path {
            global: path.global,
            parts: copy_parts(alloc, path.parts.as_slice())?,
        })),
    }
}

fn copy_node(alloc: Global, node: &Node) -> Result<Node, AllocError>
    ensures { IfOk result (λ copy. copy ≡ node.now) }
{
    let children = TreeIdList::from_slice(alloc, node.children.as_slice())?;
    let path = copy_path(alloc, &node.path)?;
    let spelling = Text::from_slice(alloc, node.spelling.as_slice())?;
    Ok(Node {
        production: node.production,
        children,
        first: node.first,
        last: node.last,
        start: node.start,
        place: node.place,
        path,
        operand: node.operand,
        of: node.of,
        target: node.target,
        call: node.call,
        spelling,
    })
}

/// A copy of a node, with another type, over other children.
pub fn node_over(
    alloc: Global,
    node: &Node,
    of: TypeId,
    children: TreeIdList,
) -> Result<Node, AllocError>
    ensures { IfOk result (λ copy. copy ≡ record node.now { of = Some of; children = children }) }
{
    let mut copy = copy_node(alloc, node)?;
    copy.of = Some(of);
    copy.children = children;
    Ok(copy)
}

fn copy_held(alloc: Global, state: &State, node: &Node) -> Result<Node, AllocError>
    requires { IsNodeHeld state.now node.now }
    ensures is { IfOk result (λ copy. node_tree state.now copy ≡ node_tree state.now node.now) }
    ensures held { IfOk result (IsNodeHeld state.now) }
{
    let _ = state;
    copy_node(alloc, node)
}

/// A copy of the node of a tree.
pub fn node_of(alloc: Global, state: &State, number: TreeId) -> Result<Node, AllocError>
    requires { number.0 < length (trees state.now) }
    ensures is { IfOk result (λ copy. node_tree state.now copy ≡ tree state.now number) }
    ensures held { IfOk result (IsNodeHeld state.now) }
{
    copy_held(alloc, state, state.node(number))
}

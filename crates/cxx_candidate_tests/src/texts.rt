//! Types and candidates as texts (src/rows.rt says how they are written).

ghost use Rattle.std.specs.Prelude.{◌<◌, length, IfSome};
ghost use Rattle.cxx_model.specs.Types.Numbers.{AreTypesBelow, IsNodeBelow};
ghost use Rattle.cxx_candidates.specs.Shapes.{AreListsBelow};

use crate::letters::letter_of;
use crate::stopped::Stopped;
use cxx_model::{ClassId, Cv, TypeId, TypeIdList, TypeNode};
use cxx_types::TypeTable;
use std::alloc::Global;

fn push_class(text: &mut String, class: ClassId) -> Result<(), Stopped> {
    let letter = b'A' + (class.0 % 26) as u8;
    text.push(char::from(letter))?;
    Ok(())
}

fn push_words(text: &mut String, cv: Cv) -> Result<(), Stopped> {
    if cv.is_const {
        text.push('k')?;
    }
    if cv.is_volatile {
        text.push('y')?;
    }
    Ok(())
}

// The type inside of one.
fn inner(node: &TypeNode, end: TypeId) -> Option<TypeId>
    requires { IsNodeBelow end.0 node.now }
    ensures { IfSome result (λ of. of.0 < end.0) }
{
    let _ = end;
    match node {
        TypeNode::Pointer(of) => Some(*of),
        TypeNode::Reference(of) => Some(*of),
        TypeNode::Array(of, _) => Some(*of),
        TypeNode::Qualified(_, of) => Some(*of),
        TypeNode::Function { result, .. } => Some(*result),
        _ => None,
    }
}

// What stands in the text for the outermost part of a type.
fn push_part(text: &mut String, node: &TypeNode) -> Result<(), Stopped> {
    match node {
        TypeNode::Plain(base) => text.push(letter_of(*base))?,
        TypeNode::Class(class) => push_class(text, *class)?,
        TypeNode::Enum(number) => text.push(char::from(b'0' + (number.0 % 10) as u8))?,
        TypeNode::Pointer(_) => text.push('*')?,
        TypeNode::Reference(_) => text.push('&')?,
        TypeNode::Array(_, _) => text.push('[')?,
        TypeNode::Function { .. } => text.push('(')?,
        TypeNode::Qualified(cv, _) => push_words(text, *cv)?,
        _ => text.push('?')?,
    }
    Ok(())
}

fn push_type(types: &TypeTable, text: &mut String, of: TypeId) -> Result<(), Stopped>
    requires { of.0 < length types.now }
{
    let node = types.node(of);
    if let Some(inside) = inner(node, of) {
        push_type(types, text, inside)?;
    }
    push_part(text, node)
}

fn push_candidate(types: &TypeTable, text: &mut String, list: &[TypeId]) -> Result<(), Stopped>
    requires { AreTypesBelow (length types.now) list.now }
{
    match list {
        [] => Ok(()),
        [one, others @ ..] => {
            push_type(types, text, *one)?;
            push_candidate(types, text, others)
        }
    }
}

/// The parameters of each candidate, with `,` behind each.
pub(crate) fn text_of(
    alloc: Global,
    types: &TypeTable,
    lists: &[TypeIdList],
) -> Result<String, Stopped>
    requires { AreListsBelow (length types.now) lists.now }
{
    let mut text = String::new(alloc);
    for list in lists {
        push_candidate(types, &mut text, list.as_slice())?;
        text.push(',')?;
    }
    Ok(text)
}

/// `!` and the class that must be complete first.
pub(crate) fn text_of_needed(alloc: Global, class: ClassId) -> Result<String, Stopped> {
    let mut text = String::new(alloc);
    text.push('!')?;
    push_class(&mut text, class)?;
    Ok(text)
}

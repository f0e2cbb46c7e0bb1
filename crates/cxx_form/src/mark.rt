//! By what functions are looked up that may have one number.
ghost use Rattle.std.specs.Prelude.{◌≡◌, ◌<◌, length, IfOk};
ghost use Rattle.cxx_model.specs.Facts.Declarations.{name_at};
ghost use Rattle.cxx_model.specs.Types.Numbers.{type_at, types_at, AreTypesBelow};
ghost use Rattle.cxx_form.specs.Sharing.{end_of as end_of_type, ends_by as ends_by_type, ends_of as ends_of_types, mark_by};

use crate::names::name_stem;
use cxx_model::{Listed, Name, TypeId, TypeNode, Word};
use cxx_types::TypeTable;
use std::alloc::{AllocError, Global};

/// What of a function is hashed: what its printed name is made of, and the class or the enumeration at the end of the type of
/// each parameter. Functions that have one number have one mark, and few others have it.
#[derive(PartialEq, Eq, Hash, Drop)]
pub(crate) struct Mark {
    pub(crate) stem: Word,
    pub(crate) ends: Listed<u64>,
}

// What stands at the end of a type behind its pointers, references, arrays and cv words (8.3).
fn end_of(types: &TypeTable, number: TypeId) -> u64
    requires { number.0 < length types.now }
    ensures { result ≡ end_of_type (type_at types.now number.0) }
{
    match types.node(number) {
        TypeNode::Class(class) => 2 * class.0 as u64 + 1,
        TypeNode::Enum(named) => 2 * named.0 as u64 + 2,
        TypeNode::Pointer(of) => end_of(types, *of),
        TypeNode::Reference(of) => end_of(types, *of),
        TypeNode::Array(of, _) => end_of(types, *of),
        TypeNode::Qualified(_, of) => end_of(types, *of),
        _ => 0,
    }
}

// The ends of some types.
fn ends_of(types: &TypeTable, numbers: &[TypeId], alloc: Global) -> Result<Listed<u64>, AllocError>
    requires { AreTypesBelow (length types.now) numbers.now }
    ensures { IfOk result (λ ends. ends ≡ ends_of_types (types_at types.now numbers.now)) }
{
    let mut ends = Listed::new(alloc);
    for number in numbers {
        ends.push(end_of(types, *number))?;
    }
    Ok(ends)
}

// Those of the parameters of a function.
fn ends_by(types: &TypeTable, of: TypeId, alloc: Global) -> Result<Listed<u64>, AllocError>
    requires { of.0 < length types.now }
    ensures { IfOk result (λ ends. ends ≡ ends_by_type (type_at types.now of.0)) }
{
    match types.node(of) {
        TypeNode::Function { parameters, .. } => ends_of(types, parameters.as_slice(), alloc),
        _ => Ok(Listed::new(alloc)),
    }
}

/// The mark of a function with a name and a type.
pub(crate) fn mark_of(
    types: &TypeTable,
    name: &Name,
    of: TypeId,
    alloc: Global,
) -> Result<Mark, AllocError>
    requires { of.0 < length types.now }
    ensures { IfOk result (λ mark. mark ≡ mark_by (name_at types.now name.now) (type_at types.now of.0)) }
{
    let stem = Listed::from_slice(alloc, name_stem(name))?;
    let ends = ends_by(types, of, alloc)?;
    Ok(Mark { stem, ends })
}

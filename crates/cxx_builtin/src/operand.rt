//! What an operator sees of an operand.
ghost use Rattle.std.specs.Prelude.{◌≡◌, ◌<◌, [], length};
ghost use Rattle.cxx_model.specs.Facts.Fitted.{Fitted};
ghost use Rattle.cxx_model.specs.Types.Numbers.{type_at};
ghost use Rattle.cxx_meaning.specs.Conversions.BuiltIn as definition;
ghost use Rattle.cxx_meaning.specs.Conversions.Kinds.{is_array as is_array_type};
ghost use Rattle.cxx_meaning.specs.Conversions.Pointers as pointers;
ghost use Rattle.cxx_standard.specs.Views.{kind_at, operand_at, IsKindBelow, IsKindInRange};

use cxx_graph::Graph;
use cxx_model::{Operand, TypeId, TypeNode};
use cxx_standard::{TypeKind, cv_of, is_function, value_kind};
use cxx_types::TypeTable;

/// The kind of the value of an operand (4.1 to 4.3).
pub fn operand_kind(graph: &Graph, types: &TypeTable, one: Operand) -> TypeKind
    requires known { one.of.0 < length types.now }
    requires fitted { Fitted graph.now types.now }
    ensures is { kind_at types.now result ≡ definition.operand_kind (operand_at types.now one) }
    ensures below { IsKindBelow (length types.now) result }
    ensures range { IsKindInRange graph.now (kind_at types.now result) }
{
    if is_function(types, one.of) && !one.lvalue {
        TypeKind::Other
    } else {
        value_kind(graph, types, one.of)
    }
}

pub(crate) fn is_condition(kind: TypeKind) -> bool
    ensures { result ≡ definition.is_condition (kind_at [] kind) }
{
    match kind {
        TypeKind::Arithmetic(_) | TypeKind::Enumeration(_) | TypeKind::Pointer(_) => true,
        _ => false,
    }
}

pub(crate) fn is_void(kind: TypeKind) -> bool
    ensures { result ≡ pointers.is_void (kind_at [] kind) }
{
    match kind {
        TypeKind::Void => true,
        _ => false,
    }
}

fn is_array(types: &TypeTable, number: TypeId) -> bool
    requires { number.0 < length types.now }
    ensures { result ≡ is_array_type (type_at types.now number.0) }
{
    match types.node(number) {
        TypeNode::Array(_, _) => true,
        _ => false,
    }
}

pub(crate) fn is_modifiable(types: &TypeTable, one: Operand) -> bool
    requires { one.of.0 < length types.now }
    ensures { result ≡ definition.is_modifiable (operand_at types.now one) }
{
    one.lvalue
        && (!cv_of(types, one.of).is_const
            && (!is_array(types, one.of) && !is_function(types, one.of)))
}

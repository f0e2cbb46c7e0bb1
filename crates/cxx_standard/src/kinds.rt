ghost use Rattle.std.specs.Prelude.{◌≡◌, ◌<◌, [], length};
ghost use Rattle.cxx_model.specs.Facts.Fitted.{Fitted};
ghost use Rattle.cxx_model.specs.Types.Numbers.{type_at};
ghost use Rattle.cxx_meaning.specs.Conversions.Kinds.{kind_of as kind_of_type, kind_of_base, value_kind as value_kind_of, is_function as is_function_type};
ghost use Rattle.cxx_standard.specs.Views.{kind_at, IsKindBelow, IsKindInRange};

use cxx_graph::Graph;
use cxx_model::{Base, ClassId, EnumId, TypeId, TypeNode};
use cxx_types::TypeTable;

/// What a conversion sees of a type, its own cv words aside (clause 4).
#[derive(Clone, Copy)]
pub enum TypeKind {
    Void,
    Arithmetic(Base),
    Enumeration(EnumId),
    /// To that type.
    Pointer(TypeId),
    Class(ClassId),
    /// An array, a function, a reference, and a type that depends on parameters of templates.
    Other,
}

fn kind_of_plain(of: Base) -> TypeKind
    ensures { kind_at [] result ≡ kind_of_base of }
{
    match of {
        Base::Void => TypeKind::Void,
        _ => TypeKind::Arithmetic(of),
    }
}

fn kind_in(types: &TypeTable, number: TypeId) -> TypeKind
    requires { number.0 < length types.now }
    ensures is { kind_at types.now result ≡ kind_of_type (type_at types.now number.0) }
    ensures below { IsKindBelow (length types.now) result }
{
    match types.node(number) {
        TypeNode::Plain(of) => kind_of_plain(*of),
        TypeNode::Class(class) => TypeKind::Class(*class),
        TypeNode::Enum(enumeration) => TypeKind::Enumeration(*enumeration),
        TypeNode::Pointer(to) => TypeKind::Pointer(*to),
        TypeNode::Qualified(_, of) => kind_in(types, *of),
        _ => TypeKind::Other,
    }
}

/// The kind of a type.
pub fn kind_of(graph: &Graph, types: &TypeTable, number: TypeId) -> TypeKind
    requires known { number.0 < length types.now }
    requires fitted { Fitted graph.now types.now }
    ensures is { kind_at types.now result ≡ kind_of_type (type_at types.now number.0) }
    ensures below { IsKindBelow (length types.now) result }
    ensures range { IsKindInRange graph.now (kind_at types.now result) }
{
    let _ = graph;
    kind_in(types, number)
}

/// The kind of the value of an expression of a type (4.1 to 4.3).
pub fn value_kind(graph: &Graph, types: &TypeTable, number: TypeId) -> TypeKind
    requires known { number.0 < length types.now }
    requires fitted { Fitted graph.now types.now }
    ensures is { kind_at types.now result ≡ value_kind_of (type_at types.now number.0) }
    ensures below { IsKindBelow (length types.now) result }
    ensures range { IsKindInRange graph.now (kind_at types.now result) }
{
    match types.node(number) {
        TypeNode::Array(element, _) => TypeKind::Pointer(*element),
        TypeNode::Function { .. } => TypeKind::Pointer(number),
        _ => kind_of(graph, types, number),
    }
}

/// Whether a type is that of a function (8.3.5).
pub fn is_function(types: &TypeTable, number: TypeId) -> bool
    requires { number.0 < length types.now }
    ensures { result ≡ is_function_type (type_at types.now number.0) }
{
    match types.node(number) {
        TypeNode::Function { .. } => true,
        _ => false,
    }
}

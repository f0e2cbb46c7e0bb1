//! Tests of types (3.9.1, 8.3).

ghost use Rattle.std.specs.Prelude.{◌≡◌, ◌<◌, length};
ghost use Rattle.cxx_model.specs.Facts.Conflicts.{is_unknown as is_unknown_bound};
ghost use Rattle.cxx_model.specs.Types.Numbers.{bound_at, type_at};
ghost use Rattle.cxx_reading.specs.Declarators as declarator;
ghost use Rattle.cxx_reading.specs.Units as definition;

use cxx_model::{Bound, TypeId, TypeNode};
use cxx_types::TypeTable;

/// A reference (8.3.2).
pub fn is_reference(types: &TypeTable, number: TypeId) -> bool
    requires { number.0 < length types.now }
    ensures { result ≡ declarator.is_reference (type_at types.now number.0) }
{
    match types.node(number) {
        TypeNode::Reference(_) => true,
        _ => false,
    }
}

/// A function (8.3.5).
pub fn is_function_type(types: &TypeTable, number: TypeId) -> bool
    requires { number.0 < length types.now }
    ensures { result ≡ declarator.is_function_type (type_at types.now number.0) }
{
    match types.node(number) {
        TypeNode::Function { .. } => true,
        _ => false,
    }
}

/// A constant, or an array of constants (8.5).
pub fn is_const_type(types: &TypeTable, number: TypeId) -> bool
    requires { number.0 < length types.now }
    ensures { result ≡ definition.is_const_type (type_at types.now number.0) }
{
    match types.node(number) {
        TypeNode::Qualified(cv, _) => cv.is_const,
        TypeNode::Array(element, _) => is_const_type(types, *element),
        _ => false,
    }
}

/// A class, or an array of such (8.5).
pub fn is_made_of_class(types: &TypeTable, number: TypeId) -> bool
    requires { number.0 < length types.now }
    ensures { result ≡ definition.is_made_of_class (type_at types.now number.0) }
{
    match types.node(number) {
        TypeNode::Class(_) => true,
        TypeNode::Array(element, _) => is_made_of_class(types, *element),
        TypeNode::Qualified(_, of) => is_made_of_class(types, *of),
        _ => false,
    }
}

fn is_unknown(types: &TypeTable, bound: &Bound) -> bool
    ensures { result ≡ is_unknown_bound (bound_at types.now bound.now) }
{
    let _ = types;
    match bound {
        Bound::Unknown => true,
        _ => false,
    }
}

/// An array without a bound, or of such arrays (8.3.4).
pub fn is_unbounded(types: &TypeTable, number: TypeId) -> bool
    requires { number.0 < length types.now }
    ensures { result ≡ definition.is_unbounded (type_at types.now number.0) }
{
    match types.node(number) {
        TypeNode::Array(element, bound) => is_unknown(types, bound)
            || is_unbounded(types, *element),
        _ => false,
    }
}

//! Types that lead to no namespace (3.4.2).

ghost use Rattle.std.specs.Prelude.{◌≡◌, ◌<◌, length};
ghost use Rattle.cxx_found.specs.Associated.{given};
ghost use Rattle.cxx_found.specs.Nowhere as definition;
ghost use Rattle.cxx_model.specs.Types.Numbers.{AreTypesBelow, type_at, types_at};

use cxx_model::{TypeId, TypeNode};
use cxx_types::TypeTable;

// Whether a type is a fundamental one, under pointers, references, arrays and cv words.
fn is_simple(types: &TypeTable, of: TypeId) -> bool
    requires { of.0 < length types.now }
    ensures { result ≡ definition.is_simple (type_at types.now of.0) }
{
    match types.node(of) {
        TypeNode::Plain(_) => true,
        TypeNode::Pointer(of) => is_simple(types, *of),
        TypeNode::Reference(of) => is_simple(types, *of),
        TypeNode::Array(of, _) => is_simple(types, *of),
        TypeNode::Qualified(_, of) => is_simple(types, *of),
        _ => false,
    }
}

// Whether each of some types is such a one.
#[tactic(auto, using(crate::proofs::Leading::below_at))]
fn are_simple(types: &TypeTable, numbers: &[TypeId]) -> bool
    requires { AreTypesBelow (length types.now) numbers.now }
    ensures { result ≡ definition.are_simple (types_at types.now numbers.now) }
{
    for number in numbers {
        if !is_simple(types, *number) {
            return false;
        }
    }
    true
}

// Whether a type leads to no class and to no enumeration: such a type, or a function of such types, under pointers,
// references, arrays and cv words.
#[tactic(auto, using(crate::proofs::Leading::below_all))]
fn leads_nowhere(types: &TypeTable, of: TypeId) -> bool
    requires { of.0 < length types.now }
    ensures { result ≡ definition.leads_nowhere (type_at types.now of.0) }
{
    match types.node(of) {
        TypeNode::Plain(_) => true,
        TypeNode::Pointer(of) => leads_nowhere(types, *of),
        TypeNode::Reference(of) => leads_nowhere(types, *of),
        TypeNode::Array(of, _) => leads_nowhere(types, *of),
        TypeNode::Qualified(_, of) => leads_nowhere(types, *of),
        TypeNode::Function {
            result,
            parameters,
            ..
        } => is_simple(types, *result) && are_simple(types, parameters.as_slice()),
        _ => false,
    }
}

/// Whether each of some types does.
#[tactic(auto, using(crate::proofs::Leading::below_at))]
pub(crate) fn lead_nowhere(types: &TypeTable, numbers: &[TypeId]) -> bool
    requires { AreTypesBelow (length types.now) numbers.now }
    ensures { result ≡ definition.lead_nowhere (given types.now numbers.now) }
{
    for number in numbers {
        if !leads_nowhere(types, *number) {
            return false;
        }
    }
    true
}

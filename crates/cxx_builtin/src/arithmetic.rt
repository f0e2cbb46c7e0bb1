//! Operands with arithmetic values (4.5, clause 5).
ghost use Rattle.std.specs.Prelude.{◌≡◌};
ghost use Rattle.cxx_model.specs.Facts.Declarations.{graph_at};
ghost use Rattle.cxx_meaning.specs.Conversions.Arithmetic as definition;
ghost use Rattle.cxx_standard.specs.Views.{kind_at, IsKindInRange};

use cxx_graph::Graph;
use cxx_model::Base;
use cxx_standard::{TypeKind, is_floating, promoted, promoted_base, same_base};
use cxx_types::TypeTable;

pub(crate) fn number_of(graph: &Graph, types: &TypeTable, kind: TypeKind) -> Option<Base>
    requires { IsKindInRange graph.now (kind_at types.now kind) }
    ensures { result ≡ definition.number_of (graph_at types.now graph.now) (kind_at types.now kind) }
{
    match kind {
        TypeKind::Arithmetic(of) => Some(of),
        TypeKind::Enumeration(number) => promoted(graph, types, number),
        _ => None,
    }
}

fn if_integral(of: Option<Base>) -> Option<Base>
    ensures { result ≡ definition.if_integral of }
{
    match of {
        None => None,
        Some(of) => { if is_floating(of) { None } else { Some(of) } }
    }
}

/// The integral type of a value, where it has one; a value of an enumeration has the type to which it is promoted.
pub fn integer_of(graph: &Graph, types: &TypeTable, kind: TypeKind) -> Option<Base>
    requires { IsKindInRange graph.now (kind_at types.now kind) }
    ensures { result ≡ definition.integer_of (graph_at types.now graph.now) (kind_at types.now kind) }
{
    if_integral(number_of(graph, types, kind))
}

/// The type to which the integral promotions alone convert a value (4.5).
pub fn integral_promoted(of: Base) -> Base
    ensures { result ≡ definition.integral_promoted of }
{
    if is_floating(of) {
        of
    } else {
        promoted_base(of)
    }
}

fn is_either(wanted: Base, one: Base, two: Base) -> bool
    ensures { result ≡ definition.is_either wanted one two }
{
    same_base(one, wanted) || same_base(two, wanted)
}

fn usual_of_promoted(one: Base, two: Base) -> Base
    ensures { result ≡ definition.usual_of_promoted one two }
{
    if is_either(Base::UnsignedLong, one, two) {
        Base::UnsignedLong
    } else if is_either(Base::Long, one, two) {
        Base::Long
    } else if is_either(Base::Unsigned, one, two) {
        Base::Unsigned
    } else {
        Base::Int
    }
}

/// The type to which the usual arithmetic conversions convert values of two types.
#[tactic(auto, unfolding(cxx_meaning::specs::Conversions::Arithmetic::usual))]
pub fn usual(one: Base, two: Base) -> Base
    ensures { result ≡ definition.usual one two }
{
    if is_either(Base::LongDouble, one, two) {
        Base::LongDouble
    } else if is_either(Base::Double, one, two) {
        Base::Double
    } else if is_either(Base::Float, one, two) {
        Base::Float
    } else {
        usual_of_promoted(promoted_base(one), promoted_base(two))
    }
}

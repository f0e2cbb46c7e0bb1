//! Which types are the same for two declarations of one name (3.5, 8.3.5, 13.1).

ghost use Rattle.std.specs.Prelude.{◌≡◌, ◌<◌, length};
ghost use Rattle.cxx_model.specs.Facts.Conflicts.{agree as agree_of, array_parts, is_unknown as is_one_unknown, same_but_bound, same_parameters as same_parameter_lists};
ghost use Rattle.cxx_model.specs.Facts.Declarations.{facts_at, graph_at};
ghost use Rattle.cxx_model.specs.Facts.Entities.{has_end};
ghost use Rattle.cxx_model.specs.Types.Numbers.{AreTypesBelow, bound_at, type_at, types_at};
ghost use Rattle.cxx_model.specs.Types.Same.{same_bool as same_bool_of, same_cv as same_cv_of, same_type, same_types as same_types_of};
ghost use Rattle.cxx_model.specs.Types.Trees.{CxxType, class_type, enumeration};
ghost use Rattle.cxx_reading.specs.Units.{is_incomplete as is_incomplete_of};
ghost use Rattle.std.specs.Prelude.{List};

use cxx_graph::Graph;
use cxx_model::{Bound, ClassId, Cv, EnumId, TypeId, TypeNode};
use cxx_types::TypeTable;

fn same_bool(one: bool, two: bool) -> bool
    ensures { result ≡ same_bool_of one two }
{
    if one { two } else { !two }
}

fn same_cv(one: Cv, two: Cv) -> bool
    ensures { result ≡ same_cv_of one two }
{
    same_bool(one.is_const, two.is_const) && same_bool(one.is_volatile, two.is_volatile)
}

#[tactic(auto, using(crate::proofs::Types::below_first))]
fn same_types(types: &TypeTable, ones: &[TypeId], twos: &[TypeId]) -> bool
    requires ones { AreTypesBelow (length types.now) ones.now }
    requires twos { AreTypesBelow (length types.now) twos.now }
    ensures { result ≡ same_types_of (types_at types.now ones.now) (types_at types.now twos.now) }
{
    let (mut ones, mut twos) = (ones, twos);
    while let [one, other_ones @ ..] = ones {
        let [two, other_twos @ ..] = twos else {
            return false;
        };
        if !types.same(*one, *two) {
            return false;
        }
        ones = other_ones;
        twos = other_twos;
    }
    twos.is_empty()
}

/// Whether two functions have the same parameters; the words behind the lists are not compared where one of the
/// functions is static.
#[tactic(auto, using(crate::proofs::Types::are_functions, crate::proofs::Types::one_is_none, crate::proofs::Types::two_is_none, crate::proofs::Types::parameters_below))]
pub(crate) fn same_parameters(types: &TypeTable, any_static: bool, one: TypeId, two: TypeId) -> bool
    requires one { one.0 < length types.now }
    requires two { two.0 < length types.now }
    ensures { result ≡ same_parameter_lists any_static (type_at types.now one.0) (type_at types.now two.0) }
{
    match types.node(one) {
        TypeNode::Function {
            parameters: ones,
            ellipsis: first,
            cv,
            ..
        } => match types.node(two) {
            TypeNode::Function {
                parameters: twos,
                ellipsis: second,
                cv: other,
                ..
            } => {
                same_types(types, ones.as_slice(), twos.as_slice())
                    && (same_bool(*first, *second) && (any_static || same_cv(*cv, *other)))
            }
            _ => false,
        },
        _ => false,
    }
}

fn is_unknown(bound: &Bound) -> bool
    ensures { (types : List CxxType) → result ≡ is_one_unknown (bound_at types bound.now) }
{
    match bound {
        Bound::Unknown => true,
        _ => false,
    }
}

#[tactic(auto, using(crate::proofs::Types::are_arrays, crate::proofs::Types::one_no_array, crate::proofs::Types::two_no_array))]
fn same_arrays(types: &TypeTable, one: TypeId, two: TypeId) -> bool
    requires one { one.0 < length types.now }
    requires two { two.0 < length types.now }
    ensures { result ≡ same_but_bound (array_parts (type_at types.now one.0)) (array_parts (type_at types.now two.0)) }
{
    match types.node(one) {
        TypeNode::Array(one, bound) => match types.node(two) {
            TypeNode::Array(two, end) => {
                types.same(*one, *two) && (is_unknown(bound) || is_unknown(end))
            }
            _ => false,
        },
        _ => false,
    }
}

/// Whether two types are one for declarations of one object: an array with a bound and one without are (3.5).
pub fn agree(types: &TypeTable, one: TypeId, two: TypeId) -> bool
    requires one { one.0 < length types.now }
    requires two { two.0 < length types.now }
    ensures { result ≡ agree_of (type_at types.now one.0) (type_at types.now two.0) }
{
    types.same(one, two) || same_arrays(types, one, two)
}

/// Whether a type is a class.
#[tactic(auto, using(crate::proofs::Types::is_the_class, crate::proofs::Types::is_no_class))]
pub(crate) fn is_class(types: &TypeTable, of: TypeId, class: ClassId) -> bool
    requires { of.0 < length types.now }
    ensures { result ≡ same_type (class_type class.0) (type_at types.now of.0) }
{
    match types.node(of) {
        TypeNode::Class(other) => other.0 == class.0,
        _ => false,
    }
}

/// Whether a type is an enumeration.
#[tactic(auto, using(crate::proofs::Types::is_the_enumeration, crate::proofs::Types::is_no_enumeration))]
pub(crate) fn is_enumeration(types: &TypeTable, of: TypeId, number: EnumId) -> bool
    requires { of.0 < length types.now }
    ensures is { result ≡ same_type (type_at types.now of.0) (enumeration number.0) }
    ensures turned { result ≡ same_type (enumeration number.0) (type_at types.now of.0) }
{
    match types.node(of) {
        TypeNode::Enum(other) => other.0 == number.0,
        _ => false,
    }
}

/// Whether the end of a class was read (9.2).
#[tactic(auto, using(crate::proofs::Ended::ended_known, crate::proofs::Ended::ended_past))]
pub(crate) fn is_ended(graph: &Graph, class: ClassId) -> bool
    ensures { (types : List CxxType) → result ≡ has_end class.0 (facts_at types graph.now.facts) }
{
    graph.in_range();
    if class.0 < graph.class_count() {
        graph.complete(class)
    } else {
        false
    }
}

/// Whether a type is a class whose end was not read, or an array of such (9.2).
pub fn is_incomplete(graph: &Graph, types: &TypeTable, of: TypeId) -> bool
    requires { of.0 < length types.now }
    ensures { result ≡ is_incomplete_of (graph_at types.now graph.now) (type_at types.now of.0) }
{
    match types.node(of) {
        TypeNode::Class(class) => !is_ended(graph, *class),
        TypeNode::Array(element, _) => is_incomplete(graph, types, *element),
        TypeNode::Qualified(_, of) => is_incomplete(graph, types, *of),
        _ => false,
    }
}

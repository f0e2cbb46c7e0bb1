//! Whether what is declared may stand in a unit.

ghost use Rattle.std.specs.Prelude.{◌≡◌, ◌<◌, ◌≤◌, ◌+◌, ◌∷◌, [], true, false, length, IsTrue};
ghost use Rattle.cxx_builtin.specs.Plans.{AreOperandsBelow};
ghost use Rattle.cxx_candidate_tests.specs.Units.{IsPartKnown};
ghost use Rattle.cxx_model.specs.Facts.Fitted.{IsEntityBelow, IsFactBelow, IsNameBelow};
ghost use Rattle.cxx_model.specs.Facts.Graph.{IsEntityInRange, IsKindInRange, enumerations, is_complete};

use crate::parts::Part;
use cxx_graph::Graph;
use cxx_model::{ClassId, Entity, Fact, Name, Operand, ScopeId, ScopeKind, TypeId};
use cxx_types::TypeTable;

pub(crate) fn is_class(graph: &Graph, class: ClassId) -> bool
    ensures { IsTrue result → class.0 < length graph.now.classes }
{
    class.0 < graph.class_count()
}

fn enumerates(fact: &Fact) -> usize
    ensures is { result ≡ enumerations (fact.now ∷ []) }
    ensures one { result ≤ 1 }
{
    match fact.what {
        Entity::Enumeration { .. } => 1,
        _ => 0,
    }
}

/// How many enumerations there are (7.2).
#[tactic(auto, using(crate::proofs::Growing::enumerations_first))]
pub(crate) fn enumeration_count(graph: &Graph) -> usize
    ensures { result ≡ enumerations graph.now.facts }
{
    let mut count = 0;
    for fact in graph.facts() {
        count += enumerates(fact);
    }
    count
}

fn is_kind(graph: &Graph, kind: ScopeKind) -> bool
    ensures { IsTrue result → IsKindInRange graph.now kind }
{
    match kind {
        ScopeKind::Space => true,
        ScopeKind::Class(class) => is_class(graph, class),
        _ => false,
    }
}

// 10: whether a class may have another as its base.
fn is_base(graph: &Graph, class: ClassId, parent: ClassId) -> bool
    ensures class { IsTrue result → class.0 < length graph.now.classes }
    ensures parent { IsTrue result → parent.0 < length graph.now.classes }
    ensures whole { IsTrue result → is_complete graph.now.facts parent.0 ≡ true }
    ensures open { IsTrue result → is_complete graph.now.facts class.0 ≡ false }
{
    is_class(graph, class)
        && is_class(graph, parent)
        && graph.complete(parent)
        && !graph.complete(class)
}

/// Whether what a fact names is there; declarations behind a first one are not among the rows.
pub(crate) fn is_in_range(graph: &Graph, fact: &Fact) -> bool
    ensures { IsTrue result → IsEntityInRange graph.now fact.now fact.now.what }
{
    match fact.what {
        Entity::Scope {
            parent: Some(parent),
            kind,
        } => parent == fact.scope && is_kind(graph, kind),
        Entity::Function { first: None, .. } => true,
        Entity::Class { class, .. } => is_class(graph, class),
        Entity::Complete { class } => is_class(graph, class),
        Entity::Ancestor { class, parent, .. } => is_base(graph, class, parent),
        Entity::Enumeration { number } => number.0 as usize == enumeration_count(graph),
        _ => false,
    }
}

/// Whether a number is that of one of the types, of which there are at least so many.
fn is_type(types: &TypeTable, known: u64, of: TypeId) -> bool
    requires { known ≤ length types.now }
    ensures { IsTrue result → of.0 < length types.now }
{
    let _ = types;
    of.0 < known
}

fn is_typed(types: &TypeTable, known: u64, what: Entity) -> bool
    requires { known ≤ length types.now }
    ensures { IsTrue result → IsEntityBelow (length types.now) what }
{
    match what {
        Entity::Object { .. } | Entity::Parameter { .. } | Entity::Synonym { .. } => false,
        Entity::Function { of, .. } => is_type(types, known, of),
        _ => true,
    }
}

fn is_name(types: &TypeTable, known: u64, name: &Name) -> bool
    requires { known ≤ length types.now }
    ensures { IsTrue result → IsNameBelow (length types.now) name.now }
{
    match name {
        Name::Conversion(of) => is_type(types, known, *of),
        _ => true,
    }
}

/// Whether the types that a fact names are there.
pub(crate) fn is_below(types: &TypeTable, known: u64, fact: &Fact) -> bool
    requires { known ≤ length types.now }
    ensures { IsTrue result → IsFactBelow (length types.now) fact.now }
{
    is_name(types, known, &fact.name) && is_typed(types, known, fact.what)
}

/// Whether what a part of a type names is there.
pub(crate) fn is_part(graph: &Graph, types: &TypeTable, known: u64, part: Part) -> bool
    requires { known ≤ length types.now }
    ensures { IsTrue result → IsPartKnown graph.now (length types.now) part }
{
    match part {
        Part::Plain(_) => true,
        Part::Class(class) => is_class(graph, class),
        Part::Enumeration(number) => (number.0 as usize) < enumeration_count(graph),
        Part::PointerTo(of) => is_type(types, known, of),
        Part::ReferenceTo(of) => is_type(types, known, of),
        Part::ArrayOf(of) => is_type(types, known, of),
        Part::FunctionTo(of) => is_type(types, known, of),
        Part::Words(_, of) => is_type(types, known, of),
    }
}

/// Whether the types of operands are there.
pub(crate) fn are_typed(types: &TypeTable, known: u64, operands: &[Operand]) -> bool
    requires { known ≤ length types.now }
    ensures { IsTrue result → AreOperandsBelow (length types.now) operands.now }
{
    match operands {
        [] => true,
        [one, others @ ..] => is_type(types, known, one.of) && are_typed(types, known, others),
    }
}

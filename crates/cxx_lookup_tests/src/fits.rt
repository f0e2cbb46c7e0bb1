//! Whether a declaration may stand in a unit.

ghost use Rattle.std.specs.Prelude.{◌≡◌, ◌<◌, ◌≤◌, ◌+◌, ◌∷◌, [], true, false, length, IfOk, IsTrue};
ghost use Rattle.cxx_model.specs.Facts.Fitted.{IsEntityBelow, IsNameBelow};
ghost use Rattle.cxx_model.specs.Facts.Graph.{IsEntityInRange, IsKindInRange, enumerations, is_complete};
ghost use Rattle.cxx_lookup_tests.specs.Units.{IsUnit};

use crate::stopped::Stopped;
use crate::unit::{Unit, add};
use cxx_graph::Graph;
use cxx_model::{ClassId, Entity, Fact, FactId, Name, ScopeId, ScopeKind, TypeId};

pub(crate) fn is_class(graph: &Graph, class: ClassId) -> bool
    ensures { IsTrue result → class.0 < length graph.now.classes }
{
    class.0 < graph.class_count()
}

fn is_fact(graph: &Graph, number: FactId) -> bool
    ensures { IsTrue result → number.0 < length graph.now.facts }
{
    number.0 < graph.length()
}

/// How many enumerations there are (7.2).
#[tactic(auto, using(crate::proofs::Growing::enumerations_first))]
pub(crate) fn enumeration_count(graph: &Graph) -> usize
    ensures { result ≡ enumerations graph.now.facts }
{
    let mut count = 0;
    for fact in graph.facts() {
        count += enumerates(fact);
    }
    count
}

fn enumerates(fact: &Fact) -> usize
    ensures is { result ≡ enumerations (fact.now ∷ []) }
    ensures one { result ≤ 1 }
{
    match fact.what {
        Entity::Enumeration { .. } => 1,
        _ => 0,
    }
}

fn is_kind(unit: &Unit, kind: ScopeKind) -> bool
    ensures { IsTrue result → IsKindInRange unit.now.graph kind }
{
    match kind {
        ScopeKind::Space => true,
        ScopeKind::Class(class) => is_class(&unit.graph, class),
        ScopeKind::Block(None) => true,
        ScopeKind::Block(Some(function)) => is_fact(&unit.graph, function),
        ScopeKind::Parameters => true,
    }
}

// 10: whether a class may have another as its base.
fn is_base(graph: &Graph, class: ClassId, parent: ClassId) -> bool
    ensures class { IsTrue result → class.0 < length graph.now.classes }
    ensures parent { IsTrue result → parent.0 < length graph.now.classes }
    ensures whole { IsTrue result → is_complete graph.now.facts parent.0 ≡ true }
    ensures open { IsTrue result → is_complete graph.now.facts class.0 ≡ false }
{
    is_class(graph, class)
        && is_class(graph, parent)
        && graph.complete(parent)
        && !graph.complete(class)
}

// Whether there are as many scopes.
fn is_scope(unit: &Unit, scope: ScopeId) -> bool
    ensures { IsTrue result → scope.0 < unit.now.scopes }
{
    scope.0 < unit.scopes
}

// Whether what an entity names is there; declarations behind a first one are not among the rows.
fn names(unit: &Unit, fact: &Fact) -> bool
    requires { IsUnit unit.now }
    ensures { IsTrue result → IsEntityInRange unit.now.graph fact.now fact.now.what }
{
    match fact.what {
        Entity::Scope {
            parent: Some(parent),
            kind,
        } => parent == fact.scope && is_kind(unit, kind),
        Entity::Object { first: None, .. } => true,
        Entity::Function { first: None, .. } => true,
        Entity::Template {
            template,
            first: None,
            ..
        } => (template.0 as usize) < unit.graph.patterns().len(),
        Entity::Injected { class } => is_class(&unit.graph, class),
        Entity::Class { class, .. } => is_class(&unit.graph, class),
        Entity::Complete { class } => is_class(&unit.graph, class),
        Entity::Passed { class } => is_class(&unit.graph, class),
        Entity::Ancestor { class, parent, .. } => is_base(&unit.graph, class, parent),
        Entity::Enumeration { number } => number.0 as usize == enumeration_count(&unit.graph),
        Entity::Synonym { .. } => true,
        Entity::Namespace { inner } => is_scope(unit, inner),
        Entity::Directive { nominated } => is_scope(unit, nominated),
        Entity::Using { target } => is_fact(&unit.graph, target),
        Entity::Friend { class, target } => {
            is_class(&unit.graph, class) && is_fact(&unit.graph, target)
        }
        _ => false,
    }
}

pub(crate) fn is_type(unit: &Unit, of: TypeId) -> bool
    requires { IsUnit unit.now }
    ensures { IsTrue result → of.0 < length unit.now.types }
{
    of.0 < unit.known
}

// Whether the type that an entity names is there.
fn is_typed(unit: &Unit, what: Entity) -> bool
    requires { IsUnit unit.now }
    ensures { IsTrue result → IsEntityBelow (length unit.now.types) what }
{
    match what {
        Entity::Object { of, .. } => is_type(unit, of),
        Entity::Function { of, .. } => is_type(unit, of),
        Entity::Parameter { of, .. } => is_type(unit, of),
        Entity::Synonym { of } => is_type(unit, of),
        _ => true,
    }
}

fn is_name(unit: &Unit, name: &Name) -> bool
    requires { IsUnit unit.now }
    ensures { IsTrue result → IsNameBelow (length unit.now.types) name.now }
{
    match name {
        Name::Conversion(of) => is_type(unit, *of),
        _ => true,
    }
}

fn fits(unit: &Unit, fact: &Fact) -> bool
    requires { IsUnit unit.now }
    ensures scope { IsTrue result → fact.now.scope.0 < unit.now.scopes }
    ensures names { IsTrue result → IsEntityInRange unit.now.graph fact.now fact.now.what }
    ensures name { IsTrue result → IsNameBelow (length unit.now.types) fact.now.name }
    ensures typed { IsTrue result → IsEntityBelow (length unit.now.types) fact.now.what }
{
    is_scope(unit, fact.scope)
        && names(unit, fact)
        && is_name(unit, &fact.name)
        && is_typed(unit, fact.what)
}

/// One more fact, where it may stand in the unit.
pub(crate) fn put(unit: Unit, fact: Fact) -> Result<Unit, Stopped>
    requires { IsUnit unit }
    ensures { IfOk result IsUnit }
{
    if !fits(&unit, &fact) {
        return Err(Stopped::IllRow);
    }
    add(unit, fact)
}

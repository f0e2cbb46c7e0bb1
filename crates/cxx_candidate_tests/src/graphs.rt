//! What is added to a graph.

ghost use Rattle.std.specs.Prelude.{ℕ, ◌≡◌, ◌<◌, ◌≤◌, ◌+◌, ◌∷◌, [], length, IfOk, OnOk};
ghost use Rattle.cxx_candidate_tests.specs.Units.{pattern_by, unit_fact};
ghost use Rattle.cxx_model.specs.Facts.Fitted.{Fitted, IsFactBelow};
ghost use Rattle.cxx_model.specs.Facts.Graph.{IsEntityInRange, IsTemplateInRange, scopes};

use crate::stopped::Stopped;
use cxx_graph::Graph;
use cxx_model::{
    Access, ClassId, Entity, Fact, Listed, Name, Pattern, Place, ScopeId, ScopeKind, TemplateId,
    TreeId,
};
use cxx_types::TypeTable;
use std::alloc::Global;

/// A declaration, at one place.
pub(crate) fn fact(scope: ScopeId, name: Name, what: Entity) -> Fact
    ensures { result ≡ record { place = record { line = 1; column = 1 }; scope = scope; name = name; access = Access.Public; what = what } }
{
    Fact {
        place: Place { line: 1, column: 1 },
        scope,
        name,
        access: Access::Public,
        what,
    }
}

/// The scope of the unit (3.3.5).
pub(crate) fn unit_scope() -> Fact
    ensures { result ≡ unit_fact }
{
    fact(
        ScopeId(0),
        Name::Unnamed,
        Entity::Scope {
            parent: None,
            kind: ScopeKind::Space,
        },
    )
}

/// How many scopes a fact opens.
pub(crate) fn opens(fact: &Fact) -> u32
    ensures { result ≡ scopes (fact.now ∷ []) }
{
    match fact.what {
        Entity::Scope { .. } => 1,
        _ => 0,
    }
}

/// Adds a fact, which stands in a scope that is there and names what is there.
pub(crate) fn add(graph: &mut Graph, types: &TypeTable, fact: Fact) -> Result<(), Stopped>
    requires fitted { Fitted graph.old types.now }
    requires scope { fact.scope.0 < scopes graph.old.facts }
    requires names { IsEntityInRange graph.old fact fact.what }
    requires below { IsFactBelow (length types.now) fact }
    ensures fitted { Fitted graph.new types.now }
    ensures grown { scopes graph.old.facts ≤ scopes graph.new.facts }
    ensures more { OnOk result (scopes graph.new.facts ≡ scopes graph.old.facts + scopes (fact ∷ [])) }
{
    let _ = types;
    graph.in_range();
    graph.add(fact)?;
    Ok(())
}

/// A class that no declaration names yet: a new one, or that of the specialisation of a template without arguments.
pub(crate) fn reserve(
    alloc: Global,
    graph: &mut Graph,
    types: &TypeTable,
    template: Option<TemplateId>,
) -> Result<ClassId, Stopped>
    requires known { IsTemplateInRange graph.old template }
    requires fitted { Fitted graph.old types.now }
    ensures fitted { Fitted graph.new types.now }
    ensures facts { graph.new.facts ≡ graph.old.facts }
{
    let _ = types;
    Ok(graph.reserve_class(template, &Listed::new(alloc))?)
}

fn pattern(alloc: Global, class: ClassId) -> Pattern
    ensures { result ≡ pattern_by class }
{
    Pattern {
        parameters: Listed::new(alloc),
        primary: None,
        arguments: Listed::new(alloc),
        of: None,
        class: Some(class),
        tree: TreeId(0),
    }
}

/// A template without parameters, which a class defines (14).
pub(crate) fn add_template(
    alloc: Global,
    graph: &mut Graph,
    types: &TypeTable,
    class: ClassId,
) -> Result<TemplateId, Stopped>
    requires known { class.0 < length graph.old.classes }
    requires fewer { length graph.old.patterns < length graph.old.facts }
    requires fitted { Fitted graph.old types.now }
    ensures fitted { Fitted graph.new types.now }
    ensures facts { graph.new.facts ≡ graph.old.facts }
    ensures there { IfOk result (λ template. template.0 < length graph.new.patterns) }
{
    let _ = types;
    Ok(graph.add_template(pattern(alloc, class))?)
}

//! Graphs that tests ask, and declarations in the scope of the unit. What a declaration names is tried first, so that a
//! test owes nothing.
ghost use Rattle.std.specs.Prelude.{◌≡◌, ◌<◌, ◌↔◌, length, IfOk, IsTrue, OnOk};
ghost use Rattle.cxx_model.specs.Facts.Graph.{IsClassNumberInRange, IsEntityInRange, IsPrimaryEarlier, appended};
ghost use Rattle.cxx_library_tests.specs.Sample.{sample, unit_facts};

use cxx_graph::{AddFault, Graph};
use cxx_hash::Key;
use cxx_model::{
    Access, Argument, ClassId, Entity, Fact, FactId, Listed, Name, Pattern, Place, ScopeId,
    ScopeKind, TemplateId, TreeId, TypeId,
};
use std::alloc::Global;

// A declaration of no name.
pub(crate) fn fact(scope: ScopeId, what: Entity) -> Fact
    ensures { result ≡ sample scope what }
{
    Fact {
        place: Place { line: 1, column: 1 },
        scope,
        name: Name::Unnamed,
        access: Access::Public,
        what,
    }
}

// 3.3.5: the scope of the unit alone.
pub(crate) fn unit(alloc: Global) -> Result<Graph, AddFault>
    ensures { IfOk result (λ graph. graph.facts ≡ unit_facts) }
{
    let mut graph = Graph::new(alloc, Key::of(&[]));
    let what = Entity::Scope {
        parent: None,
        kind: ScopeKind::Space,
    };
    graph.add(fact(ScopeId(0), what))?;
    Ok(graph)
}

// One more declaration in the scope of the unit.
pub(crate) fn declare(graph: &mut Graph, what: Entity) -> Result<FactId, AddFault>
    requires { IsEntityInRange graph.old (sample (record { 0 = 0 }) what) what }
    ensures { OnOk result (graph.new ≡ appended graph.old (sample (record { 0 = 0 }) what)) }
{
    if graph.length() == 0 {
        return Err(AddFault::Limit);
    }
    graph.add(fact(ScopeId(0), what))
}

// 7.1.3
pub(crate) fn synonym(graph: &mut Graph) -> Result<FactId, AddFault> {
    declare(graph, Entity::Synonym { of: TypeId(0) })
}

fn has(graph: &Graph, class: ClassId) -> bool
    ensures { IsTrue result ↔ (class.0 < length graph.now.classes) }
{
    class.0 < graph.class_count()
}

// A class of no template.
pub(crate) fn plain_class(graph: &mut Graph, alloc: Global) -> Result<ClassId, AddFault> {
    graph.reserve_class(None, &Listed::new(alloc))
}

// 14: a template of no parameters, behind a declaration more, so that there are more facts than templates.
pub(crate) fn template(
    graph: &mut Graph,
    alloc: Global,
    primary: Option<TemplateId>,
    class: Option<ClassId>,
    tree: u32,
) -> Result<TemplateId, AddFault> {
    let primary = known_template(graph, primary);
    let class = known_class(graph, class);
    if graph.patterns().len() >= graph.length() as usize {
        return Err(AddFault::Limit);
    }
    let pattern = Pattern {
        parameters: Listed::new(alloc),
        primary,
        arguments: Listed::new(alloc),
        of: None,
        class,
        tree: TreeId(tree),
    };
    Ok(graph.add_template(pattern)?)
}

fn known_template(graph: &Graph, number: Option<TemplateId>) -> Option<TemplateId>
    ensures { IsPrimaryEarlier (length graph.now.patterns) result }
{
    let number = number?;
    if (number.0 as usize) < graph.patterns().len() {
        Some(number)
    } else {
        None
    }
}

fn known_class(graph: &Graph, class: Option<ClassId>) -> Option<ClassId>
    ensures { IsClassNumberInRange graph.now result }
{
    let class = class?;
    if has(graph, class) { Some(class) } else { None }
}

// The class of a specialisation with one argument.
pub(crate) fn special(
    graph: &mut Graph,
    alloc: Global,
    template: TemplateId,
    argument: Argument,
) -> Result<ClassId, AddFault> {
    if template.0 as usize >= graph.patterns().len() {
        return Err(AddFault::Limit);
    }
    let mut arguments = Listed::new(alloc);
    arguments.push(argument)?;
    graph.reserve_class(Some(template), &arguments)
}

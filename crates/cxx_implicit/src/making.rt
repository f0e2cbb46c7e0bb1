//! The declarations of the members that a class declares by itself (12.1, 12.8).
ghost use Rattle.std.specs.Prelude.{◌≡◌, ◌<◌, ◌++◌, ℕ, List, length, IfOk, OnOk};
ghost use Rattle.std.specs.Option.{option_to_list};
ghost use Rattle.cxx_model.specs.Facts.Declarations.{fact_at, facts_at, graph_at, name_at};
ghost use Rattle.cxx_model.specs.Facts.Fitted.{AreFactsBelow, Fitted, IsNameBelow};
ghost use Rattle.cxx_model.specs.Facts.Graph.{EachMayFollow, scopes};
ghost use Rattle.cxx_model.specs.Types.Numbers.{Keeps, type_at};
ghost use Rattle.cxx_model.specs.Types.Trees.{CxxType};
ghost use Rattle.cxx_implicit.specs.Makes.{IsReady, MakesFact};
ghost use Rattle.cxx_implicit.specs.Members as definition;
ghost use Rattle.cxx_implicit.specs.Noted.{Notes};

use crate::index::SpecialMembers;
use crate::kinds::{copy_assignment_type, copy_constructor_type, default_constructor_type};
use cxx_graph::Graph;
use cxx_model::{
    Access, ClassId, Cv, Entity, Fact, FunctionFlags, MemberKind, Name, OutOfMemory, Place,
    ScopeId, TypeId, punct,
};
use cxx_types::TypeTable;
use std::alloc::Global;

// A public member that its class declares by itself.
fn implicit_member(scope: ScopeId, place: Place, name: Name, member: MemberKind, of: TypeId) -> Fact
    ensures is { (types : List CxxType) → fact_at types result ≡ definition.implicit_member scope.0 place (name_at types name) member (type_at types of.0) }
    ensures ready { (count : ℕ) → of.0 < count → IsNameBelow count name → IsReady count scope result }
{
    Fact {
        place,
        scope,
        name,
        access: Access::Public,
        what: Entity::Function {
            of,
            member,
            flags: FunctionFlags {
                is_virtual: false,
                is_pure: false,
                is_explicit: false,
                is_implicit: true,
            },
            defaults: 0,
            first: None,
        },
    }
}

fn default_constructor(
    types: &mut TypeTable,
    is_implied: bool,
    class: ClassId,
    scope: ScopeId,
    place: Place,
) -> Result<Option<Fact>, OutOfMemory>
    ensures { MakesFact class.0 scope types.old types.new result (definition.default_constructor is_implied scope.0 place) }
{
    let _ = class;
    if !is_implied {
        return Ok(None);
    }
    let of = default_constructor_type(types)?;
    Ok(Some(implicit_member(scope, place, Name::Unnamed, MemberKind::Constructor, of)))
}

fn copy_constructor(
    types: &mut TypeTable,
    implied: Option<Cv>,
    class: ClassId,
    scope: ScopeId,
    place: Place,
) -> Result<Option<Fact>, OutOfMemory>
    ensures { MakesFact class.0 scope types.old types.new result (definition.copy_constructor implied class.0 scope.0 place) }
{
    let Some(cv) = implied else {
        return Ok(None);
    };
    let of = copy_constructor_type(types, class, cv)?;
    Ok(Some(implicit_member(scope, place, Name::Unnamed, MemberKind::Constructor, of)))
}

fn copy_assignment(
    types: &mut TypeTable,
    implied: Option<Cv>,
    class: ClassId,
    scope: ScopeId,
    place: Place,
) -> Result<Option<Fact>, OutOfMemory>
    ensures { MakesFact class.0 scope types.old types.new result (definition.copy_assignment implied class.0 scope.0 place) }
{
    let Some(cv) = implied else {
        return Ok(None);
    };
    let of = copy_assignment_type(types, class, cv)?;
    Ok(Some(implicit_member(
        scope,
        place,
        Name::Operator(punct::EQUALS),
        MemberKind::Nonstatic,
        of,
    )))
}

fn push_some(facts: &mut Vec<Fact>, fact: Option<Fact>) -> Result<(), OutOfMemory>
    ensures { OnOk result (facts.new.items ≡ facts.old.items ++ option_to_list fact) }
{
    if let Some(fact) = fact {
        facts.push(fact)?;
    }
    Ok(())
}

fn listed(
    alloc: Global,
    one: Option<Fact>,
    two: Option<Fact>,
    three: Option<Fact>,
) -> Result<Vec<Fact>, OutOfMemory>
    ensures { IfOk result (λ facts. facts.items ≡ option_to_list one ++ (option_to_list two ++ option_to_list three)) }
{
    let mut facts = Vec::new(alloc);
    push_some(&mut facts, one)?;
    push_some(&mut facts, two)?;
    push_some(&mut facts, three)?;
    Ok(facts)
}

/// The members that a class declares by itself at its end (12.1, 12.8), in order, with their types made in the table. They
/// stand in the scope of the class, at a place. It takes a step for each base of the class and each member of a class.
pub fn implicit_members(
    alloc: Global,
    special: &SpecialMembers,
    graph: &Graph,
    types: &mut TypeTable,
    class: ClassId,
    scope: ScopeId,
    place: Place,
) -> Result<Vec<Fact>, OutOfMemory>
    requires class_known { class.0 < length graph.now.classes }
    requires scope_known { scope.0 < scopes graph.now.facts }
    requires fitted { Fitted graph.now types.old }
    requires noted { Notes special.now (graph_at types.old graph.now).facts }
    ensures keeps { Keeps types.old types.new }
    ensures fitted { Fitted graph.now types.new }
    ensures members { IfOk result (λ facts. facts_at types.new facts.items ≡ definition.implicit_members (graph_at types.new graph.now) class.0 scope.0 place) }

    // Each may be added to the graph in turn.
    ensures follow { IfOk result (λ facts. EachMayFollow graph.now graph.now.facts facts.items) }
    ensures below { IfOk result (λ facts. AreFactsBelow (length types.new) facts.items) }
{
    let _ = graph;
    let implied = special.implied(class);
    let one = default_constructor(types, implied.default_constructor, class, scope, place)?;
    let two = copy_constructor(types, implied.copy_constructor, class, scope, place)?;
    let three = copy_assignment(types, implied.copy_assignment, class, scope, place)?;
    listed(alloc, one, two, three)
}

//! Whether two declarations of one name may stand in one scope (3.3, 3.3.7, 7.1.3, 7.3.1, 7.3.3, 9.2, 13.1).

ghost use Rattle.std.specs.Prelude.{◌≡◌, ◌<◌, ◌&&◌, Bool, List, None, Some, length};
ghost use Rattle.cxx_model.specs.Facts.Conflicts.{a_function, a_hidden_name, a_name, an_enumerator, an_object, are_overloads as are_overloads_by, brought_may_stand, functions_agree as functions_agree_by, is_function as is_function_by, any_static as any_static_by, is_member as is_member_kind, is_static as is_static_kind, may_repeat as may_repeat_by, may_stand, number_of_member as number_of_kind, objects_agree as objects_agree_by, of_one_name as of_one_name_by, one_hides as one_hides_by, same_member, standing};
ghost use Rattle.cxx_model.specs.Facts.Declarations.{CxxGraph, declares_at, fact_at, graph_at};
ghost use Rattle.cxx_model.specs.Facts.Entities.{entity_by, of_space, of_type, same_entity};
ghost use Rattle.cxx_model.specs.Facts.Fitted.{IsEntityBelow, IsGraphBelow};
ghost use Rattle.cxx_model.specs.Types.Numbers.{type_at};
ghost use Rattle.cxx_model.specs.Types.Same.{same_bool as same_bool_of};
ghost use Rattle.cxx_model.specs.Types.Trees.{CxxType, class_type, enumeration};
ghost use Rattle.cxx_meaning.specs.Lookups.Wanted.{is_hideable as is_a_hideable};
ghost use Rattle.cxx_names.specs.Clashes.{IsNoTemplate, IsPlain, IsPlainEntity, NoTemplates, same_spelled, stand_in};

use crate::alike::{agree, is_class, is_enumeration, same_parameters};
use crate::entry::declares_name;
use crate::looked::{hides_types, is_function, is_of_functions};
use crate::meant::{Meaning, identity_of, is_using, meant, meant_plain, same_identity};
use cxx_graph::Graph;
use cxx_model::{ClassId, Entity, EnumId, Fact, MemberKind, Name, ScopeId, TypeId};
use cxx_types::TypeTable;

fn is_static(member: MemberKind) -> bool
    ensures { result ≡ is_static_kind member }
{
    match member {
        MemberKind::Static => true,
        _ => false,
    }
}

fn number_of_member(member: MemberKind) -> u32
    ensures { result ≡ number_of_kind member }
{
    match member {
        MemberKind::Free => 0,
        MemberKind::Nonstatic => 1,
        MemberKind::Static => 2,
        MemberKind::Constructor => 3,
        MemberKind::Destructor => 4,
        MemberKind::Conversion => 5,
    }
}

fn is_same_member(one: MemberKind, two: MemberKind) -> bool
    ensures { result ≡ same_member one two }
{
    number_of_member(one) == number_of_member(two)
}

fn is_member(member: MemberKind) -> bool
    ensures { result ≡ is_member_kind member }
{
    let is_free = number_of_member(member) == 0;
    !is_free
}

fn any_static(one: MemberKind, two: MemberKind) -> bool
    ensures { result ≡ any_static_by one two }
{
    is_static(one) || is_static(two)
}

// 9.2, 9.3: members are declared again behind the end of their class alone.
fn may_repeat(closed: bool, one: MemberKind, two: MemberKind) -> bool
    ensures { result ≡ may_repeat_by closed one two }
{
    let both = is_member(one) && is_member(two);
    closed || !both
}

// 13.1: with other parameters they are overloads, with the same ones declarations of one function.
fn functions_agree(
    types: &TypeTable,
    closed: bool,
    one: TypeId,
    member: MemberKind,
    two: TypeId,
    other: MemberKind,
) -> bool
    requires one { one.0 < length types.now }
    requires two { two.0 < length types.now }
    ensures { result ≡ functions_agree_by closed (type_at types.now one.0) member (type_at types.now two.0) other }
{
    if same_parameters(types, any_static(member, other), one, two) {
        types.same(one, two) && (is_same_member(member, other) && may_repeat(closed, member, other))
    } else {
        true
    }
}

fn objects_agree(
    types: &TypeTable,
    closed: bool,
    one: TypeId,
    member: MemberKind,
    two: TypeId,
    other: MemberKind,
) -> bool
    requires one { one.0 < length types.now }
    requires two { two.0 < length types.now }
    ensures { result ≡ objects_agree_by closed (type_at types.now one.0) member (type_at types.now two.0) other }
{
    agree(types, one, two) && (is_same_member(member, other) && may_repeat(closed, member, other))
}

#[tactic(auto, using(crate::proofs::Pairs::template_function))]
fn function_stands(
    graph: &Graph,
    types: &TypeTable,
    closed: bool,
    old: Entity,
    of: TypeId,
    other: MemberKind,
) -> bool
    requires old { IsEntityBelow (length types.now) old }
    requires of { of.0 < length types.now }
    ensures { result ≡ may_stand closed (standing (graph_at types.now graph.now) (declares_at types.now old)) (a_function (type_at types.now of.0) other) }
{
    match old {
        Entity::Function {
            of: one,
            member,
            ..
        } => functions_agree(types, closed, one, member, of, other),
        Entity::Template { template, .. } => is_of_functions(graph, template),
        Entity::Class { .. } => true,
        Entity::Injected { .. } => true,
        Entity::Enumeration { .. } => true,
        _ => false,
    }
}

#[tactic(auto, using(crate::proofs::Pairs::template_object))]
fn object_stands(
    types: &TypeTable,
    closed: bool,
    old: Entity,
    of: TypeId,
    other: MemberKind,
) -> bool
    requires old { IsEntityBelow (length types.now) old }
    requires of { of.0 < length types.now }
    ensures { (graph : CxxGraph) → result ≡ may_stand closed (standing graph (declares_at types.now old)) (an_object (type_at types.now of.0) other) }
{
    match old {
        Entity::Object {
            of: one,
            member,
            ..
        } => objects_agree(types, closed, one, member, of, other),
        Entity::Class { .. } => true,
        Entity::Injected { .. } => true,
        Entity::Enumeration { .. } => true,
        _ => false,
    }
}

#[tactic(auto, using(crate::proofs::Pairs::template_enumerator))]
fn enumerator_stands(old: Entity) -> bool
    ensures { (closed : Bool) (types : List CxxType) (graph : CxxGraph) → result ≡ may_stand closed (standing graph (declares_at types old)) an_enumerator }
{
    match old {
        Entity::Class { .. } => true,
        Entity::Injected { .. } => true,
        Entity::Enumeration { .. } => true,
        _ => false,
    }
}

#[tactic(auto, using(crate::proofs::Pairs::template_enumeration))]
fn enumeration_stands(graph: &Graph, types: &TypeTable, old: Entity, number: EnumId) -> bool
    requires { IsEntityBelow (length types.now) old }
    ensures { (closed : Bool) → result ≡ may_stand closed (standing (graph_at types.now graph.now) (declares_at types.now old)) (a_hidden_name (of_type (enumeration number.0)) None) }
{
    match old {
        Entity::Function { .. } => true,
        Entity::Template { template, .. } => is_of_functions(graph, template),
        Entity::Object { .. } => true,
        Entity::Enumerator { .. } => true,
        Entity::Enumeration { number: other } => other.0 == number.0,
        Entity::Synonym { of } => is_enumeration(types, of, number),
        _ => false,
    }
}

fn same_bool(one: bool, two: bool) -> bool
    ensures { result ≡ same_bool_of one two }
{
    if one { two } else { !two }
}

// Others hide the name of a class (3.3.7), and one that is declared as a union is no other class (7.1.5.3).
#[tactic(auto, using(crate::proofs::Pairs::template_class))]
fn class_stands(
    graph: &Graph,
    types: &TypeTable,
    old: Entity,
    class: ClassId,
    is_union: bool,
) -> bool
    requires { IsEntityBelow (length types.now) old }
    ensures { (closed : Bool) → result ≡ may_stand closed (standing (graph_at types.now graph.now) (declares_at types.now old)) (a_hidden_name (of_type (class_type class.0)) (Some is_union)) }
{
    match old {
        Entity::Function { .. } => true,
        Entity::Template { template, .. } => is_of_functions(graph, template),
        Entity::Object { .. } => true,
        Entity::Enumerator { .. } => true,
        Entity::Class {
            class: other,
            is_union: any,
        } => other.0 == class.0 && same_bool(any, is_union),
        Entity::Injected { class: other } => other.0 == class.0,
        Entity::Synonym { of } => is_class(types, of, class),
        _ => false,
    }
}

#[tactic(auto, using(crate::proofs::Pairs::template_name))]
fn name_stands(types: &TypeTable, old: Entity, of: TypeId) -> bool
    requires old { IsEntityBelow (length types.now) old }
    requires of { of.0 < length types.now }
    ensures { (closed : Bool) (graph : CxxGraph) → result ≡ may_stand closed (standing graph (declares_at types.now old)) (a_name (of_type (type_at types.now of.0))) }
{
    match old {
        Entity::Class { class, .. } => is_class(types, of, class),
        Entity::Injected { class } => is_class(types, of, class),
        Entity::Enumeration { number } => is_enumeration(types, of, number),
        Entity::Synonym { of: one } => types.same(one, of),
        _ => false,
    }
}

#[tactic(auto, using(crate::proofs::Pairs::template_space))]
fn space_stands(types: &TypeTable, old: Entity, inner: ScopeId) -> bool
    ensures { (closed : Bool) (graph : CxxGraph) → result ≡ may_stand closed (standing graph (declares_at types.now old)) (a_name (of_space inner.0)) }
{
    let _ = types;
    match old {
        Entity::Namespace { inner: other } => other.0 == inner.0,
        _ => false,
    }
}

// Whether two declarations of one name may stand in one scope, where neither is a using-declaration.
#[tactic(auto, using(crate::proofs::Pairs::alone_stands))]
fn stand(graph: &Graph, types: &TypeTable, closed: bool, old: Entity, new: Entity) -> bool
    requires old { IsEntityBelow (length types.now) old }
    requires new { IsEntityBelow (length types.now) new }
    requires plain { IsPlainEntity new }
    ensures { result ≡ may_stand closed (standing (graph_at types.now graph.now) (declares_at types.now old)) (standing (graph_at types.now graph.now) (declares_at types.now new)) }
{
    match new {
        Entity::Function { of, member, .. } => {
            function_stands(graph, types, closed, old, of, member)
        }
        Entity::Object { of, member, .. } => object_stands(types, closed, old, of, member),
        Entity::Enumerator { .. } => enumerator_stands(old),
        Entity::Class { class, is_union } => class_stands(graph, types, old, class, is_union),
        Entity::Enumeration { number } => enumeration_stands(graph, types, old, number),
        Entity::Synonym { of } => name_stands(types, old, of),
        Entity::Namespace { inner } => space_stands(types, old, inner),
        _ => false,
    }
}

// ---- 7.3.3

fn is_hideable(what: Entity) -> bool
    ensures { (types : List CxxType) → result ≡ is_a_hideable (declares_at types what) }
{
    match what {
        Entity::Injected { .. } => true,
        Entity::Class { .. } => true,
        Entity::Enumeration { .. } => true,
        _ => false,
    }
}

#[tactic(auto, using(crate::proofs::Meanings::hidden_is, crate::proofs::Meanings::hides_is))]
fn one_hides(graph: &Graph, one: Entity, two: Entity) -> bool
    ensures { (types : List CxxType) → result ≡ one_hides_by (standing (graph_at types graph.now) (declares_at types one)) (standing (graph_at types graph.now) (declares_at types two)) }
{
    (is_hideable(one) && hides_types(graph, two)) || (is_hideable(two) && hides_types(graph, one))
}

#[tactic(auto, using(crate::proofs::Meanings::overloads_template))]
fn overloads(graph: &Graph, types: &TypeTable, one: Entity, of: TypeId, member: MemberKind) -> bool
    requires one { IsEntityBelow (length types.now) one }
    requires of { of.0 < length types.now }
    ensures { result ≡ are_overloads_by (standing (graph_at types.now graph.now) (declares_at types.now one)) (a_function (type_at types.now of.0) member) }
{
    match one {
        Entity::Function {
            of: one,
            member: other,
            ..
        } => {
            let any = any_static(other, member);
            !same_parameters(types, any, one, of)
        }
        Entity::Template { template, .. } => is_of_functions(graph, template),
        _ => false,
    }
}

#[tactic(auto, using(crate::proofs::Meanings::no_overloads))]
fn are_overloads(graph: &Graph, types: &TypeTable, one: Entity, two: Entity) -> bool
    requires one { IsEntityBelow (length types.now) one }
    requires two { IsEntityBelow (length types.now) two }
    requires plain { IsNoTemplate two }
    ensures { result ≡ are_overloads_by (standing (graph_at types.now graph.now) (declares_at types.now one)) (standing (graph_at types.now graph.now) (declares_at types.now two)) }
{
    match two {
        Entity::Function { of, member, .. } => overloads(graph, types, one, of, member),
        _ => false,
    }
}

#[tactic(auto, using(crate::proofs::Meanings::function_is))]
fn are_functions(graph: &Graph, one: Entity, two: Entity) -> bool
    ensures { (types : List CxxType) → result ≡ (is_function_by (standing (graph_at types graph.now) (declares_at types one)) && is_function_by (standing (graph_at types graph.now) (declares_at types two))) }
{
    is_function(graph, one) && is_function(graph, two)
}

fn same_meaning(types: &TypeTable, one: Meaning, two: Meaning) -> bool
    requires one { IsEntityBelow (length types.now) one.what }
    requires two { IsEntityBelow (length types.now) two.what }
    ensures { result ≡ same_entity (entity_by one.number.0 (declares_at types.now one.what)) (entity_by two.number.0 (declares_at types.now two.what)) }
{
    let first = identity_of(types, one);
    let second = identity_of(types, two);
    same_identity(types, first, second)
}

// What a using-declaration brings, beside what another declaration stands for.
fn brought_stands(
    graph: &Graph,
    types: &TypeTable,
    in_class: bool,
    both: bool,
    one: Meaning,
    two: Meaning,
) -> bool
    requires one { IsEntityBelow (length types.now) one.what }
    requires two { IsEntityBelow (length types.now) two.what }
    requires plain { IsNoTemplate two.what }
    ensures { result ≡ brought_may_stand in_class both (same_entity (entity_by one.number.0 (declares_at types.now one.what)) (entity_by two.number.0 (declares_at types.now two.what))) (standing (graph_at types.now graph.now) (declares_at types.now one.what)) (standing (graph_at types.now graph.now) (declares_at types.now two.what)) }
{
    if same_meaning(types, one, two) {
        return !in_class;
    }
    if are_functions(graph, one.what, two.what) {
        both || (in_class || are_overloads(graph, types, one.what, two.what))
    } else {
        one_hides(graph, one.what, two.what)
    }
}

/// Whether two declarations of one name, by their numbers, may stand in one scope, one of a class or another, and one of a
/// class whose end was read or another.
pub(crate) fn stand_together(
    graph: &Graph,
    types: &TypeTable,
    in_class: bool,
    closed: bool,
    one: Meaning,
    two: Meaning,
) -> bool
    requires below { IsGraphBelow (length types.now) graph.now }
    requires one { IsEntityBelow (length types.now) one.what }
    requires two { IsEntityBelow (length types.now) two.what }
    requires plain { IsPlainEntity two.what }
    requires templates { NoTemplates graph.now.facts }
    ensures { result ≡ stand_in (graph_at types.now graph.now) in_class closed one.number.0 (declares_at types.now one.what) two.number.0 (declares_at types.now two.what) }
{
    let old = is_using(one.what);
    let new = is_using(two.what);
    if old || new {
        let first = meant(graph, types, one.number, one.what);
        let second = meant_plain(graph, types, two.number, two.what);
        brought_stands(graph, types, in_class, old && new, first, second)
    } else {
        stand(graph, types, closed, one.what, two.what)
    }
}

fn same_spelling(one: &Name, two: &Name) -> bool
    ensures { result ≡ same_spelled one.now two.now }
{
    match one {
        Name::Spelled(one) => match two {
            Name::Spelled(two) => one == two,
            _ => false,
        },
        _ => false,
    }
}

/// Whether two facts declare one name, where the later one is no constructor.
#[tactic(auto, using(crate::proofs::Pairs::one_name))]
pub(crate) fn of_one_name(old: &Fact, new: &Fact) -> bool
    requires { IsPlain new.now }
    ensures { (types : List CxxType) → result ≡ of_one_name_by (fact_at types old.now) (fact_at types new.now) }
{
    declares_name(old.what) && (declares_name(new.what) && same_spelling(&old.name, &new.name))
}

//! What declarations stand for, and whether that is one entity (clause 3, 7.3.3).

ghost use Rattle.std.specs.Prelude.{◌≡◌, ◌<◌, List, length};
ghost use Rattle.cxx_model.specs.Facts.Conflicts.{is_using as is_a_using};
ghost use Rattle.cxx_model.specs.Facts.Declarations.{declares_at, facts_at};
ghost use Rattle.cxx_model.specs.Facts.Entities.{entity_by, first_or, meant_by, same_entity};
ghost use Rattle.cxx_model.specs.Facts.Fitted.{IsEntityBelow, IsGraphBelow};
ghost use Rattle.cxx_model.specs.Types.Same.{same_type};
ghost use Rattle.cxx_model.specs.Types.Trees.{CxxType};
ghost use Rattle.cxx_names.specs.Clashes.{IsIdentityBelow, IsNoTemplate, IsPlainEntity, NoTemplates, identity_at, meaning_at};
ghost use Rattle.cxx_names.specs.Meant.{IsNamedBelow, named_at};

use crate::alike::{is_class, is_enumeration};
use crate::looked::fact_of;
use crate::named::NamedType;
use cxx_graph::Graph;
use cxx_model::{ClassId, Entity, EnumId, FactId, ScopeId, TypeId};
use cxx_types::TypeTable;

/// A declaration that is no using-declaration, or one of nothing.
#[derive(Clone, Copy)]
pub(crate) struct Meaning {
    pub(crate) number: FactId,
    pub(crate) what: Entity,
}

/// An entity.
#[derive(Clone, Copy)]
pub(crate) enum Identity {
    OfFact(FactId),
    OfType(NamedType),
    OfSpace(ScopeId),
}

/// Whether a declaration is a using-declaration.
pub(crate) fn is_using(what: Entity) -> bool
    ensures { (types : List CxxType) → result ≡ is_a_using (declares_at types what) }
{
    match what {
        Entity::Using { .. } => true,
        _ => false,
    }
}

/// What a declaration stands for (7.3.3).
#[tactic(auto, using(crate::proofs::Clashing::fact_below, crate::proofs::Meanings::meant_there, crate::proofs::Meanings::meant_nowhere))]
pub(crate) fn meant(graph: &Graph, types: &TypeTable, number: FactId, what: Entity) -> Meaning
    requires below { IsGraphBelow (length types.now) graph.now }
    requires what { IsEntityBelow (length types.now) what }
    ensures is { (types : List CxxType) → meaning_at types result ≡ meant_by (facts_at types graph.now.facts) number.0 (declares_at types what) }
    ensures below { IsEntityBelow (length types.now) result.what }
{
    let _ = types;
    match what {
        Entity::Using { target } => match fact_of(graph, target) {
            Some(fact) => Meaning {
                number: target,
                what: fact.what,
            },
            None => Meaning {
                number: target,
                what,
            },
        },
        _ => Meaning { number, what },
    }
}

/// The same of a declaration outside classes, where none is one of a template: neither is what it stands for.
#[tactic(auto, using(crate::proofs::Clashing::fact_below, crate::proofs::Clashing::plain_untemplated, crate::proofs::Meanings::stored_untemplated))]
pub(crate) fn meant_plain(graph: &Graph, types: &TypeTable, number: FactId, what: Entity) -> Meaning
    requires below { IsGraphBelow (length types.now) graph.now }
    requires what { IsEntityBelow (length types.now) what }
    requires plain { IsPlainEntity what }
    requires templates { NoTemplates graph.now.facts }
    ensures is { (types : List CxxType) → meaning_at types result ≡ meant_by (facts_at types graph.now.facts) number.0 (declares_at types what) }
    ensures below { IsEntityBelow (length types.now) result.what }
    ensures plain { IsNoTemplate result.what }
{
    let _ = types;
    match what {
        Entity::Using { target } => match fact_of(graph, target) {
            Some(fact) => Meaning {
                number: target,
                what: fact.what,
            },
            None => Meaning {
                number: target,
                what,
            },
        },
        _ => Meaning { number, what },
    }
}

/// The first declaration of an entity, by one of its declarations.
pub(crate) fn first_of(number: FactId, first: Option<FactId>) -> FactId
    ensures { result.0 ≡ first_or number.0 first }
{
    match first {
        Some(first) => first,
        None => number,
    }
}

/// The entity of what a declaration stands for.
pub(crate) fn identity_of(types: &TypeTable, one: Meaning) -> Identity
    requires { IsEntityBelow (length types.now) one.what }
    ensures is { identity_at types.now result ≡ entity_by one.number.0 (declares_at types.now one.what) }
    ensures below { IsIdentityBelow (length types.now) result }
{
    let _ = types;
    match one.what {
        Entity::Object { first, .. } => Identity::OfFact(first_of(one.number, first)),
        Entity::Function { first, .. } => Identity::OfFact(first_of(one.number, first)),
        Entity::Template { first, .. } => Identity::OfFact(first_of(one.number, first)),
        Entity::Injected { class } => Identity::OfType(NamedType::Class(class)),
        Entity::Class { class, .. } => Identity::OfType(NamedType::Class(class)),
        Entity::Enumeration { number } => Identity::OfType(NamedType::Enumeration(number)),
        Entity::Synonym { of } => Identity::OfType(NamedType::Other(of)),
        Entity::Namespace { inner } => Identity::OfSpace(inner),
        _ => Identity::OfFact(one.number),
    }
}

fn is_the_class(types: &TypeTable, class: ClassId, two: NamedType) -> bool
    requires { IsNamedBelow (length types.now) two }
    ensures is { result ≡ same_type (named_at types.now (NamedType.Class class)) (named_at types.now two) }
    ensures turned { result ≡ same_type (named_at types.now two) (named_at types.now (NamedType.Class class)) }
{
    match two {
        NamedType::Class(other) => other.0 == class.0,
        NamedType::Enumeration(_) => false,
        NamedType::Other(of) => is_class(types, of, class),
    }
}

fn is_the_enumeration(types: &TypeTable, number: EnumId, two: NamedType) -> bool
    requires { IsNamedBelow (length types.now) two }
    ensures is { result ≡ same_type (named_at types.now (NamedType.Enumeration number)) (named_at types.now two) }
    ensures turned { result ≡ same_type (named_at types.now two) (named_at types.now (NamedType.Enumeration number)) }
{
    match two {
        NamedType::Class(_) => false,
        NamedType::Enumeration(other) => other.0 == number.0,
        NamedType::Other(of) => is_enumeration(types, of, number),
    }
}

fn is_the_type(types: &TypeTable, of: TypeId, two: NamedType) -> bool
    requires of { of.0 < length types.now }
    requires two { IsNamedBelow (length types.now) two }
    ensures { result ≡ same_type (named_at types.now (NamedType.Other of)) (named_at types.now two) }
{
    match two {
        NamedType::Class(class) => is_class(types, of, class),
        NamedType::Enumeration(number) => is_enumeration(types, of, number),
        NamedType::Other(other) => types.same(of, other),
    }
}

fn same_named(types: &TypeTable, one: NamedType, two: NamedType) -> bool
    requires one { IsNamedBelow (length types.now) one }
    requires two { IsNamedBelow (length types.now) two }
    ensures { result ≡ same_type (named_at types.now one) (named_at types.now two) }
{
    match one {
        NamedType::Class(class) => is_the_class(types, class, two),
        NamedType::Enumeration(number) => is_the_enumeration(types, number, two),
        NamedType::Other(of) => is_the_type(types, of, two),
    }
}

/// Whether two entities are one.
pub(crate) fn same_identity(types: &TypeTable, one: Identity, two: Identity) -> bool
    requires one { IsIdentityBelow (length types.now) one }
    requires two { IsIdentityBelow (length types.now) two }
    ensures { result ≡ same_entity (identity_at types.now one) (identity_at types.now two) }
{
    match one {
        Identity::OfFact(one) => match two {
            Identity::OfFact(two) => one.0 == two.0,
            _ => false,
        },
        Identity::OfType(one) => match two {
            Identity::OfType(two) => same_named(types, one, two),
            _ => false,
        },
        Identity::OfSpace(one) => match two {
            Identity::OfSpace(two) => one.0 == two.0,
            _ => false,
        },
    }
}

//! How functions take objects of a class (12.8).
ghost use Rattle.std.specs.Prelude.{◌≡◌, ◌<◌, length, IfSome};
ghost use Rattle.cxx_model.specs.Facts.Declarations.{declares_at, name_at, type_of_option};
ghost use Rattle.cxx_model.specs.Facts.Fitted.{IsEntityBelow};
ghost use Rattle.cxx_model.specs.Types.Numbers.{AreTypesBelow, type_at, types_at};
ghost use Rattle.cxx_implicit.specs.Members as definition;

use cxx_model::{ClassId, Entity, MemberKind, Name, TypeId, TypeNode, punct};
use cxx_standard::cv_of;
use cxx_types::TypeTable;

/// How a parameter takes an object of a class.
#[derive(Clone, Copy)]
pub(crate) enum Passing {
    /// As no object of the class.
    Other,
    Value,
    Reference,
    ConstReference,
}

// The class that a type is, its cv words aside.
fn class_named(types: &TypeTable, of: TypeId) -> Option<ClassId>
    requires { of.0 < length types.now }
    ensures { result ≡ definition.class_named (type_at types.now of.0) }
{
    match types.node(of) {
        TypeNode::Class(class) => Some(*class),
        TypeNode::Qualified(_, of) => class_named(types, *of),
        _ => None,
    }
}

// The class of which an object is made, or each element of an array (8.3.4).
fn class_of_part(types: &TypeTable, of: TypeId) -> Option<ClassId>
    requires { of.0 < length types.now }
    ensures { result ≡ definition.class_of_part (type_at types.now of.0) }
{
    match types.node(of) {
        TypeNode::Array(element, _) => class_of_part(types, *element),
        _ => class_named(types, of),
    }
}

fn is_class(types: &TypeTable, class: ClassId, of: TypeId) -> bool
    requires { of.0 < length types.now }
    ensures { result ≡ definition.is_class class.0 (type_at types.now of.0) }
{
    match class_named(types, of) {
        None => false,
        Some(other) => other.0 == class.0,
    }
}

fn by_value(is_class: bool) -> Passing
    ensures { result ≡ definition.by_value is_class }
{
    if is_class {
        Passing::Value
    } else {
        Passing::Other
    }
}

fn by_reference(is_class: bool, is_const: bool) -> Passing
    ensures { result ≡ definition.by_reference is_class is_const }
{
    if !is_class {
        Passing::Other
    } else if is_const {
        Passing::ConstReference
    } else {
        Passing::Reference
    }
}

fn passing_in(types: &TypeTable, class: ClassId, of: TypeId) -> Passing
    requires { of.0 < length types.now }
    ensures { result ≡ definition.passing_in class.0 (type_at types.now of.0) }
{
    match types.node(of) {
        TypeNode::Reference(to) => {
            let is_class = is_class(types, class, *to);
            by_reference(is_class, cv_of(types, *to).is_const)
        }
        _ => by_value(is_class(types, class, of)),
    }
}

fn passing_of(types: &TypeTable, class: ClassId, of: Option<TypeId>) -> Passing
    requires { IfSome of (λ t. t.0 < length types.now) }
    ensures { result ≡ definition.passing_of class.0 (type_of_option types.now of) }
{
    match of {
        None => Passing::Other,
        Some(of) => passing_in(types, class, of),
    }
}

// The first of some parameters, where each further one has a default argument (8.3.6).
#[tactic(auto, using(crate::proofs::Counted::count_at))]
fn lone_of(types: &TypeTable, defaults: u32, parameters: &[TypeId]) -> Option<TypeId>
    requires { AreTypesBelow (length types.now) parameters.now }
    ensures is { type_of_option types.now result ≡ definition.lone_of defaults (types_at types.now parameters.now) }
    ensures below { IfSome result (λ t. t.0 < length types.now) }
{
    let _ = types;
    match parameters {
        [] => None,
        [first, others @ ..] => {
            if others.len() <= defaults as usize {
                Some(*first)
            } else {
                None
            }
        }
    }
}

#[tactic(auto, using(crate::proofs::Counted::parameters_below))]
fn lone_parameter(types: &TypeTable, defaults: u32, of: TypeId) -> Option<TypeId>
    requires { of.0 < length types.now }
    ensures is { type_of_option types.now result ≡ definition.lone_parameter defaults (type_at types.now of.0) }
    ensures below { IfSome result (λ t. t.0 < length types.now) }
{
    match types.node(of) {
        TypeNode::Function { parameters, .. } => lone_of(types, defaults, parameters.as_slice()),
        _ => None,
    }
}

fn is_constructor_kind(member: MemberKind) -> bool
    ensures { result ≡ definition.is_constructor_kind member }
{
    match member {
        MemberKind::Constructor => true,
        _ => false,
    }
}

fn is_nonstatic_kind(member: MemberKind) -> bool
    ensures { result ≡ definition.is_nonstatic_kind member }
{
    match member {
        MemberKind::Nonstatic => true,
        _ => false,
    }
}

/// Whether it is a constructor or a template of constructors (12.1).
pub(crate) fn is_constructor(types: &TypeTable, what: &Entity) -> bool
    ensures { result ≡ definition.is_constructor (declares_at types.now what.now) }
{
    let _ = types;
    match what {
        Entity::Function { member, .. } => is_constructor_kind(*member),
        Entity::Template { member, .. } => is_constructor_kind(*member),
        _ => false,
    }
}

fn is_assignment(types: &TypeTable, name: &Name) -> bool
    ensures { result ≡ definition.is_assignment (name_at types.now name.now) }
{
    let _ = types;
    match name {
        Name::Operator(number) => *number == punct::EQUALS,
        _ => false,
    }
}

/// How a constructor takes the object that is copied.
pub(crate) fn copied_by(types: &TypeTable, class: ClassId, what: &Entity) -> Passing
    requires { IsEntityBelow (length types.now) what.now }
    ensures { result ≡ definition.copied_by class.0 (declares_at types.now what.now) }
{
    match what {
        Entity::Function {
            of,
            member,
            defaults,
            ..
        } => {
            if is_constructor_kind(*member) {
                passing_of(types, class, lone_parameter(types, *defaults, *of))
            } else {
                Passing::Other
            }
        }
        _ => Passing::Other,
    }
}

/// How a nonstatic assignment operator takes the object that is assigned.
pub(crate) fn assigned_by(types: &TypeTable, class: ClassId, name: &Name, what: &Entity) -> Passing
    requires { IsEntityBelow (length types.now) what.now }
    ensures { result ≡ definition.assigned_by class.0 (name_at types.now name.now) (declares_at types.now what.now) }
{
    match what {
        Entity::Function { of, member, .. } => {
            if is_nonstatic_kind(*member) && is_assignment(types, name) {
                passing_of(types, class, lone_parameter(types, 0, *of))
            } else {
                Passing::Other
            }
        }
        _ => Passing::Other,
    }
}

pub(crate) fn is_any_reference(passing: Passing) -> bool
    ensures { result ≡ definition.is_any_reference passing }
{
    match passing {
        Passing::Reference | Passing::ConstReference => true,
        _ => false,
    }
}

pub(crate) fn is_const_reference(passing: Passing) -> bool
    ensures { result ≡ definition.is_const_reference passing }
{
    match passing {
        Passing::ConstReference => true,
        _ => false,
    }
}

pub(crate) fn is_any(passing: Passing) -> bool
    ensures { result ≡ definition.is_any passing }
{
    match passing {
        Passing::Other => false,
        _ => true,
    }
}

/// Whether a const object may be passed (3.9.3).
pub(crate) fn takes_const(passing: Passing) -> bool
    ensures { result ≡ definition.takes_const passing }
{
    match passing {
        Passing::Value | Passing::ConstReference => true,
        _ => false,
    }
}

/// The class of a direct base (10), or of a nonstatic data member (9.2).
pub(crate) fn part_in(types: &TypeTable, what: &Entity) -> Option<ClassId>
    requires { IsEntityBelow (length types.now) what.now }
    ensures { result ≡ definition.part_in (declares_at types.now what.now) }
{
    match what {
        Entity::Ancestor { parent, .. } => Some(*parent),
        Entity::Object { of, member, .. } => {
            if is_nonstatic_kind(*member) {
                class_of_part(types, *of)
            } else {
                None
            }
        }
        _ => None,
    }
}

//! Rows: a graph, word by word, and what lookups in it find.
//!
//! A word is a letter and up to four numbers, with commas between them. `s b p` open the scope of a namespace, a block or
//! parameters in a scope, and `c` that of a class. `n C i E o d a t f m z y u D B K x F` declare, in a scope: a namespace, a
//! class, a class's own name, an enumeration, an object, a nonstatic data member, a static one, a name of a type, a function,
//! a nonstatic member function, a static one, a template, a using-declaration, a directive, a base, the end of a class, a
//! completion that found nothing, and a friend. `+` reserves a class; `k e * v` make the type of a class, of an enumeration, a
//! pointer, and a function of one parameter.

ghost use Rattle.std.specs.Prelude.{ℕ, IfOk};
ghost use Rattle.cxx_model.specs.Facts.Fitted.{IsNameBelow};
ghost use Rattle.cxx_lookup_tests.specs.Units.{IsUnit};

use crate::fits::put;
use crate::kinds::{
    with_class, with_enumeration, with_function, with_plain, with_pointer, with_reserved,
};
use crate::stopped::Stopped;
use crate::unit::{Unit, fact, start};
use cxx_model::{
    Access, Base, ClassId, Entity, EnumId, FactId, FunctionFlags, Listed, MemberKind, Name,
    ScopeId, ScopeKind, TemplateId, TypeId,
};
use std::alloc::{AllocError, Global};

/// A word of a row.
#[derive(Clone, Copy)]
pub(crate) struct Item {
    pub kind: u8,
    pub first: u32,
    pub second: u32,
    pub third: u32,
    pub fourth: u32,
}

fn digit(number: u32, byte: u8) -> u32 {
    match byte {
        b'0'..=b'9' => number
            .saturating_mul(10)
            .saturating_add(u32::from(byte - b'0')),
        _ => number,
    }
}

// A byte more of a number of a word.
fn with_byte(item: Item, place: u8, byte: u8) -> Item {
    match place {
        0 => Item {
            first: digit(item.first, byte),
            ..item
        },
        1 => Item {
            second: digit(item.second, byte),
            ..item
        },
        2 => Item {
            third: digit(item.third, byte),
            ..item
        },
        _ => Item {
            fourth: digit(item.fourth, byte),
            ..item
        },
    }
}

/// The word of some bytes; numbers that are not there are 0.
pub(crate) fn item_of(word: &[u8]) -> Item {
    let mut item = Item {
        kind: 0,
        first: 0,
        second: 0,
        third: 0,
        fourth: 0,
    };
    let [kind, numbers @ ..] = word else {
        return item;
    };
    item.kind = *kind;
    let mut place: u8 = 0;
    for byte in numbers {
        if *byte == b',' {
            place = place.saturating_add(1);
        } else {
            item = with_byte(item, place, *byte);
        }
    }
    item
}

/// The name with a number: `a` and the letters behind it.
pub(crate) fn name(alloc: Global, number: u32) -> Result<Name, AllocError>
    ensures { (count : ℕ) → IfOk result (IsNameBelow count) }
{
    let mut word = Listed::new(alloc);
    word.push(b'a' + (number % 26) as u8)?;
    Ok(Name::Spelled(word))
}

const NO_FLAGS: FunctionFlags = FunctionFlags {
    is_virtual: false,
    is_pure: false,
    is_explicit: false,
    is_implicit: false,
};

fn object(member: MemberKind) -> Entity {
    Entity::Object {
        of: TypeId(0),
        member,
        is_mutable: false,
        value: None,
        first: None,
    }
}

fn function(member: MemberKind, of: u32) -> Entity {
    Entity::Function {
        of: TypeId(u64::from(of)),
        member,
        flags: NO_FLAGS,
        defaults: 0,
        first: None,
    }
}

fn scope(item: Item, kind: ScopeKind) -> Entity {
    Entity::Scope {
        parent: Some(ScopeId(item.first)),
        kind,
    }
}

// What a word opens or says of a scope, without a name.
fn unnamed(item: Item) -> Option<Entity> {
    match item.kind {
        b's' => Some(scope(item, ScopeKind::Space)),
        b'b' => Some(scope(item, ScopeKind::Block(None))),
        b'p' => Some(scope(item, ScopeKind::Parameters)),
        b'c' => Some(scope(item, ScopeKind::Class(ClassId(item.second)))),
        b'D' => Some(Entity::Directive {
            nominated: ScopeId(item.second),
        }),
        b'B' => Some(Entity::Ancestor {
            class: ClassId(item.second),
            parent: ClassId(item.third),
            index: item.fourth,
            access: Access::Public,
        }),
        b'K' => Some(Entity::Complete {
            class: ClassId(item.second),
        }),
        b'x' => Some(Entity::Passed {
            class: ClassId(item.second),
        }),
        b'F' => Some(Entity::Friend {
            class: ClassId(item.second),
            target: FactId(item.third),
        }),
        _ => None,
    }
}

// The types, classes and namespaces that a word names.
fn named_kind(item: Item) -> Option<Entity> {
    match item.kind {
        b'n' => Some(Entity::Namespace {
            inner: ScopeId(item.third),
        }),
        b'C' => Some(Entity::Class {
            class: ClassId(item.third),
            is_union: false,
        }),
        b'i' => Some(Entity::Injected {
            class: ClassId(item.third),
        }),
        b'E' => Some(Entity::Enumeration {
            number: EnumId(item.third),
        }),
        b't' => Some(Entity::Synonym {
            of: TypeId(u64::from(item.third)),
        }),
        b'u' => Some(Entity::Using {
            target: FactId(item.third),
        }),
        _ => None,
    }
}

// The objects and functions that a word declares.
fn named(item: Item) -> Option<Entity> {
    match item.kind {
        b'o' => Some(object(MemberKind::Free)),
        b'd' => Some(object(MemberKind::Nonstatic)),
        b'a' => Some(object(MemberKind::Static)),
        b'f' => Some(function(MemberKind::Free, item.third)),
        b'm' => Some(function(MemberKind::Nonstatic, item.third)),
        b'z' => Some(function(MemberKind::Static, item.third)),
        _ => named_kind(item),
    }
}

// A word that declares.
fn declared(alloc: Global, unit: Unit, item: Item) -> Result<Unit, Stopped>
    requires { IsUnit unit }
    ensures { IfOk result IsUnit }
{
    let scope = ScopeId(item.first);
    if let Some(what) = unnamed(item) {
        return put(unit, fact(scope, Name::Unnamed, what));
    }
    match named(item) {
        Some(what) => put(unit, fact(scope, name(alloc, item.second)?, what)),
        None => Err(Stopped::IllRow),
    }
}

/// One more word.
pub(crate) fn step(alloc: Global, unit: Unit, item: Item) -> Result<Unit, Stopped>
    requires { IsUnit unit }
    ensures { IfOk result IsUnit }
{
    match item.kind {
        b'+' => with_reserved(alloc, unit),
        b'k' => with_class(unit, ClassId(item.first)),
        b'e' => with_enumeration(unit, EnumId(item.first)),
        b'*' => with_pointer(unit, TypeId(u64::from(item.first))),
        b'v' => with_function(
            unit,
            TypeId(u64::from(item.first)),
            TypeId(u64::from(item.second)),
        ),
        _ => declared(alloc, unit, item),
    }
}

/// The unit before its first word: its scope, and the types `int`, `char` and `void`, and functions of these two without a
/// result.
pub(crate) fn first(alloc: Global) -> Result<Unit, Stopped>
    ensures { IfOk result IsUnit }
{
    let unit = start(alloc)?;
    let unit = with_plain(unit, Base::Int)?;
    let unit = with_plain(unit, Base::Char)?;
    let unit = with_plain(unit, Base::Void)?;
    let unit = with_function(unit, TypeId(2), TypeId(0))?;
    with_function(unit, TypeId(2), TypeId(1))
}

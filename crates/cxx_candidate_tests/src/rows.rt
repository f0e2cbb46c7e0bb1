//! Rows: a unit, word by word, and the candidates for operators in it.
//!
//! A type is written from the inside: `b` is `bool`, `c a h` are the character types without, with and without a sign, `s t`
//! the short ones, `i j` `int` and `unsigned`, `l m` the long ones, `w` `wchar_t`, `f d e` the floating types, `v` `void`, a
//! digit an enumeration and a capital a class; behind it stand `*` for a pointer, `&` for a reference, `k` for `const`, `y`
//! for `volatile`, `[` for an array of three elements and `(` for a function without parameters.
//!
//! `%` declares an enumeration, `:` with the letters of its bases begins a class, `>` with a type declares a conversion
//! function of the class that was begun last, and `;` ends it. `^` makes of the class that was ended last that of a template
//! (14), and declares another, which is a specialisation of it that nothing has made complete. Enumerations and classes are
//! numbered and lettered in turn.
//! `?` with its spelling begins an operator, each `@` with a type is an operand, and behind `=` stand the candidates, each
//! with `,` behind it, the types of the parameters of each one behind another.

use crate::graphs::fact;
use crate::letters::base_of;
use crate::parts::Part;
use crate::stopped::Stopped;
use crate::unit::Unit;
use cxx_model::{
    Access, ClassId, Cv, Entity, EnumId, FunctionFlags, MemberKind, Name, ScopeId, ScopeKind,
    TypeId,
};
use std::alloc::Global;

// ---- types

// The class with a letter.
fn class_of(letter: u8) -> ClassId {
    ClassId(u32::from(letter.saturating_sub(b'A')))
}

// The type with which the letters of a type begin.
fn innermost(letter: u8) -> Result<Part, Stopped> {
    match letter {
        b'0'..=b'9' => Ok(Part::Enumeration(EnumId(u32::from(letter.saturating_sub(b'0'))))),
        b'A'..=b'Z' => Ok(Part::Class(class_of(letter))),
        _ => Ok(Part::Plain(base_of(letter)?)),
    }
}

const CONST: Cv = Cv {
    is_const: true,
    is_volatile: false,
};

const VOLATILE: Cv = Cv {
    is_const: false,
    is_volatile: true,
};

// The type that a letter makes of another.
fn around(of: TypeId, letter: u8) -> Result<Part, Stopped> {
    match letter {
        b'*' => Ok(Part::PointerTo(of)),
        b'&' => Ok(Part::ReferenceTo(of)),
        b'[' => Ok(Part::ArrayOf(of)),
        b'(' => Ok(Part::FunctionTo(of)),
        b'k' => Ok(Part::Words(CONST, of)),
        b'y' => Ok(Part::Words(VOLATILE, of)),
        _ => Err(Stopped::IllRow),
    }
}

/// The type of some letters.
pub(crate) fn typed(unit: &mut Unit, letters: &[u8]) -> Result<TypeId, Stopped> {
    let [first, others @ ..] = letters else {
        return Err(Stopped::IllRow);
    };
    let mut of = unit.typed(innermost(*first)?)?;
    for letter in others {
        of = unit.typed(around(of, *letter)?)?;
    }
    Ok(of)
}

// ---- declarations

const NO_FLAGS: FunctionFlags = FunctionFlags {
    is_virtual: false,
    is_pure: false,
    is_explicit: false,
    is_implicit: false,
};

fn enumeration(unit: &mut Unit) -> Result<(), Stopped> {
    let number = unit.next_enumeration();
    unit.put(fact(ScopeId(0), Name::Unnamed, Entity::Enumeration { number }))
}

fn base(unit: &mut Unit, index: u32, letter: u8) -> Result<(), Stopped> {
    let what = Entity::Ancestor {
        class: unit.last_class(),
        parent: class_of(letter),
        index,
        access: Access::Public,
    };
    unit.put(fact(unit.last_scope(), Name::Unnamed, what))
}

fn class(alloc: Global, unit: &mut Unit, letters: &[u8]) -> Result<(), Stopped> {
    let class = unit.reserve(alloc)?;
    let what = Entity::Class {
        class,
        is_union: false,
    };
    unit.put(fact(ScopeId(0), Name::Unnamed, what))?;
    let scope = Entity::Scope {
        parent: Some(ScopeId(0)),
        kind: ScopeKind::Class(class),
    };
    unit.put(fact(ScopeId(0), Name::Unnamed, scope))?;
    let mut index: u32 = 1;
    for letter in letters {
        base(unit, index, *letter)?;
        index = index.saturating_add(1);
    }
    Ok(())
}

fn conversion(unit: &mut Unit, letters: &[u8]) -> Result<(), Stopped> {
    let to = typed(unit, letters)?;
    let of = unit.typed(Part::FunctionTo(to))?;
    let what = Entity::Function {
        of,
        member: MemberKind::Nonstatic,
        flags: NO_FLAGS,
        defaults: 0,
        first: None,
    };
    unit.put(fact(unit.last_scope(), Name::Conversion(to), what))
}

fn completed(unit: &mut Unit) -> Result<(), Stopped> {
    let class = unit.last_class();
    unit.put(fact(unit.last_scope(), Name::Unnamed, Entity::Complete { class }))
}

/// One more word that declares.
pub(crate) fn declare(alloc: Global, unit: &mut Unit, word: &[u8]) -> Result<(), Stopped> {
    match word {
        [b'%'] => enumeration(unit),
        [b';'] => completed(unit),
        [b'^'] => {
            let class = unit.last_class();
            unit.specialise(alloc, class)
        }
        [b':', letters @ ..] => class(alloc, unit, letters),
        [b'>', letters @ ..] => conversion(unit, letters),
        _ => Err(Stopped::IllRow),
    }
}

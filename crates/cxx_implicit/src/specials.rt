//! What classes declare of the members that they else have by themselves, by number.
ghost use Rattle.std.specs.Prelude.{◌≡◌, ◌<◌, ℕ, length, nat_eq, if◌then◌else◌, OnErr, OnOk};
ghost use Rattle.cxx_model.specs.Facts.Declarations.{fact_at};
ghost use Rattle.cxx_model.specs.Facts.Fitted.{IsEntityBelow};
ghost use Rattle.cxx_implicit.specs.Noted as definition;
ghost use Rattle.cxx_implicit.specs.Noted.{special_in as special_at, AreSameSpecials};

use crate::passing::{
    assigned_by, copied_by, is_any, is_any_reference, is_const_reference, is_constructor,
    takes_const,
};
use cxx_model::{ClassId, Fact, OutOfMemory};
use cxx_types::TypeTable;

/// What a class declares: a constructor, a copy constructor, one that takes a reference to a const object, a copy
/// assignment operator, and one that takes a const object.
#[derive(Clone, Copy)]
pub(crate) struct Special {
    pub constructor: bool,
    pub copy_constructor: bool,
    pub copies_const: bool,
    pub copy_assignment: bool,
    pub assigns_const: bool,
}

fn nothing_special() -> Special
    ensures { result ≡ definition.nothing_special }
{
    Special {
        constructor: false,
        copy_constructor: false,
        copies_const: false,
        copy_assignment: false,
        assigns_const: false,
    }
}

/// What a class declares, with one more declaration.
pub(crate) fn with_fact(types: &TypeTable, class: ClassId, fact: &Fact, special: Special) -> Special
    requires { IsEntityBelow (length types.now) fact.now.what }
    ensures { result ≡ definition.with_fact class.0 (fact_at types.now fact.now) special }
{
    let copied = copied_by(types, class, &fact.what);
    let assigned = assigned_by(types, class, &fact.name, &fact.what);
    Special {
        constructor: special.constructor || is_constructor(types, &fact.what),
        copy_constructor: special.copy_constructor || is_any_reference(copied),
        copies_const: special.copies_const || is_const_reference(copied),
        copy_assignment: special.copy_assignment || is_any(assigned),
        assigns_const: special.assigns_const || takes_const(assigned),
    }
}

/// What a class declares; one of which no fact speaks has no place yet.
pub(crate) fn special_in(specials: &Vec<Special>, class: ClassId) -> Special
    ensures { result ≡ special_at specials.now.items class.0 }
{
    match specials.get(class.0 as usize) {
        Some(special) => *special,
        None => nothing_special(),
    }
}

/// Makes a place for a class. Nothing is said of it there.
pub(crate) fn make_place(specials: &mut Vec<Special>, class: ClassId) -> Result<(), OutOfMemory>
    ensures same { AreSameSpecials specials.old.items specials.new.items }
    ensures there { OnOk result (class.0 < length specials.new.items) }
{
    while specials.len() <= class.0 as usize {
        specials.push(nothing_special())?;
    }
    Ok(())
}

/// Puts what a class declares into its place.
pub(crate) fn put(specials: &mut Vec<Special>, class: ClassId, special: Special)
    requires { class.0 < length specials.old.items }
    ensures { (n : ℕ) → special_at specials.new.items n ≡ (if nat_eq class.0 n then special else special_at specials.old.items n) }
{
    specials[class.0 as usize] = special;
}

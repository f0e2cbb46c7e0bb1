//! The cv words of types (3.9.3, 4.4).
ghost use Rattle.std.specs.Prelude.{◌≡◌, ◌<◌, ◌∷◌, length, IfSome};
ghost use Rattle.cxx_model.specs.Types.Same.{same_cv as same_cv_of, same_bool as same_bool_of};
ghost use Rattle.cxx_model.specs.Types.Numbers.{type_at};
ghost use Rattle.cxx_meaning.specs.Conversions.Kinds.{no_cv as no_cv_of, cv_of as cv_of_type, signature, is_cv_within as is_cv_within_of};
ghost use Rattle.cxx_meaning.specs.Conversions.Order.{are_within as are_within_of};
ghost use Rattle.cxx_meaning.specs.Conversions.Standard.{may_widen as may_widen_of, is_widened as is_widened_of, only_const as only_const_of, widens as widens_of};
ghost use Rattle.cxx_standard.specs.Views.{signature_at};

use cxx_model::{Cv, TypeId, TypeNode};
use cxx_types::TypeTable;

pub(crate) fn no_cv() -> Cv
    ensures { result ≡ no_cv_of }
{
    Cv {
        is_const: false,
        is_volatile: false,
    }
}

pub(crate) fn only_const() -> Cv
    ensures { result ≡ only_const_of }
{
    Cv {
        is_const: true,
        is_volatile: false,
    }
}

/// Whether each word of the first stands in the second.
pub fn is_cv_within(one: Cv, two: Cv) -> bool
    ensures { result ≡ is_cv_within_of one two }
{
    (!one.is_const || two.is_const) && (!one.is_volatile || two.is_volatile)
}

fn same_bool(one: bool, two: bool) -> bool
    ensures { result ≡ same_bool_of one two }
{
    if one { two } else { !two }
}

/// Whether two types of cv words are the same.
pub fn same_cv(one: Cv, two: Cv) -> bool
    ensures { result ≡ same_cv_of one two }
{
    same_bool(one.is_const, two.is_const) && same_bool(one.is_volatile, two.is_volatile)
}

/// The cv words of a type itself; those of an array are those of its innermost element.
pub fn cv_of(types: &TypeTable, number: TypeId) -> Cv
    requires { number.0 < length types.now }
    ensures { result ≡ cv_of_type (type_at types.now number.0) }
{
    match types.node(number) {
        TypeNode::Qualified(cv, _) => *cv,
        TypeNode::Array(element, _) => cv_of(types, *element),
        _ => no_cv(),
    }
}

/// The type behind the `*` of a type.
pub fn pointee(types: &TypeTable, number: TypeId) -> Option<TypeId>
    requires { number.0 < length types.now }
    ensures is { signature_at types.now result ≡ signature (type_at types.now number.0) }
    ensures below { IfSome result (λ of. of.0 < number.0) }
{
    match types.node(number) {
        TypeNode::Pointer(of) => Some(*of),
        TypeNode::Qualified(_, of) => pointee(types, *of),
        _ => None,
    }
}

/// Whether the cv words of one type and behind each `*` in it may become those of another (4.4).
fn may_widen(types: &TypeTable, const_above: bool, one: TypeId, two: TypeId) -> bool
    requires one_known { one.0 < length types.now }
    requires two_known { two.0 < length types.now }
    ensures { result ≡ may_widen_of const_above (cv_of_type (type_at types.now one.0) ∷ signature (type_at types.now one.0)) (cv_of_type (type_at types.now two.0) ∷ signature (type_at types.now two.0)) }
{
    let from = cv_of(types, one);
    let to = cv_of(types, two);
    is_cv_within(from, to)
        && ((same_cv(from, to) || const_above)
            && match pointee(types, one) {
                Some(inner) => match pointee(types, two) {
                    Some(other) => may_widen(types, const_above && to.is_const, inner, other),
                    None => false,
                },
                None => pointee(types, two).is_none(),
            })
}

/// Whether a pointer to one type is converted to a pointer to the other by a qualification, or is the same (4.4).
pub(crate) fn is_widened(types: &TypeTable, one: TypeId, two: TypeId) -> bool
    requires one_known { one.0 < length types.now }
    requires two_known { two.0 < length types.now }
    ensures { result ≡ is_widened_of (type_at types.now one.0) (type_at types.now two.0) }
{
    types.similar(one, two) && may_widen(types, true, one, two)
}

/// Whether the two types have different cv words.
pub(crate) fn widens(types: &TypeTable, one: TypeId, two: TypeId) -> bool
    requires one_known { one.0 < length types.now }
    requires two_known { two.0 < length types.now }
    ensures { result ≡ widens_of (type_at types.now one.0) (type_at types.now two.0) }
{
    !same_cv(cv_of(types, one), cv_of(types, two))
}

/// Whether the cv words behind each `*` in a type stand in another, too.
pub(crate) fn are_within(types: &TypeTable, one: TypeId, two: TypeId) -> bool
    requires one_known { one.0 < length types.now }
    requires two_known { two.0 < length types.now }
    ensures { result ≡ are_within_of (signature (type_at types.now one.0)) (signature (type_at types.now two.0)) }
{
    match pointee(types, one) {
        Some(inner) => match pointee(types, two) {
            Some(other) => {
                is_cv_within(cv_of(types, inner), cv_of(types, other))
                    && are_within(types, inner, other)
            }
            None => false,
        },
        None => pointee(types, two).is_none(),
    }
}

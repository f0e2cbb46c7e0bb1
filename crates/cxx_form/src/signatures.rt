//! By what functions of classes are told apart in the text (9.3, 13.1).
ghost use Rattle.std.specs.Prelude.{◌≡◌, ◌<◌, ℕ, if◌then◌else◌, length, option_map, List, None, Some};
ghost use Rattle.std.specs.List.{slice_get};
ghost use Rattle.cxx_model.specs.Facts.Conflicts.{same_name as same_name_of};
ghost use Rattle.cxx_model.specs.Facts.Declarations.{declares_at, name_at, type_of_option, CxxName};
ghost use Rattle.cxx_model.specs.Facts.Fitted.{IsEntityBelow, IsNameBelow, IsTypeNumberBelow};
ghost use Rattle.cxx_model.specs.Types.Numbers.{type_at, types_at, AreTypesBelow};
ghost use Rattle.cxx_model.specs.Types.Same.{same_bool as same_bool_of, same_cv as same_cv_of, same_types as same_types_of};
ghost use Rattle.cxx_model.specs.Types.Trees.{CxxType};
ghost use Rattle.cxx_form.specs.Lines.{number_in, numbers_in};
ghost use Rattle.cxx_form.specs.Shared.{has_signature as has_one, is_named_kind as is_named_kind_of, signature_by, signature_of, signature_with};
ghost use Rattle.cxx_form.specs.Sharing.{first_among, same_if, signature_typed};
ghost use Rattle.cxx_form.specs.Views.{facts_in};

use crate::facts::find;
use cxx_model::{Cv, Entity, FactId, FunctionFlags, MemberKind, Name, TypeId, TypeNode};
use cxx_tree::State;
use cxx_types::TypeTable;

// ---- which functions

fn is_named_kind(member: MemberKind) -> bool
    ensures { result ≡ is_named_kind_of member }
{
    match member {
        MemberKind::Nonstatic => true,
        MemberKind::Static => true,
        MemberKind::Conversion => true,
        _ => false,
    }
}

fn has_signature(member: MemberKind, flags: FunctionFlags) -> bool
    ensures { result ≡ has_one member flags }
{
    is_named_kind(member) && !flags.is_implicit
}

// The type of a function, where it has a signature.
fn type_if(of: TypeId, is_signed: bool) -> Option<TypeId>
    ensures { result ≡ if is_signed then Some of else None }
{
    if is_signed { Some(of) } else { None }
}

/// The type of what is declared, where that is a function whose number may be that of another one.
pub(crate) fn signed_type(what: Entity) -> Option<TypeId>
    ensures is { (types : List CxxType) (name : CxxName) → signature_typed name (type_of_option types result) ≡ signature_by name (declares_at types what) }
    ensures below { (count : ℕ) → IsEntityBelow count what → IsTypeNumberBelow count result }
{
    match what {
        Entity::Function {
            of,
            member,
            flags,
            ..
        } => type_if(of, has_signature(member, flags)),
        _ => None,
    }
}

// ---- whether signatures are the same

fn same_bool(one: bool, two: bool) -> bool
    ensures { result ≡ same_bool_of one two }
{
    if one { two } else { !two }
}

fn same_cv(one: Cv, two: Cv) -> bool
    ensures { result ≡ same_cv_of one two }
{
    same_bool(one.is_const, two.is_const) && same_bool(one.is_volatile, two.is_volatile)
}

#[tactic(auto, using(crate::proofs::Signed::below_first))]
fn same_types(types: &TypeTable, ones: &[TypeId], twos: &[TypeId]) -> bool
    requires ones { AreTypesBelow (length types.now) ones.now }
    requires twos { AreTypesBelow (length types.now) twos.now }
    ensures { result ≡ same_types_of (types_at types.now ones.now) (types_at types.now twos.now) }
{
    let (mut ones, mut twos) = (ones, twos);
    while let [one, other_ones @ ..] = ones {
        let [two, other_twos @ ..] = twos else {
            return false;
        };
        if !types.same(*one, *two) {
            return false;
        }
        ones = other_ones;
        twos = other_twos;
    }
    twos.is_empty()
}

fn same_name(types: &TypeTable, one: &Name, two: &Name) -> bool
    requires one { IsNameBelow (length types.now) one.now }
    requires two { IsNameBelow (length types.now) two.now }
    ensures { result ≡ same_name_of (name_at types.now one.now) (name_at types.now two.now) }
{
    match one {
        Name::Unnamed => match two {
            Name::Unnamed => true,
            _ => false,
        },
        Name::Spelled(one) => match two {
            Name::Spelled(two) => one == two,
            _ => false,
        },
        Name::Operator(one) => match two {
            Name::Operator(two) => *one == *two,
            _ => false,
        },
        Name::Conversion(one) => match two {
            Name::Conversion(two) => types.same(*one, *two),
            _ => false,
        },
        Name::Destructor => match two {
            Name::Destructor => true,
            _ => false,
        },
    }
}

// Whether two functions with names and types have one signature.
#[tactic(auto, using(crate::proofs::Signed::are_signed, crate::proofs::Signed::one_is_none, crate::proofs::Signed::two_is_none))]
fn same_signature(types: &TypeTable, one: &Name, of: TypeId, two: &Name, other: TypeId) -> bool
    requires one { IsNameBelow (length types.now) one.now }
    requires of { of.0 < length types.now }
    requires two { IsNameBelow (length types.now) two.now }
    requires other { other.0 < length types.now }
    ensures { result ≡ same_if (signature_with (name_at types.now one.now) (type_at types.now of.0)) (signature_with (name_at types.now two.now) (type_at types.now other.0)) }
{
    match types.node(of) {
        TypeNode::Function {
            parameters: ones,
            ellipsis: first,
            cv,
            ..
        } => match types.node(other) {
            TypeNode::Function {
                parameters: twos,
                ellipsis: second,
                cv: behind,
                ..
            } => {
                same_name(types, one, two)
                    && (same_types(types, ones.as_slice(), twos.as_slice())
                        && (same_bool(*first, *second) && same_cv(*cv, *behind)))
            }
            _ => false,
        },
        _ => false,
    }
}

// Whether a declaration has the signature of a function with a name and a type.
fn is_signed(state: &State, name: &Name, of: TypeId, number: FactId) -> bool
    requires name { IsNameBelow (length (state.now).types) name.now }
    requires of { of.0 < length (state.now).types }
    ensures { result ≡ same_if (signature_with (name_at (state.now).types name.now) (type_at (state.now).types of.0)) (signature_of (slice_get (facts_in state.now) number.0)) }
{
    let Some(fact) = find(state, number) else {
        return false;
    };
    let Some(other) = signed_type(fact.what) else {
        return false;
    };
    same_signature(state.types(), name, of, &fact.name, other)
}

/// The first among some declarations that has the signature of a function with a name and a type.
pub(crate) fn find_signed(
    state: &State,
    name: &Name,
    of: TypeId,
    numbers: &[FactId],
) -> Option<FactId>
    requires name { IsNameBelow (length (state.now).types) name.now }
    requires of { of.0 < length (state.now).types }
    ensures { option_map number_in result ≡ first_among (facts_in state.now) (signature_with (name_at (state.now).types name.now) (type_at (state.now).types of.0)) (numbers_in numbers.now) }
{
    for number in numbers {
        if is_signed(state, name, of, *number) {
            return Some(*number);
        }
    }
    None
}

//! Strings that initialize arrays (8.5.2).

ghost use Rattle.std.specs.Prelude.{List, ◌≡◌, ◌<◌, length};
ghost use Rattle.cxx_model.specs.Types.Numbers.{type_at};
ghost use Rattle.cxx_model.specs.Types.Trees.{CxxType};
ghost use Rattle.cxx_reading.specs.Initializers as reading;
ghost use Rattle.cxx_standard.specs.Views.{kind_at};
ghost use Rattle.cxx_tree.specs.Held.{tree, trees, type_of};
ghost use Rattle.cxx_expr.specs.Initializing as definition;
ghost use Rattle.cxx_expr.specs.Nodes.{IsOneKnown, one_tree};
ghost use Rattle.cxx_initialize.specs.Behind as behind;

use crate::written::is_braces_at;
use cxx_model::{Base, Bound, ConstantKind, TreeId, TypeId, TypeNode};
use cxx_standard::{TypeKind, kind_of};
use cxx_tree::State;
use cxx_types::TypeTable;

fn takes_narrow(of: Base) -> bool
    ensures { result ≡ definition.takes_narrow of }
{
    match of {
        Base::Char => true,
        Base::SignedChar => true,
        Base::UnsignedChar => true,
        _ => false,
    }
}

fn takes_wide(of: Base) -> bool
    ensures { result ≡ definition.takes_wide of }
{
    match of {
        Base::WideChar => true,
        _ => false,
    }
}

// Whether a string with this mark initializes an array of elements of the kind.
fn takes_text(constant: ConstantKind, kind: TypeKind) -> bool
    ensures { (types : List CxxType) → result ≡ definition.takes_text constant (kind_at types kind) }
{
    match kind {
        TypeKind::Arithmetic(of) => match constant {
            ConstantKind::NarrowText => takes_narrow(of),
            ConstantKind::WideText => takes_wide(of),
            _ => false,
        },
        _ => false,
    }
}

fn constant_of(state: &State, number: TreeId) -> ConstantKind
    requires { number.0 < length (trees state.now) }
    ensures { result ≡ (reading.operand_of (tree state.now number)).constant }
{
    match state.node(number).operand {
        None => ConstantKind::No,
        Some(operand) => operand.constant,
    }
}

/// Whether a tree is a string that initializes an array of elements of a type.
pub fn is_text_for(state: &State, of: TypeId, number: TreeId) -> bool
    requires of { of.0 < length (state.now).types }
    requires number { number.0 < length (trees state.now) }
    ensures { result ≡ definition.is_text_for (type_of state.now of) (tree state.now number) }
{
    let kind = kind_of(state.graph(), state.types(), of);
    !is_braces_at(state, number) && takes_text(constant_of(state, number), kind)
}

/// The string that is the one part of braces.
pub fn text_by(state: &State, of: TypeId, one: Option<TreeId>) -> Option<TreeId>
    requires of { of.0 < length (state.now).types }
    requires one { IsOneKnown state.now one }
    ensures is { one_tree state.now result ≡ behind.text_by (type_of state.now of) (one_tree state.now one) }
    ensures known { IsOneKnown state.now result }
{
    match one {
        None => None,
        Some(number) => {
            if is_text_for(state, of, number) {
                Some(number)
            } else {
                None
            }
        }
    }
}

// How many letters a string has, with the one that ends it.
fn count_of(types: &TypeTable, of: TypeId) -> u64
    requires { of.0 < length types.now }
    ensures { result ≡ definition.count_of (type_at types.now of.0) }
{
    match types.node(of) {
        TypeNode::Array(_, bound) => match bound {
            Bound::Number(count) => *count,
            _ => 0,
        },
        _ => 0,
    }
}

/// The same of a tree.
pub fn text_count(state: &State, number: TreeId) -> u64
    requires { number.0 < length (trees state.now) }
    ensures { result ≡ definition.text_count (tree state.now number) }
{
    match state.node(number).operand {
        None => 0,
        Some(operand) => count_of(state.types(), operand.of),
    }
}

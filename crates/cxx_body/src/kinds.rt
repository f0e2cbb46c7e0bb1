//! What an expression of a statement is (6.4, 6.4.2).

ghost use Rattle.std.specs.Prelude.{List, ◌≡◌, ◌<◌, length};
ghost use Rattle.cxx_language.specs.Statements as definition;
ghost use Rattle.cxx_meaning.specs.Conversions.Arithmetic.{integer_of as integer_of_kind};
ghost use Rattle.cxx_meaning.specs.Conversions.BuiltIn.{is_condition as is_condition_kind, operand_kind as kind_of_operand};
ghost use Rattle.cxx_model.specs.Types.Numbers.{type_at};
ghost use Rattle.cxx_model.specs.Types.Trees.{CxxType, fundamental};
ghost use Rattle.cxx_reading.specs.Declarators as declarators;
ghost use Rattle.cxx_reading.specs.Initializers.{operand_of};
ghost use Rattle.cxx_standard.specs.Views.{kind_at};
ghost use Rattle.cxx_syntax.specs.Layering.{is_bare_void};
ghost use Rattle.cxx_tree.specs.Held.{meaning, tree, trees};

use cxx_builtin::{integer_of, operand_kind};
use cxx_model::{Base, Place, TreeId, TypeId, TypeNode};
use cxx_standard::TypeKind;
use cxx_tree::State;
use cxx_types::TypeTable;

/// The number of the production.
const DECLARATION_STATEMENT: u8 = 24;

/// Where a condition is asked about: at its first token, or at the name that it declares.
pub(crate) fn condition_place(state: &State, number: TreeId) -> Place
    requires { number.0 < length (trees state.now) }
    ensures { result ≡ definition.condition_place (tree state.now number) }
{
    let node = state.node(number);
    if node.production == DECLARATION_STATEMENT {
        node.place
    } else {
        node.start
    }
}

/// The place of the first token of an expression.
pub(crate) fn start_of(state: &State, number: TreeId) -> Place
    requires { number.0 < length (trees state.now) }
    ensures { result ≡ (tree state.now number).label.start }
{
    state.node(number).start
}

fn is_condition(kind: TypeKind) -> bool
    ensures { (types : List CxxType) → result ≡ is_condition_kind (kind_at types kind) }
{
    match kind {
        TypeKind::Arithmetic(_) => true,
        TypeKind::Enumeration(_) => true,
        TypeKind::Pointer(_) => true,
        _ => false,
    }
}

/// Whether an expression converts to `bool` (4.12).
pub(crate) fn is_test(state: &State, number: TreeId) -> bool
    requires { number.0 < length (trees state.now) }
    ensures { result ≡ is_condition_kind (kind_of_operand (operand_of (tree state.now number))) }
{
    match state.node(number).operand {
        None => false,
        Some(operand) => is_condition(operand_kind(state.graph(), state.types(), operand)),
    }
}

/// The integral type of an expression, where it has one.
#[tactic(auto, unfolding(cxx_tree::specs::Held::meaning))]
pub(crate) fn integer_type(state: &State, number: TreeId) -> Option<Base>
    requires { number.0 < length (trees state.now) }
    ensures { result ≡ integer_of_kind (meaning state.now).graph (kind_of_operand (operand_of (tree state.now number))) }
{
    match state.node(number).operand {
        None => None,
        Some(operand) => {
            let kind = operand_kind(state.graph(), state.types(), operand);
            integer_of(state.graph(), state.types(), kind)
        }
    }
}

fn is_void_base(base: Base) -> bool
    ensures { result ≡ declarators.is_void (fundamental base) }
{
    match base {
        Base::Void => true,
        _ => false,
    }
}

fn is_plain_void(types: &TypeTable, of: TypeId) -> bool
    requires { of.0 < length types.now }
    ensures { result ≡ is_bare_void (type_at types.now of.0) }
{
    match types.node(of) {
        TypeNode::Plain(base) => is_void_base(*base),
        _ => false,
    }
}

/// Whether a type is `void`, its cv words aside.
pub(crate) fn is_void(types: &TypeTable, of: TypeId) -> bool
    requires { of.0 < length types.now }
    ensures { result ≡ declarators.is_void (type_at types.now of.0) }
{
    match types.node(of) {
        TypeNode::Plain(base) => is_void_base(*base),
        TypeNode::Qualified(_, bare) => is_plain_void(types, *bare),
        _ => false,
    }
}

/// Whether an expression gives nothing.
pub(crate) fn gives_void(state: &State, number: TreeId) -> bool
    requires { number.0 < length (trees state.now) }
    ensures { result ≡ declarators.is_void (operand_of (tree state.now number)).of }
{
    match state.node(number).operand {
        None => true,
        Some(operand) => is_void(state.types(), operand.of),
    }
}

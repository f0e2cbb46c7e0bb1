//! What an expression is as a part of a constant expression, by its production and its operands.
ghost use Rattle.std.specs.Prelude.{◌≡◌, ◌<◌, [], length};
ghost use Rattle.cxx_model.specs.Facts.Declarations.{type_of_option};
ghost use Rattle.cxx_model.specs.Facts.Fitted.{IsTypeNumberBelow};
ghost use Rattle.cxx_model.specs.Types.Numbers.{type_at};
ghost use Rattle.cxx_meaning.specs.Conversions.Sizes.{size_of as size_of_type};
ghost use Rattle.cxx_standard.specs.Views.{kind_at};
ghost use Rattle.cxx_tree.specs.Arena.{label_at, AreTreesBelow, IsNodeBelow};
ghost use Rattle.cxx_constant.specs.Forms as definition;
ghost use Rattle.cxx_constant.specs.Known.{graph_in, labels_in, part_at, IsKnown};

use crate::form::Form;
use crate::known::{Known, node};
use crate::names::value_of_name;
use crate::operands::{
    is_integral, kind_of_operand, kind_of_target, operator_number, value_of_literal,
};
use crate::production;
use cxx_computed::{BinaryOperator, UnaryOperator, ValueFault, binary_operator, unary_operator};
use cxx_model::{Base, Node, TreeId, TypeId, punct};
use cxx_sizes::SizeFault;
use cxx_standard::TypeKind;
use cxx_types::TypeTable;

fn is_integral_kind(types: &TypeTable, kind: TypeKind) -> bool
    ensures { result ≡ definition.is_integral_kind (kind_at types.now kind) }
{
    let _ = types;
    match kind {
        TypeKind::Arithmetic(of) => is_integral(of),
        TypeKind::Enumeration(_) => true,
        _ => false,
    }
}

fn integral_base(types: &TypeTable, kind: TypeKind) -> Option<Base>
    ensures { result ≡ definition.integral_base (kind_at types.now kind) }
{
    let _ = types;
    match kind {
        TypeKind::Arithmetic(of) => { if is_integral(of) { Some(of) } else { None } }
        _ => None,
    }
}

// The integral type of an operand.
#[tactic(auto, using(crate::proofs::Wholes::label_is))]
fn base_of(known: &Known<'_>, number: TreeId) -> Option<Base>
    requires known { IsKnown known.now }
    requires there { number.0 < length known.now.trees.now }
    ensures { result ≡ definition.integral_base (definition.kind_of_expression (part_at known.now number).label) }
{
    let node = node(known, number);
    integral_base(known.types, kind_of_operand(known, node.operand))
}

// The integral type of the first operand.
fn base_of_first(known: &Known<'_>, operands: &[TreeId]) -> Option<Base>
    requires known { IsKnown known.now }
    requires there { AreTreesBelow (length known.now.trees.now) operands.now }
    ensures { result ≡ definition.base_of_first (labels_in known.now operands.now) }
{
    let [left, ..] = operands else {
        return None;
    };
    base_of(known, *left)
}

fn value_form(value: Option<i128>) -> Form
    ensures { result ≡ definition.value_form value }
{
    match value {
        None => Form::Other,
        Some(value) => Form::Value(Ok(value)),
    }
}

// The size of a type that is written (5.3.3).
fn size_by(known: &Known<'_>, of: TypeId) -> Form
    requires known { IsKnown known.now }
    requires below { of.0 < length known.now.types.now }
    ensures { result ≡ definition.size_by (size_of_type (graph_in known.now) (type_at known.now.types.now of.0)) }
{
    match known.layouts.size_of(known.graph, known.types, of) {
        Ok(size) => Form::Value(Ok(size as i128)),
        Err(SizeFault::TooLarge) => Form::Value(Err(ValueFault::Overflow)),
        Err(SizeFault::NoSize) => Form::Other,
        Err(SizeFault::Needs(_)) => Form::Other,
    }
}

// A size as a constant: that of an operand spells the whole.
fn size_form(known: &Known<'_>, node: &Node) -> Form
    requires known { IsKnown known.now }
    requires below { IsNodeBelow (length known.now.types.now) node.now }
    ensures { result ≡ definition.size_form (graph_in known.now) (label_at known.now.types.now node.now) }
{
    match node.of {
        None => value_form(value_of_literal(node.spelling.as_slice())),
        Some(of) => size_by(known, of),
    }
}

fn cast_form(known: &Known<'_>, of: Option<TypeId>) -> Form
    requires known { IsKnown known.now }
    requires below { IsTypeNumberBelow (length known.now.types.now) of }
    ensures { result ≡ definition.cast_form (type_of_option known.now.types.now of) }
{
    if is_integral_kind(known.types, kind_of_target(known, of)) {
        Form::Cast
    } else {
        Form::Other
    }
}

// `T()` (5.2.3, 8.5)
fn zero_form(known: &Known<'_>, of: Option<TypeId>) -> Form
    requires known { IsKnown known.now }
    requires below { IsTypeNumberBelow (length known.now.types.now) of }
    ensures { result ≡ definition.functional_form (type_of_option known.now.types.now of) [] }
{
    if is_integral_kind(known.types, kind_of_target(known, of)) {
        Form::Value(Ok(0))
    } else {
        Form::Other
    }
}

// 5.2.3
fn functional_form(known: &Known<'_>, of: Option<TypeId>, operands: &[TreeId]) -> Form
    requires known { IsKnown known.now }
    requires below { IsTypeNumberBelow (length known.now.types.now) of }
    ensures { result ≡ definition.functional_form (type_of_option known.now.types.now of) (labels_in known.now operands.now) }
{
    let [_first, ..] = operands else {
        return zero_form(known, of);
    };
    cast_form(known, of)
}

fn unary_form(operator: Option<UnaryOperator>, of: Option<Base>) -> Form
    ensures { result ≡ definition.unary_form operator of }
{
    match (operator, of) {
        (Some(operator), Some(of)) => Form::Unary(operator, of),
        _ => Form::Other,
    }
}

fn unary_by(number: Option<u8>, of: Option<Base>) -> Form
    ensures { result ≡ definition.unary_by number of }
{
    match number {
        None => Form::Other,
        Some(number) => unary_form(unary_operator(number), of),
    }
}

fn binary_form(operator: Option<BinaryOperator>, of: Option<Base>) -> Form
    ensures { result ≡ definition.binary_form operator of }
{
    match (operator, of) {
        (Some(operator), Some(of)) => Form::Binary(operator, of),
        _ => Form::Other,
    }
}

fn binary_by(number: Option<u8>, of: Option<Base>) -> Form
    ensures { result ≡ definition.binary_by number of }
{
    match number {
        None => Form::Other,
        Some(punct::LOGICAL_AND) => Form::And,
        Some(punct::LOGICAL_OR) => Form::Or,
        Some(number) => binary_form(binary_operator(number), of),
    }
}

// What an operator is with its operands (5.3.1, 5.6 to 5.16).
fn operator_form(known: &Known<'_>, node: &Node, operands: &[TreeId]) -> Form
    requires known { IsKnown known.now }
    requires there { AreTreesBelow (length known.now.trees.now) operands.now }
    ensures { result ≡ definition.operator_form (label_at known.now.types.now node.now) (labels_in known.now operands.now) }
{
    match node.production {
        production::PREFIX => unary_by(
            operator_number(node.spelling.as_slice()),
            base_of_first(known, operands),
        ),
        production::BINARY => binary_by(
            operator_number(node.spelling.as_slice()),
            base_of_first(known, operands),
        ),
        production::CONDITIONAL => Form::Conditional,
        _ => Form::Other,
    }
}

fn form_by(known: &Known<'_>, node: &Node, operands: &[TreeId]) -> Form
    requires known { IsKnown known.now }
    requires below { IsNodeBelow (length known.now.types.now) node.now }
    requires there { AreTreesBelow (length known.now.trees.now) operands.now }
    ensures { result ≡ definition.form_by (graph_in known.now) (label_at known.now.types.now node.now) (labels_in known.now operands.now) }
{
    match node.production {
        production::LITERAL => value_form(value_of_literal(node.spelling.as_slice())),
        production::NAME | production::QUALIFIED_NAME => {
            value_form(value_of_name(known.graph, node.target))
        }
        production::SIZE => size_form(known, node),
        production::PARENTHESIS => Form::Cast,
        production::CAST => cast_form(known, node.of),
        production::FUNCTIONAL_CAST => functional_form(known, node.of, operands),
        _ => operator_form(known, node, operands),
    }
}

/// What the expression of a node is, with its operands.
#[tactic(auto, unfolding(crate::specs::Forms::form_of))]
pub(crate) fn form_of(known: &Known<'_>, node: &Node, operands: &[TreeId]) -> Form
    requires known { IsKnown known.now }
    requires below { IsNodeBelow (length known.now.types.now) node.now }
    requires there { AreTreesBelow (length known.now.trees.now) operands.now }
    ensures { result ≡ definition.form_of (graph_in known.now) (label_at known.now.types.now node.now) (labels_in known.now operands.now) }
{
    if is_integral_kind(known.types, kind_of_operand(known, node.operand)) {
        form_by(known, node, operands)
    } else {
        Form::Other
    }
}

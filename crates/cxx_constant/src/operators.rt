//! What the operators make of the values of parts.
ghost use Rattle.std.specs.Prelude.{◌≡◌, ◌<◌, length, true, false};
ghost use Rattle.cxx_model.specs.Types.Integral.{width};
ghost use Rattle.cxx_computed.specs.Formulas.{value_as as value_as_kind};
ghost use Rattle.cxx_computed.specs.Values as values;
ghost use Rattle.cxx_standard.specs.Views.{kind_at};
ghost use Rattle.cxx_tree.specs.Arena.{label_at, IsOperandBelow};
ghost use Rattle.cxx_constant.specs.Constants as definition;
ghost use Rattle.cxx_constant.specs.Known.{tree_at, trees_in, value_at, IsFaultBelow, IsKnown, IsValueBelow};
ghost use Rattle.cxx_constant.specs.Known.{fault_at};

use crate::fault::ConstantFault;
use crate::known::Known;
use crate::operands::kind_of_operand;
use cxx_computed::{
    BinaryOperator, UnaryOperator, ValueFault, binary_value, converted_value, unary_value,
};
use cxx_model::{Base, Node, TreeId};
use cxx_standard::TypeKind;
use cxx_types::TypeTable;

fn fault_in(known: &Known<'_>, number: TreeId, why: ValueFault) -> ConstantFault
    requires { number.0 < length known.now.trees.now }
    ensures is { fault_at (trees_in known.now) result ≡ definition.fault_in (tree_at known.now number) why }
    ensures below { IsFaultBelow (length known.now.trees.now) result }
{
    let _ = known;
    match why {
        ValueFault::Overflow => ConstantFault::Overflow(number),
        ValueFault::DivideByZero => ConstantFault::DivideByZero(number),
    }
}

/// What an operator gives, where it is the one of a tree.
pub(crate) fn of_tree(
    known: &Known<'_>,
    number: TreeId,
    own: Result<i128, ValueFault>,
) -> Result<i128, ConstantFault>
    requires { number.0 < length known.now.trees.now }
    ensures is { value_at (trees_in known.now) result ≡ definition.of_tree (tree_at known.now number) own }
    ensures below { IsValueBelow (length known.now.trees.now) result }
{
    match own {
        Ok(value) => Ok(value),
        Err(why) => Err(fault_in(known, number, why)),
    }
}

fn unary_of_value(operator: UnaryOperator, of: Base, value: i128) -> Result<i128, ValueFault>
    requires { 0 < width of }
    ensures { result ≡ values.unary_value operator of (values.converted_value of value) }
{
    unary_value(operator, of, converted_value(of, value))
}

/// What an operator makes of the value of its operand (5.3.1).
pub(crate) fn unary_then(
    known: &Known<'_>,
    number: TreeId,
    operator: UnaryOperator,
    of: Base,
    one: Result<i128, ConstantFault>,
) -> Result<i128, ConstantFault>
    requires there { number.0 < length known.now.trees.now }
    requires wide { 0 < width of }
    requires before { IsValueBelow (length known.now.trees.now) one }
    ensures is { value_at (trees_in known.now) result ≡ definition.unary_then (tree_at known.now number) operator of (value_at (trees_in known.now) one) }
    ensures below { IsValueBelow (length known.now.trees.now) result }
{
    match one {
        Err(fault) => Err(fault),
        Ok(value) => of_tree(known, number, unary_of_value(operator, of, value)),
    }
}

fn is_shift(operator: BinaryOperator) -> bool
    ensures { result ≡ values.is_shift operator }
{
    match operator {
        BinaryOperator::ShiftLeft | BinaryOperator::ShiftRight => true,
        _ => false,
    }
}

// 5.8
fn shifted(operator: BinaryOperator, of: Base, one: i128, two: i128) -> Result<i128, ValueFault>
    requires wide { 0 < width of }
    requires shift { values.is_shift operator ≡ true }
    ensures { result ≡ values.binary_value operator of (values.converted_value of one) two }
{
    binary_value(operator, of, converted_value(of, one), two)
}

fn of_one_type(operator: BinaryOperator, of: Base, one: i128, two: i128) -> Result<i128, ValueFault>
    requires { 0 < width of }
    ensures { result ≡ values.binary_value operator of (values.converted_value of one) (values.converted_value of two) }
{
    let one = converted_value(of, one);
    let two = converted_value(of, two);
    binary_value(operator, of, one, two)
}

fn operated(operator: BinaryOperator, of: Base, one: i128, two: i128) -> Result<i128, ValueFault>
    requires { 0 < width of }
    ensures { result ≡ definition.operated operator of one two }
{
    if is_shift(operator) {
        shifted(operator, of, one, two)
    } else {
        of_one_type(operator, of, one, two)
    }
}

/// What an operator makes of the values of its operands (5.6 to 5.13).
pub(crate) fn binary_then(
    known: &Known<'_>,
    number: TreeId,
    operator: BinaryOperator,
    of: Base,
    one: Result<i128, ConstantFault>,
    two: Result<i128, ConstantFault>,
) -> Result<i128, ConstantFault>
    requires there { number.0 < length known.now.trees.now }
    requires wide { 0 < width of }
    requires one_before { IsValueBelow (length known.now.trees.now) one }
    requires two_before { IsValueBelow (length known.now.trees.now) two }
    ensures is { value_at (trees_in known.now) result ≡ definition.binary_then (tree_at known.now number) operator of (value_at (trees_in known.now) one) (value_at (trees_in known.now) two) }
    ensures below { IsValueBelow (length known.now.trees.now) result }
{
    match one {
        Err(fault) => Err(fault),
        Ok(one) => match two {
            Err(fault) => Err(fault),
            Ok(two) => of_tree(known, number, operated(operator, of, one, two)),
        },
    }
}

fn value_as(types: &TypeTable, kind: TypeKind, value: i128) -> i128
    ensures { result ≡ value_as_kind (kind_at types.now kind) value }
{
    let _ = types;
    match kind {
        TypeKind::Arithmetic(of) => converted_value(of, value),
        _ => value,
    }
}

/// A value as the type of its expression has it (4.7, 4.12).
pub(crate) fn typed(
    known: &Known<'_>,
    node: &Node,
    value: Result<i128, ConstantFault>,
) -> Result<i128, ConstantFault>
    requires known { IsKnown known.now }
    requires operand { IsOperandBelow (length known.now.types.now) (node.now).operand }
    requires before { IsValueBelow (length known.now.trees.now) value }
    ensures is { value_at (trees_in known.now) result ≡ definition.typed (label_at known.now.types.now node.now) (value_at (trees_in known.now) value) }
    ensures below { IsValueBelow (length known.now.trees.now) result }
{
    match value {
        Err(fault) => Err(fault),
        Ok(value) => Ok(value_as(known.types, kind_of_operand(known, node.operand), value)),
    }
}

//! The values of expressions (5.19).
ghost use Rattle.std.specs.Prelude.{◌≡◌, ◌<◌, length, map, Ok, pos};
ghost use Rattle.cxx_tree.specs.Arena.{AreTreesBelow};
ghost use Rattle.cxx_constant.specs.Constants as definition;
ghost use Rattle.cxx_constant.specs.Known.{part_at, tree_at, trees_in, value_at, IsFormWide, IsKnown, IsValueBelow};
ghost use Rattle.cxx_model.specs.Types.Integral.{width};

use crate::fault::ConstantFault;
use crate::form::Form;
use crate::forms::form_of;
use crate::known::{Known, node, operands_of};
use crate::missing::missing;
use crate::operators::{binary_then, of_tree, typed, unary_then};
use cxx_computed::{BinaryOperator, UnaryOperator};
use cxx_model::{Base, TreeId};

// A value that is taken, with an operand behind it that is not.
fn checked(
    known: &Known<'_>,
    value: Result<i128, ConstantFault>,
    other: TreeId,
) -> Result<i128, ConstantFault>
    requires known { IsKnown known.now }
    requires there { other.0 < length known.now.trees.now }
    requires before { IsValueBelow (length known.now.trees.now) value }
    ensures is { value_at (trees_in known.now) result ≡ definition.checked (value_at (trees_in known.now) value) (part_at known.now other).missing }
    ensures below { IsValueBelow (length known.now.trees.now) result }
{
    match value {
        Err(fault) => Err(fault),
        Ok(value) => match missing(known, other) {
            Some(part) => Err(ConstantFault::NotConstant(part)),
            None => Ok(value),
        },
    }
}

#[cycle(values)]
fn cast_value(known: &Known<'_>, number: TreeId, operands: &[TreeId]) -> Result<i128, ConstantFault>
    requires known { IsKnown known.now }
    requires there { number.0 < length known.now.trees.now }
    requires earlier { AreTreesBelow number.0 operands.now }
    ensures is { value_at (trees_in known.now) result ≡ definition.of_one (definition.refused (tree_at known.now number)) (λ part. part.value) (map (part_at known.now) operands.now) }
    ensures below { IsValueBelow (length known.now.trees.now) result }
{
    let [operand] = operands else {
        return Err(ConstantFault::NotConstant(number));
    };
    value(known, *operand)
}

#[cycle(values)]
fn unary(
    known: &Known<'_>,
    number: TreeId,
    operator: UnaryOperator,
    of: Base,
    operands: &[TreeId],
) -> Result<i128, ConstantFault>
    requires known { IsKnown known.now }
    requires there { number.0 < length known.now.trees.now }
    requires wide { 0 < width of }
    requires earlier { AreTreesBelow number.0 operands.now }
    ensures is { value_at (trees_in known.now) result ≡ definition.of_one (definition.refused (tree_at known.now number)) (definition.unary_of (tree_at known.now number) operator of) (map (part_at known.now) operands.now) }
    ensures below { IsValueBelow (length known.now.trees.now) result }
{
    let [operand] = operands else {
        return Err(ConstantFault::NotConstant(number));
    };
    let one = value(known, *operand);
    unary_then(known, number, operator, of, one)
}

#[cycle(values)]
fn binary(
    known: &Known<'_>,
    number: TreeId,
    operator: BinaryOperator,
    of: Base,
    operands: &[TreeId],
) -> Result<i128, ConstantFault>
    requires known { IsKnown known.now }
    requires there { number.0 < length known.now.trees.now }
    requires wide { 0 < width of }
    requires earlier { AreTreesBelow number.0 operands.now }
    ensures is { value_at (trees_in known.now) result ≡ definition.of_two (definition.refused (tree_at known.now number)) (definition.binary_of (tree_at known.now number) operator of) (map (part_at known.now) operands.now) }
    ensures below { IsValueBelow (length known.now.trees.now) result }
{
    let [left, right] = operands else {
        return Err(ConstantFault::NotConstant(number));
    };
    let one = value(known, *left);
    let two = value(known, *right);
    binary_then(known, number, operator, of, one, two)
}

// 5.14
#[cycle(values)]
fn conjunction(
    known: &Known<'_>,
    number: TreeId,
    operands: &[TreeId],
) -> Result<i128, ConstantFault>
    requires known { IsKnown known.now }
    requires there { number.0 < length known.now.trees.now }
    requires earlier { AreTreesBelow number.0 operands.now }
    ensures is { value_at (trees_in known.now) result ≡ definition.of_two (definition.refused (tree_at known.now number)) definition.conjunction (map (part_at known.now) operands.now) }
    ensures below { IsValueBelow (length known.now.trees.now) result }
{
    let [left, right] = operands else {
        return Err(ConstantFault::NotConstant(number));
    };
    match value(known, *left) {
        Err(fault) => Err(fault),
        Ok(left) => {
            if left == 0 {
                checked(known, Ok(0), *right)
            } else {
                value(known, *right)
            }
        }
    }
}

// 5.15
#[cycle(values)]
fn disjunction(
    known: &Known<'_>,
    number: TreeId,
    operands: &[TreeId],
) -> Result<i128, ConstantFault>
    requires known { IsKnown known.now }
    requires there { number.0 < length known.now.trees.now }
    requires earlier { AreTreesBelow number.0 operands.now }
    ensures is { value_at (trees_in known.now) result ≡ definition.of_two (definition.refused (tree_at known.now number)) definition.disjunction (map (part_at known.now) operands.now) }
    ensures below { IsValueBelow (length known.now.trees.now) result }
{
    let [left, right] = operands else {
        return Err(ConstantFault::NotConstant(number));
    };
    match value(known, *left) {
        Err(fault) => Err(fault),
        Ok(left) => {
            if left == 0 {
                value(known, *right)
            } else {
                checked(known, Ok(1), *right)
            }
        }
    }
}

// The value of the third operand of `?:`, behind the second, which is not evaluated.
#[cycle(values)]
fn third(
    known: &Known<'_>,
    number: TreeId,
    left: TreeId,
    right: TreeId,
) -> Result<i128, ConstantFault>
    requires known { IsKnown known.now }
    requires there { number.0 < length known.now.trees.now }
    requires left_earlier { left.0 < number.0 }
    requires right_earlier { right.0 < number.0 }
    ensures is { value_at (trees_in known.now) result ≡ definition.unless_missing (part_at known.now left).missing (part_at known.now right).value }
    ensures below { IsValueBelow (length known.now.trees.now) result }
{
    match missing(known, left) {
        Some(part) => Err(ConstantFault::NotConstant(part)),
        None => value(known, right),
    }
}

// 5.16
#[cycle(values)]
fn choice(known: &Known<'_>, number: TreeId, operands: &[TreeId]) -> Result<i128, ConstantFault>
    requires known { IsKnown known.now }
    requires there { number.0 < length known.now.trees.now }
    requires earlier { AreTreesBelow number.0 operands.now }
    ensures is { value_at (trees_in known.now) result ≡ definition.of_three (definition.refused (tree_at known.now number)) definition.choice (map (part_at known.now) operands.now) }
    ensures below { IsValueBelow (length known.now.trees.now) result }
{
    let [test, left, right] = operands else {
        return Err(ConstantFault::NotConstant(number));
    };
    match value(known, *test) {
        Err(fault) => Err(fault),
        Ok(test) => {
            if test == 0 {
                third(known, number, *left, *right)
            } else {
                let second = value(known, *left);
                checked(known, second, *right)
            }
        }
    }
}

#[cycle(values)]
fn value_by(
    known: &Known<'_>,
    number: TreeId,
    form: Form,
    operands: &[TreeId],
) -> Result<i128, ConstantFault>
    requires known { IsKnown known.now }
    requires there { number.0 < length known.now.trees.now }
    requires wide { IsFormWide form }
    requires earlier { AreTreesBelow number.0 operands.now }
    ensures is { value_at (trees_in known.now) result ≡ definition.value_by (tree_at known.now number) form (map (part_at known.now) operands.now) }
    ensures below { IsValueBelow (length known.now.trees.now) result }
{
    match form {
        Form::Value(own) => of_tree(known, number, own),
        Form::Cast => cast_value(known, number, operands),
        Form::Unary(operator, of) => unary(known, number, operator, of, operands),
        Form::Binary(operator, of) => binary(known, number, operator, of, operands),
        Form::And => conjunction(known, number, operands),
        Form::Or => disjunction(known, number, operands),
        Form::Conditional => choice(known, number, operands),
        Form::Other => Err(ConstantFault::NotConstant(number)),
    }
}

/// The value of an expression, or the first fault from the left.
#[cycle(values)]
pub(crate) fn value(known: &Known<'_>, number: TreeId) -> Result<i128, ConstantFault>
    requires known { IsKnown known.now }
    requires there { number.0 < length known.now.trees.now }
    ensures is { value_at (trees_in known.now) result ≡ (part_at known.now number).value }
    ensures below { IsValueBelow (length known.now.trees.now) result }
{
    let node = node(known, number);
    let operands = operands_of(known, number, node);
    let form = form_of(known, node, operands);
    let value = value_by(known, number, form, operands);
    typed(known, node, value)
}

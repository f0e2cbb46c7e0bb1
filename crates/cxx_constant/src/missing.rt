//! Parts of expressions that are no constants (5.19).
ghost use Rattle.std.specs.Prelude.{◌≡◌, ◌<◌, length, map, Some};
ghost use Rattle.cxx_tree.specs.Arena.{AreTreesBelow};
ghost use Rattle.cxx_constant.specs.Constants as definition;
ghost use Rattle.cxx_constant.specs.Known.{missing_at, part_at, tree_at, trees_in, IsKnown, IsMissingBelow};

use crate::form::Form;
use crate::forms::form_of;
use crate::known::{Known, node, operands_of};
use cxx_model::TreeId;

#[cycle(missing)]
fn missing_of_one(known: &Known<'_>, number: TreeId, operands: &[TreeId]) -> Option<TreeId>
    requires known { IsKnown known.now }
    requires there { number.0 < length known.now.trees.now }
    requires earlier { AreTreesBelow number.0 operands.now }
    ensures is { missing_at (trees_in known.now) result ≡ definition.of_one (Some (tree_at known.now number)) (λ part. part.missing) (map (part_at known.now) operands.now) }
    ensures below { IsMissingBelow (length known.now.trees.now) result }
{
    let [operand] = operands else {
        return Some(number);
    };
    missing(known, *operand)
}

#[cycle(missing)]
fn missing_of_two(known: &Known<'_>, number: TreeId, operands: &[TreeId]) -> Option<TreeId>
    requires known { IsKnown known.now }
    requires there { number.0 < length known.now.trees.now }
    requires earlier { AreTreesBelow number.0 operands.now }
    ensures is { missing_at (trees_in known.now) result ≡ definition.of_two (Some (tree_at known.now number)) definition.missing_of_two (map (part_at known.now) operands.now) }
    ensures below { IsMissingBelow (length known.now.trees.now) result }
{
    let [left, right] = operands else {
        return Some(number);
    };
    match missing(known, *left) {
        Some(part) => Some(part),
        None => missing(known, *right),
    }
}

#[cycle(missing)]
fn missing_of_three(known: &Known<'_>, number: TreeId, operands: &[TreeId]) -> Option<TreeId>
    requires known { IsKnown known.now }
    requires there { number.0 < length known.now.trees.now }
    requires earlier { AreTreesBelow number.0 operands.now }
    ensures is { missing_at (trees_in known.now) result ≡ definition.of_three (Some (tree_at known.now number)) definition.missing_of_three (map (part_at known.now) operands.now) }
    ensures below { IsMissingBelow (length known.now.trees.now) result }
{
    let [test, left, right] = operands else {
        return Some(number);
    };
    if let Some(part) = missing(known, *test) {
        return Some(part);
    }
    match missing(known, *left) {
        Some(part) => Some(part),
        None => missing(known, *right),
    }
}

#[cycle(missing)]
fn missing_by(known: &Known<'_>, number: TreeId, form: Form, operands: &[TreeId]) -> Option<TreeId>
    requires known { IsKnown known.now }
    requires there { number.0 < length known.now.trees.now }
    requires earlier { AreTreesBelow number.0 operands.now }
    ensures is { missing_at (trees_in known.now) result ≡ definition.missing_by (tree_at known.now number) form (map (part_at known.now) operands.now) }
    ensures below { IsMissingBelow (length known.now.trees.now) result }
{
    match form {
        Form::Value(_) => None,
        Form::Cast => missing_of_one(known, number, operands),
        Form::Unary(_, _) => missing_of_one(known, number, operands),
        Form::Binary(_, _) => missing_of_two(known, number, operands),
        Form::And => missing_of_two(known, number, operands),
        Form::Or => missing_of_two(known, number, operands),
        Form::Conditional => missing_of_three(known, number, operands),
        Form::Other => Some(number),
    }
}

/// The first part of an expression from the left that is no constant, where there is one.
#[cycle(missing)]
pub(crate) fn missing(known: &Known<'_>, number: TreeId) -> Option<TreeId>
    requires known { IsKnown known.now }
    requires there { number.0 < length known.now.trees.now }
    ensures is { missing_at (trees_in known.now) result ≡ (part_at known.now number).missing }
    ensures below { IsMissingBelow (length known.now.trees.now) result }
{
    let node = node(known, number);
    let operands = operands_of(known, number, node);
    let form = form_of(known, node, operands);
    missing_by(known, number, form, operands)
}

//! Parts of constant expressions, and what the operators make of them (5.19).
ghost use Rattle.std.specs.Prelude.{◌≡◌, ◌<◌, length, None, Some, true, false, IfSome, Ok};
ghost use Rattle.cxx_model.specs.Facts.Declarations.{graph_at};
ghost use Rattle.cxx_model.specs.Types.Integral.{holds, width};
ghost use Rattle.cxx_computed.specs.Computes.{constant_at, constants_at, kinds_at, AreConstantsInRange};
ghost use Rattle.cxx_computed.specs.Formulas as definition;
ghost use Rattle.cxx_computed.specs.Values as values;
ghost use Rattle.cxx_standard.specs.Views.{kind_at, IsKindInRange};

use crate::integers::{converted_value, truth, width_of};
use crate::operators::{BinaryOperator, UnaryOperator, ValueFault};
use crate::values::{binary_value, unary_value};
use cxx_builtin::{integer_of, integral_promoted, usual};
use cxx_graph::Graph;
use cxx_model::{Base, punct};
use cxx_standard::{TypeKind, same_base};
use cxx_types::TypeTable;

/// A constant expression: its type, which is integral or an enumeration, and its value, where its operators give one.
#[derive(Clone, Copy)]
pub(crate) struct Constant {
    pub of: TypeKind,
    pub value: Result<i128, ValueFault>,
}

/// The operator with one operand that a number means (5.3.1).
pub fn unary_operator(number: u8) -> Option<UnaryOperator>
    ensures { result ≡ definition.unary_operator number }
{
    match number {
        punct::PLUS => Some(UnaryOperator::Plus),
        punct::MINUS => Some(UnaryOperator::Minus),
        punct::TILDE => Some(UnaryOperator::Complement),
        punct::EXCLAMATION => Some(UnaryOperator::Not),
        _ => None,
    }
}

fn comparison(number: u8) -> Option<BinaryOperator>
    ensures { result ≡ definition.comparison number }
{
    match number {
        punct::LESS => Some(BinaryOperator::Less),
        punct::GREATER => Some(BinaryOperator::Greater),
        punct::LESS_OR_EQUAL => Some(BinaryOperator::LessOrEqual),
        punct::GREATER_OR_EQUAL => Some(BinaryOperator::GreaterOrEqual),
        punct::EQUAL_TO => Some(BinaryOperator::Equal),
        punct::NOT_EQUAL_TO => Some(BinaryOperator::NotEqual),
        _ => None,
    }
}

fn bit_operator(number: u8) -> Option<BinaryOperator>
    ensures { result ≡ definition.bit_operator number }
{
    match number {
        punct::SHIFT_LEFT => Some(BinaryOperator::ShiftLeft),
        punct::SHIFT_RIGHT => Some(BinaryOperator::ShiftRight),
        punct::AMPERSAND => Some(BinaryOperator::And),
        punct::CARET => Some(BinaryOperator::ExclusiveOr),
        punct::BAR => Some(BinaryOperator::InclusiveOr),
        _ => comparison(number),
    }
}

/// The operator that a number means, of two operands that are both evaluated (5.6 to 5.13).
pub fn binary_operator(number: u8) -> Option<BinaryOperator>
    ensures { result ≡ definition.binary_operator number }
{
    match number {
        punct::STAR => Some(BinaryOperator::Multiply),
        punct::SLASH => Some(BinaryOperator::Divide),
        punct::PERCENT => Some(BinaryOperator::Remainder),
        punct::PLUS => Some(BinaryOperator::Add),
        punct::MINUS => Some(BinaryOperator::Subtract),
        _ => bit_operator(number),
    }
}

fn value_as(types: &TypeTable, kind: TypeKind, value: i128) -> i128
    ensures { result ≡ definition.value_as (kind_at types.now kind) value }
{
    let _ = types;
    match kind {
        TypeKind::Arithmetic(of) => converted_value(of, value),
        _ => value,
    }
}

fn valued_as(
    types: &TypeTable,
    kind: TypeKind,
    value: Result<i128, ValueFault>,
) -> Result<i128, ValueFault>
    ensures { result ≡ definition.valued_as (kind_at types.now kind) value }
{
    match value {
        Ok(value) => Ok(value_as(types, kind, value)),
        Err(fault) => Err(fault),
    }
}

pub(crate) fn of_base(types: &TypeTable, of: Base, value: Result<i128, ValueFault>) -> Constant
    ensures { constant_at types.now result ≡ definition.of_base of value }
{
    let _ = types;
    Constant {
        of: TypeKind::Arithmetic(of),
        value,
    }
}

fn is_integral(of: Base) -> bool
    ensures { result ≡ definition.is_integral of }
{
    0 < width_of(of)
}

fn if_integral(of: Option<Base>) -> Option<Base>
    ensures is { result ≡ definition.if_integral of }
    ensures wide { IfSome result (λ of. 0 < width of) }
{
    match of {
        None => None,
        Some(of) => { if is_integral(of) { Some(of) } else { None } }
    }
}

fn integral_of(graph: &Graph, types: &TypeTable, kind: TypeKind) -> Option<Base>
    requires { IsKindInRange graph.now (kind_at types.now kind) }
    ensures is { result ≡ definition.integral_of (graph_at types.now graph.now) (kind_at types.now kind) }
    ensures wide { IfSome result (λ of. 0 < width of) }
{
    if_integral(integer_of(graph, types, kind))
}

/// A value of an integral type or of an enumeration, which keeps it (5.19).
pub(crate) fn as_constant(
    graph: &Graph,
    types: &TypeTable,
    kind: TypeKind,
    value: Result<i128, ValueFault>,
) -> Option<Constant>
    requires { IsKindInRange graph.now (kind_at types.now kind) }
    ensures is { constants_at types.now result ≡ definition.as_constant (kind_at types.now kind) value }
    ensures range { AreConstantsInRange graph.now types.now result }
{
    let _ = graph;
    match kind {
        TypeKind::Arithmetic(of) => {
            if is_integral(of) {
                Some(of_base(types, of, valued_as(types, kind, value)))
            } else {
                None
            }
        }
        TypeKind::Enumeration(_) => Some(Constant { of: kind, value }),
        _ => None,
    }
}

pub(crate) fn cast_constant(
    graph: &Graph,
    types: &TypeTable,
    kind: TypeKind,
    part: Option<Constant>,
) -> Option<Constant>
    requires { IsKindInRange graph.now (kind_at types.now kind) }
    ensures is { constants_at types.now result ≡ definition.cast_constant (kind_at types.now kind) (constants_at types.now part) }
    ensures range { AreConstantsInRange graph.now types.now result }
{
    match part {
        None => None,
        Some(part) => as_constant(graph, types, kind, part.value),
    }
}

fn is_true(value: Result<i128, ValueFault>) -> Result<i128, ValueFault>
    ensures { result ≡ definition.is_true value }
{
    match value {
        Ok(value) => Ok(truth(value != 0)),
        Err(fault) => Err(fault),
    }
}

fn unary_valued(
    operator: UnaryOperator,
    of: Base,
    value: Result<i128, ValueFault>,
) -> Result<i128, ValueFault>
    requires { 0 < width of }
    ensures { result ≡ definition.unary_valued operator of value }
{
    match value {
        Ok(value) => unary_value(operator, of, converted_value(of, value)),
        Err(fault) => Err(fault),
    }
}

#[tactic(auto, using(crate::proofs::Wide::promoted_wide))]
fn unary_on(
    types: &TypeTable,
    operator: UnaryOperator,
    of: Base,
    value: Result<i128, ValueFault>,
) -> Constant
    requires { 0 < width of }
    ensures { constant_at types.now result ≡ definition.unary_on operator of value }
{
    match operator {
        UnaryOperator::Not => of_base(types, Base::Bool, unary_valued(operator, Base::Bool, value)),
        _ => {
            let of = integral_promoted(of);
            of_base(types, of, unary_valued(operator, of, value))
        }
    }
}

fn unary_by(
    types: &TypeTable,
    operator: UnaryOperator,
    of: Option<Base>,
    value: Result<i128, ValueFault>,
) -> Option<Constant>
    requires { IfSome of (λ of. 0 < width of) }
    ensures { constants_at types.now result ≡ definition.unary_by operator of value }
{
    match of {
        None => None,
        Some(of) => Some(unary_on(types, operator, of, value)),
    }
}

/// What an operator makes of a constant (5.3.1).
pub(crate) fn unary_constant(
    graph: &Graph,
    types: &TypeTable,
    operator: Option<UnaryOperator>,
    part: Option<Constant>,
) -> Option<Constant>
    requires { AreConstantsInRange graph.now types.now part }
    ensures { constants_at types.now result ≡ definition.unary_constant (graph_at types.now graph.now) operator (constants_at types.now part) }
{
    match operator {
        None => None,
        Some(operator) => match part {
            None => None,
            Some(part) => unary_by(
                types,
                operator,
                integral_of(graph, types, part.of),
                part.value,
            ),
        },
    }
}

fn is_shift(operator: BinaryOperator) -> bool
    ensures { result ≡ values.is_shift operator }
{
    match operator {
        BinaryOperator::ShiftLeft | BinaryOperator::ShiftRight => true,
        _ => false,
    }
}

fn is_comparison(operator: BinaryOperator) -> bool
    ensures { result ≡ definition.is_comparison operator }
{
    match operator {
        BinaryOperator::Less
        | BinaryOperator::Greater
        | BinaryOperator::LessOrEqual
        | BinaryOperator::GreaterOrEqual
        | BinaryOperator::Equal
        | BinaryOperator::NotEqual => true,
        _ => false,
    }
}

fn result_type(operator: BinaryOperator, of: Base) -> Base
    ensures { result ≡ definition.result_type operator of }
{
    if is_comparison(operator) {
        Base::Bool
    } else {
        of
    }
}

fn value_of_two(
    operator: BinaryOperator,
    of: Base,
    one: i128,
    two: i128,
) -> Result<i128, ValueFault>
    requires wide { 0 < width of }
    requires held { values.is_shift operator ≡ false → holds of two ≡ true }
    ensures { result ≡ values.binary_value operator of (values.converted_value of one) two }
{
    binary_value(operator, of, converted_value(of, one), two)
}

fn binary_valued(
    operator: BinaryOperator,
    left: Base,
    right: Base,
    one: Result<i128, ValueFault>,
    two: Result<i128, ValueFault>,
) -> Result<i128, ValueFault>
    requires wide { 0 < width left }
    requires same { values.is_shift operator ≡ false → left ≡ right }
    ensures { result ≡ definition.binary_valued operator left right one two }
{
    match one {
        Err(fault) => Err(fault),
        Ok(one) => match two {
            Err(fault) => Err(fault),
            Ok(two) => value_of_two(operator, left, one, converted_value(right, two)),
        },
    }
}

#[tactic(auto, using(crate::proofs::Wide::promoted_wide, crate::proofs::Wide::usual_wide))]
fn binary_on(
    types: &TypeTable,
    operator: BinaryOperator,
    left: Base,
    right: Base,
    one: Result<i128, ValueFault>,
    two: Result<i128, ValueFault>,
) -> Constant
    requires left_wide { 0 < width left }
    requires right_wide { 0 < width right }
    ensures { constant_at types.now result ≡ definition.binary_on operator left right one two }
{
    if is_shift(operator) {
        let of = integral_promoted(left);
        of_base(
            types,
            of,
            binary_valued(operator, of, integral_promoted(right), one, two),
        )
    } else {
        let of = usual(left, right);
        of_base(
            types,
            result_type(operator, of),
            binary_valued(operator, of, of, one, two),
        )
    }
}

fn binary_by(
    types: &TypeTable,
    operator: BinaryOperator,
    left: Option<Base>,
    right: Option<Base>,
    one: Result<i128, ValueFault>,
    two: Result<i128, ValueFault>,
) -> Option<Constant>
    requires left_wide { IfSome left (λ of. 0 < width of) }
    requires right_wide { IfSome right (λ of. 0 < width of) }
    ensures { constants_at types.now result ≡ definition.binary_by operator left right one two }
{
    match left {
        None => None,
        Some(left) => match right {
            None => None,
            Some(right) => Some(binary_on(types, operator, left, right, one, two)),
        },
    }
}

fn binary_constant(
    graph: &Graph,
    types: &TypeTable,
    operator: Option<BinaryOperator>,
    left: Constant,
    right: Constant,
) -> Option<Constant>
    requires left_range { IsKindInRange graph.now (kind_at types.now left.of) }
    requires right_range { IsKindInRange graph.now (kind_at types.now right.of) }
    ensures { constants_at types.now result ≡ definition.binary_constant (graph_at types.now graph.now) operator (constant_at types.now left) (constant_at types.now right) }
{
    match operator {
        None => None,
        Some(operator) => binary_by(
            types,
            operator,
            integral_of(graph, types, left.of),
            integral_of(graph, types, right.of),
            left.value,
            right.value,
        ),
    }
}

fn conjunction(
    left: Result<i128, ValueFault>,
    right: Result<i128, ValueFault>,
) -> Result<i128, ValueFault>
    ensures { result ≡ definition.conjunction left right }
{
    match left {
        Err(fault) => Err(fault),
        Ok(value) => { if value == 0 { Ok(0) } else { is_true(right) } }
    }
}

fn disjunction(
    left: Result<i128, ValueFault>,
    right: Result<i128, ValueFault>,
) -> Result<i128, ValueFault>
    ensures { result ≡ definition.disjunction left right }
{
    match left {
        Err(fault) => Err(fault),
        Ok(value) => { if value == 0 { is_true(right) } else { Ok(1) } }
    }
}

fn both_constant(
    graph: &Graph,
    types: &TypeTable,
    number: u8,
    left: Constant,
    right: Constant,
) -> Option<Constant>
    requires left_range { IsKindInRange graph.now (kind_at types.now left.of) }
    requires right_range { IsKindInRange graph.now (kind_at types.now right.of) }
    ensures { constants_at types.now result ≡ definition.both_constant (graph_at types.now graph.now) number (constant_at types.now left) (constant_at types.now right) }
{
    if number == punct::LOGICAL_AND {
        Some(of_base(types, Base::Bool, conjunction(left.value, right.value)))
    } else if number == punct::LOGICAL_OR {
        Some(of_base(types, Base::Bool, disjunction(left.value, right.value)))
    } else {
        binary_constant(graph, types, binary_operator(number), left, right)
    }
}

/// What an operator makes of two constants (5.6 to 5.15).
pub(crate) fn two_constants(
    graph: &Graph,
    types: &TypeTable,
    number: u8,
    left: Option<Constant>,
    right: Option<Constant>,
) -> Option<Constant>
    requires left_range { AreConstantsInRange graph.now types.now left }
    requires right_range { AreConstantsInRange graph.now types.now right }
    ensures { constants_at types.now result ≡ definition.two_constants (graph_at types.now graph.now) number (constants_at types.now left) (constants_at types.now right) }
{
    match left {
        None => None,
        Some(left) => match right {
            None => None,
            Some(right) => both_constant(graph, types, number, left, right),
        },
    }
}

fn is_same_kind(types: &TypeTable, left: TypeKind, right: TypeKind) -> bool
    ensures { result ≡ definition.is_same_kind (kind_at types.now left) (kind_at types.now right) }
{
    let _ = types;
    match left {
        TypeKind::Arithmetic(of) => match right {
            TypeKind::Arithmetic(other) => same_base(of, other),
            _ => false,
        },
        TypeKind::Enumeration(number) => match right {
            TypeKind::Enumeration(other) => number.0 == other.0,
            _ => false,
        },
        _ => false,
    }
}

fn usual_kind(types: &TypeTable, left: Option<Base>, right: Option<Base>) -> Option<TypeKind>
    ensures { kinds_at types.now result ≡ definition.usual_kind left right }
{
    let _ = types;
    match left {
        None => None,
        Some(left) => match right {
            None => None,
            Some(right) => Some(TypeKind::Arithmetic(usual(left, right))),
        },
    }
}

fn conditional_kind(
    graph: &Graph,
    types: &TypeTable,
    left: TypeKind,
    right: TypeKind,
) -> Option<TypeKind>
    requires left_range { IsKindInRange graph.now (kind_at types.now left) }
    requires right_range { IsKindInRange graph.now (kind_at types.now right) }
    ensures { kinds_at types.now result ≡ definition.conditional_kind (graph_at types.now graph.now) (kind_at types.now left) (kind_at types.now right) }
{
    if is_same_kind(types, left, right) {
        Some(left)
    } else {
        usual_kind(
            types,
            integral_of(graph, types, left),
            integral_of(graph, types, right),
        )
    }
}

fn chosen(
    test: Result<i128, ValueFault>,
    left: Result<i128, ValueFault>,
    right: Result<i128, ValueFault>,
) -> Result<i128, ValueFault>
    ensures { result ≡ definition.chosen test left right }
{
    match test {
        Err(fault) => Err(fault),
        Ok(value) => { if value == 0 { right } else { left } }
    }
}

fn conditional_by(
    types: &TypeTable,
    kind: Option<TypeKind>,
    value: Result<i128, ValueFault>,
) -> Option<Constant>
    ensures { constants_at types.now result ≡ definition.conditional_by (kinds_at types.now kind) value }
{
    match kind {
        None => None,
        Some(kind) => Some(Constant {
            of: kind,
            value: valued_as(types, kind, value),
        }),
    }
}

fn conditional_constant(
    graph: &Graph,
    types: &TypeTable,
    test: Constant,
    left: Constant,
    right: Constant,
) -> Option<Constant>
    requires left_range { IsKindInRange graph.now (kind_at types.now left.of) }
    requires right_range { IsKindInRange graph.now (kind_at types.now right.of) }
    ensures { constants_at types.now result ≡ definition.conditional_constant (graph_at types.now graph.now) (constant_at types.now test) (constant_at types.now left) (constant_at types.now right) }
{
    let kind = conditional_kind(graph, types, left.of, right.of);
    conditional_by(types, kind, chosen(test.value, left.value, right.value))
}

/// What the conditional operator makes of three constants (5.16).
pub(crate) fn three_constants(
    graph: &Graph,
    types: &TypeTable,
    test: Option<Constant>,
    left: Option<Constant>,
    right: Option<Constant>,
) -> Option<Constant>
    requires left_range { AreConstantsInRange graph.now types.now left }
    requires right_range { AreConstantsInRange graph.now types.now right }
    ensures { constants_at types.now result ≡ definition.three_constants (graph_at types.now graph.now) (constants_at types.now test) (constants_at types.now left) (constants_at types.now right) }
{
    match test {
        None => None,
        Some(test) => match left {
            None => None,
            Some(left) => match right {
                None => None,
                Some(right) => conditional_constant(graph, types, test, left, right),
            },
        },
    }
}

//! What expressions give to the operators, casts and conversions that take them.

ghost use Rattle.std.specs.Prelude.{ℕ, List, ◌≡◌, ◌<◌, length, IfOk};
ghost use Rattle.cxx_meaning.specs.Conversions.BuiltIn.{operand_kind as kind_of_operand};
ghost use Rattle.cxx_meaning.specs.Conversions.Kinds.{kind_of as kind_of_type};
ghost use Rattle.cxx_meaning.specs.Conversions.Order.{is_pointing as is_pointing_kind};
ghost use Rattle.cxx_meaning.specs.Conversions.Sizes as sizes;
ghost use Rattle.cxx_model.specs.Types.Numbers.{type_at};
ghost use Rattle.cxx_model.specs.Types.Trees.{CxxType, fundamental, unqualified};
ghost use Rattle.cxx_model.specs.declared.base.Base.TheVariants as base;
ghost use Rattle.cxx_reading.specs.Declarators.{is_reference as is_reference_type};
ghost use Rattle.cxx_reading.specs.Initializers as reading;
ghost use Rattle.cxx_standard.specs.Views.{kind_at, operand_at};
ghost use Rattle.cxx_tree.specs.Held.{meaning, tree, trees, type_of};
ghost use Rattle.cxx_expr.specs.Making.{GrowsOperand, GrowsType};
ghost use Rattle.cxx_expr.specs.Operands as definition;

use crate::conditional::is_class;
use crate::questions::Questions;
use cxx_builtin::operand_kind;
use cxx_model::{Base, ConstantKind, Operand, OutOfMemory, Stop, TreeId, TypeId, TypeNode};
use cxx_standard::{TypeKind, is_floating, is_pointing, kind_of};
use cxx_tree::State;
use cxx_types::TypeTable;

// ---- types

/// A fundamental type (3.9.1).
pub fn plain_type(state: &mut State, base: Base) -> Result<TypeId, Stop>
    ensures { GrowsType state.old state.new result (fundamental base) }
{
    match state.plain(base) {
        Ok(of) => Ok(of),
        Err(_) => Err(Stop::OutOfMemory),
    }
}

/// A type without its cv words.
pub fn bare_type(state: &mut State, of: TypeId) -> Result<TypeId, Stop>
    requires { of.0 < length (state.old).types }
    ensures { GrowsType state.old state.new result (unqualified (type_of state.old of)) }
{
    match state.strip_cv(of) {
        Ok(of) => Ok(of),
        Err(_) => Err(Stop::OutOfMemory),
    }
}

/// What a reference refers to; any other type is what it is (8.3.2).
pub fn referred(types: &TypeTable, of: TypeId) -> TypeId
    requires { of.0 < length types.now }
    ensures is { type_at types.now result.0 ≡ sizes.referred (type_at types.now of.0) }
    ensures below { result.0 < length types.now }
{
    match types.node(of) {
        TypeNode::Reference(to) => *to,
        _ => of,
    }
}

/// Whether a type is a reference (8.3.2).
pub fn is_reference(types: &TypeTable, of: TypeId) -> bool
    requires { of.0 < length types.now }
    ensures { result ≡ is_reference_type (type_at types.now of.0) }
{
    match types.node(of) {
        TypeNode::Reference(_) => true,
        _ => false,
    }
}

// ---- operands

// The type of a value: a class keeps its cv words (3.10 p9).
#[tactic(auto, using(crate::proofs::Kept::later_refl))]
fn value_type(state: &mut State, of: TypeId) -> Result<TypeId, Stop>
    requires { of.0 < length (state.old).types }
    ensures { GrowsType state.old state.new result (reading.value_type (type_of state.old of)) }
{
    if is_class(kind_of(state.graph(), state.types(), of)) {
        Ok(of)
    } else {
        bare_type(state, of)
    }
}

/// A value of a type (3.10).
pub fn value_operand(state: &mut State, of: TypeId) -> Result<Operand, Stop>
    requires { of.0 < length (state.old).types }
    ensures { GrowsOperand state.old state.new result (reading.value_operand (type_of state.old of)) }
{
    let of = value_type(state, of)?;
    Ok(Operand {
        of,
        lvalue: false,
        constant: ConstantKind::No,
    })
}

fn void_operand(state: &mut State) -> Result<Operand, Stop>
    ensures { GrowsOperand state.old state.new result reading.void_operand }
{
    let of = plain_type(state, Base::Void)?;
    Ok(Operand {
        of,
        lvalue: false,
        constant: ConstantKind::No,
    })
}

/// What an expression gives. One that gives nothing is void.
#[tactic(auto, using(crate::proofs::Kept::later_refl))]
pub fn operand_of(state: &mut State, number: TreeId) -> Result<Operand, Stop>
    requires { number.0 < length (trees state.old) }
    ensures { GrowsOperand state.old state.new result (reading.operand_of (tree state.old number)) }
{
    match state.node(number).operand {
        Some(operand) => Ok(operand),
        None => void_operand(state),
    }
}

// ---- null pointer constants (4.10)

/// Whether a type is integral (3.9.1).
pub fn is_integral(kind: TypeKind) -> bool
    ensures { (types : List CxxType) → result ≡ definition.is_integral_kind (kind_at types kind) }
{
    match kind {
        TypeKind::Arithmetic(of) => !is_floating(of),
        _ => false,
    }
}

fn judged_operand<Q: Questions>(
    questions: &Q,
    state: &State,
    number: TreeId,
    operand: Operand,
) -> Result<Operand, OutOfMemory>
    requires ready { Q.is_ready questions.now }
    requires number { number.0 < length (trees state.now) }
    requires operand { operand.of.0 < length (state.now).types }
    ensures is { IfOk result (λ found. operand_at (state.now).types found ≡ definition.judged_operand (Q.asks questions.now) (tree state.now number) (meaning state.now) (operand_at (state.now).types operand)) }
    ensures below { IfOk result (λ found. found.of.0 < length (state.now).types) }
{
    if is_integral(kind_of(state.graph(), state.types(), operand.of))
        && questions.is_null(state, number)?
    {
        Ok(Operand {
            of: operand.of,
            lvalue: operand.lvalue,
            constant: ConstantKind::Zero,
        })
    } else {
        Ok(operand)
    }
}

/// What an expression gives, where it matters whether it is a null pointer constant.
#[tactic(auto, using(crate::proofs::Kept::later_refl, crate::proofs::Kept::tree_later, crate::proofs::Kept::tree_kept), unfolding(crate::specs::Operands::judged))]
pub fn judged<Q: Questions>(
    questions: &Q,
    state: &mut State,
    number: TreeId,
) -> Result<Operand, Stop>
    requires ready { Q.is_ready questions.now }
    requires number { number.0 < length (trees state.old) }
    ensures { GrowsOperand state.old state.new result (definition.judged (Q.asks questions.now) (tree state.old number) (meaning state.old)) }
{
    let operand = operand_of(state, number)?;
    match judged_operand(questions, state, number, operand) {
        Ok(operand) => Ok(operand),
        Err(_) => Err(Stop::OutOfMemory),
    }
}

fn leads_to_pointer(state: &State, of: TypeId) -> bool
    requires { of.0 < length (state.now).types }
    ensures { result ≡ is_pointing_kind (kind_of_type (sizes.referred (type_of state.now of))) }
{
    let to = referred(state.types(), of);
    is_pointing(kind_of(state.graph(), state.types(), to))
}

/// The same where the expression is converted to a type.
#[tactic(auto, unfolding(crate::specs::Operands::judged_to))]
pub fn judged_to<Q: Questions>(
    questions: &Q,
    state: &mut State,
    of: TypeId,
    number: TreeId,
) -> Result<Operand, Stop>
    requires ready { Q.is_ready questions.now }
    requires of { of.0 < length (state.old).types }
    requires number { number.0 < length (trees state.old) }
    ensures { GrowsOperand state.old state.new result (definition.judged_to (Q.asks questions.now) (type_of state.old of) (tree state.old number) (meaning state.old)) }
{
    if leads_to_pointer(state, of) {
        judged(questions, state, number)
    } else {
        operand_of(state, number)
    }
}

fn gives_pointer(state: &State, operand: Operand) -> bool
    requires { operand.of.0 < length (state.now).types }
    ensures { result ≡ is_pointing_kind (kind_of_operand (operand_at (state.now).types operand)) }
{
    is_pointing(operand_kind(state.graph(), state.types(), operand))
}

/// The same where the expression stands beside another one.
#[tactic(auto, using(crate::proofs::Kept::later_trans, crate::proofs::Kept::tree_later, crate::proofs::Kept::tree_kept), unfolding(crate::specs::Operands::judged_beside))]
pub fn judged_beside<Q: Questions>(
    questions: &Q,
    state: &mut State,
    other: TreeId,
    number: TreeId,
) -> Result<Operand, Stop>
    requires ready { Q.is_ready questions.now }
    requires other { other.0 < length (trees state.old) }
    requires number { number.0 < length (trees state.old) }
    ensures { GrowsOperand state.old state.new result (definition.judged_beside (Q.asks questions.now) (tree state.old other) (tree state.old number) (meaning state.old)) }
{
    let beside = operand_of(state, other)?;
    if gives_pointer(state, beside) {
        judged(questions, state, number)
    } else {
        operand_of(state, number)
    }
}

/// What a call or a cast gives: an object where the result or the type is a reference (5.2.2, 5.2.9).
#[tactic(auto, using(crate::proofs::Kept::later_refl))]
pub fn result_operand(state: &mut State, of: TypeId) -> Result<Operand, Stop>
    requires { of.0 < length (state.old).types }
    ensures { GrowsOperand state.old state.new result (definition.result_operand (type_of state.old of)) }
{
    match state.types().node(of) {
        TypeNode::Reference(to) => Ok(Operand {
            of: *to,
            lvalue: true,
            constant: ConstantKind::No,
        }),
        _ => value_operand(state, of),
    }
}

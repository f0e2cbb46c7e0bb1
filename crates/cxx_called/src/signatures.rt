//! The types of the functions that are called (5.2.2).

ghost use Rattle.std.specs.Prelude.{List, ◌≡◌, ◌<◌, length, IfOk};
ghost use Rattle.cxx_meaning.specs.Conversions.BuiltIn.{operand_kind as kind_of_operand};
ghost use Rattle.cxx_model.specs.Types.Numbers.{type_at};
ghost use Rattle.cxx_model.specs.Types.Trees.{CxxType};
ghost use Rattle.cxx_standard.specs.Views.{IsKindBelow, kind_at, operand_at};
ghost use Rattle.cxx_expr.specs.Calls as definition;
ghost use Rattle.cxx_called.specs.Views.{IsFoundBelow, found_signature, signature_at};

use cxx_builtin::operand_kind;
use cxx_model::{Operand, TypeId, TypeIdList, TypeNode};
use cxx_standard::TypeKind;
use cxx_tree::State;
use cxx_types::TypeTable;
use std::alloc::{AllocError, Global};

/// The type of a function.
#[derive(Drop)]
pub(crate) struct Signature {
    pub(crate) result: TypeId,
    pub(crate) parameters: TypeIdList,
    pub(crate) ellipsis: bool,
}

#[tactic(auto, using(crate::proofs::Signed::each_are, crate::proofs::Signed::below_more))]
fn signature_of(
    alloc: Global,
    types: &TypeTable,
    of: TypeId,
) -> Result<Option<Signature>, AllocError>
    requires { of.0 < length types.now }
    ensures is { IfOk result (λ found. found_signature types.now found ≡ definition.signature_of (type_at types.now of.0)) }
    ensures below { IfOk result (IsFoundBelow (length types.now)) }
{
    match types.node(of) {
        TypeNode::Function {
            result,
            parameters,
            ellipsis,
            ..
        } => Ok(Some(Signature {
            result: *result,
            parameters: TypeIdList::from_slice(alloc, parameters.as_slice())?,
            ellipsis: *ellipsis,
        })),
        _ => Ok(None),
    }
}

fn signature_by(
    alloc: Global,
    types: &TypeTable,
    kind: TypeKind,
) -> Result<Option<Signature>, AllocError>
    requires { IsKindBelow (length types.now) kind }
    ensures is { IfOk result (λ found. found_signature types.now found ≡ definition.signature_by (kind_at types.now kind)) }
    ensures below { IfOk result (IsFoundBelow (length types.now)) }
{
    match kind {
        TypeKind::Pointer(of) => signature_of(alloc, types, of),
        _ => Ok(None),
    }
}

/// The type of the function that an operand is, or to which it points.
pub(crate) fn called_signature(
    alloc: Global,
    state: &State,
    operand: Operand,
) -> Result<Option<Signature>, AllocError>
    requires { operand.of.0 < length (state.now).types }
    ensures is { IfOk result (λ found. found_signature (state.now).types found ≡ definition.signature_by (kind_of_operand (operand_at (state.now).types operand))) }
    ensures below { IfOk result (IsFoundBelow (length (state.now).types)) }
{
    let kind = operand_kind(state.graph(), state.types(), operand);
    signature_by(alloc, state.types(), kind)
}

/// Whether a function takes so many arguments.
#[tactic(auto, using(crate::proofs::Signed::types_length))]
pub(crate) fn fits_count(signature: &Signature, count: usize) -> bool
    ensures { (types : List CxxType) → result ≡ definition.fits_count (signature_at types signature.now) count }
{
    let parameters = signature.parameters.len();
    !(count < parameters) && (signature.ellipsis || count == parameters)
}

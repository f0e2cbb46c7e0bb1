//! The object of a call (13.3.1).

ghost use Rattle.std.specs.Prelude.{◌≡◌, ◌<◌, length};
ghost use Rattle.cxx_model.specs.Types.Numbers.{type_at};
ghost use Rattle.cxx_standard.specs.Views.{operand_at};
ghost use Rattle.cxx_overload.specs.Objects.{is_nonstatic as is_nonstatic_member, object_parameter};
ghost use Rattle.cxx_overload.specs.Views.{parameter_for, IsObject};

use cxx_model::{Cv, MemberKind, Operand, TypeId};
use cxx_types::TypeTable;

/// The object of a call, and the implicit object parameters of the member functions of its class.
#[derive(Clone, Copy)]
pub struct Object {
    pub operand: Operand,
    /// Of a function without words behind its parameter list.
    pub plain: TypeId,
    pub of_const: TypeId,
    pub of_volatile: TypeId,
    /// Of one with both words.
    pub of_both: TypeId,
}

pub(crate) fn is_nonstatic(member: MemberKind) -> bool
    ensures { result ≡ is_nonstatic_member member }
{
    match member {
        MemberKind::Nonstatic => true,
        _ => false,
    }
}

/// The implicit object parameter of a nonstatic member function with these words behind its parameter list.
pub fn parameter_of(types: &TypeTable, object: Object, cv: Cv) -> TypeId
    requires { IsObject types.now object }
    ensures is { result ≡ parameter_for object cv }
    ensures below { result.0 < length types.now }
    ensures leads { type_at types.now result.0 ≡ object_parameter (operand_at types.now object.operand) cv }
{
    let _ = types;
    match (cv.is_const, cv.is_volatile) {
        (false, false) => object.plain,
        (true, false) => object.of_const,
        (false, true) => object.of_volatile,
        (true, true) => object.of_both,
    }
}

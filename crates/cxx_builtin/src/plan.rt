//! Types that are decided and not made yet.
ghost use Rattle.std.specs.Prelude.{◌≡◌, length, None, Some, true, false, if◌then◌else◌};
ghost use Rattle.cxx_builtin.specs.Plans.{plan_at, plans_at, ArePlansBelow, IsPlanBelow};

use cxx_model::{Base, Cv, TypeId};
use cxx_types::TypeTable;

/// A type, by types that are there.
#[derive(Clone, Copy)]
pub(crate) enum Sketch {
    Plain(Base),
    Known(TypeId),
    /// The type of the value of an object of that type (4.1 to 4.3).
    Value(TypeId),
    /// That type without its cv words.
    Bare(TypeId),
    PointerTo(TypeId),
    /// A pointer to that type with further cv words.
    Added(TypeId, Cv),
    /// The pointer to which pointers to two similar types are converted (5.9).
    Similar(TypeId, TypeId),
}

/// What an operator does: the types of its operands, and of the whole.
#[derive(Clone, Copy)]
pub(crate) struct Plan {
    pub first: Sketch,
    pub second: Option<Sketch>,
    pub result: Sketch,
    pub lvalue: bool,
}

/// A plan for one operand that gives a value.
pub(crate) fn value_of_one(first: Sketch, whole: Sketch) -> Plan
    ensures { result ≡ record { first = first; second = None; result = whole; lvalue = false } }
{
    Plan {
        first,
        second: None,
        result: whole,
        lvalue: false,
    }
}

/// A plan for one operand that gives an object.
pub(crate) fn object_of_one(first: Sketch, whole: Sketch) -> Plan
    ensures { result ≡ record { first = first; second = None; result = whole; lvalue = true } }
{
    Plan {
        first,
        second: None,
        result: whole,
        lvalue: true,
    }
}

/// A plan for two operands that gives a value.
pub(crate) fn value_of_two(first: Sketch, second: Sketch, whole: Sketch) -> Plan
    ensures { result ≡ record { first = first; second = Some second; result = whole; lvalue = false } }
{
    Plan {
        first,
        second: Some(second),
        result: whole,
        lvalue: false,
    }
}

/// A plan for two operands that gives an object.
pub(crate) fn object_of_two(first: Sketch, second: Sketch, whole: Sketch) -> Plan
    ensures { result ≡ record { first = first; second = Some second; result = whole; lvalue = true } }
{
    Plan {
        first,
        second: Some(second),
        result: whole,
        lvalue: true,
    }
}

/// The plan, where it fits.
pub(crate) fn if_fits(types: &TypeTable, fits: bool, plan: Plan) -> Option<Plan>
    requires { IsPlanBelow (length types.now) plan }
    ensures is { plans_at types.now result ≡ (if fits then Some (plan_at types.now plan) else None) }
    ensures below { ArePlansBelow (length types.now) result }
{
    let _ = types;
    if fits { Some(plan) } else { None }
}

//! Operators with one operand (5.2.6, 5.3).
ghost use Rattle.std.specs.Prelude.{◌≡◌, ◌<◌, length};
ghost use Rattle.cxx_model.specs.Facts.Declarations.{graph_at};
ghost use Rattle.cxx_model.specs.Facts.Fitted.{Fitted};
ghost use Rattle.cxx_model.specs.Types.Numbers.{type_at};
ghost use Rattle.cxx_meaning.specs.Conversions.Asking.{Gives};
ghost use Rattle.cxx_meaning.specs.Conversions.BuiltIn as definition;
ghost use Rattle.cxx_builtin.specs.Plans.{plans_at, ArePlansBelow, IsAnswerBelow};
ghost use Rattle.cxx_standard.specs.Views.{kind_at, operand_at, IsKindBelow, IsKindInRange};

use crate::arithmetic::{integer_of, integral_promoted, number_of};
use crate::operand::{is_condition, is_modifiable, is_void, operand_kind};
use crate::plan::{Plan, Sketch, if_fits, object_of_one, value_of_one, value_of_two};
use crate::pointers::is_complete_object;
use cxx_graph::Graph;
use cxx_meaning::UnaryFamily;
use cxx_model::{Base, Operand, TypeId, Wait, punct};
use cxx_standard::{TypeKind, kind_of, same_base};
use cxx_types::TypeTable;

fn value_of_base(types: &TypeTable, of: Option<Base>) -> Option<Plan>
    ensures is { plans_at types.now result ≡ definition.value_of_base of }
    ensures below { ArePlansBelow (length types.now) result }
{
    let _ = types;
    match of {
        None => None,
        Some(of) => {
            let promoted = Sketch::Plain(integral_promoted(of));
            Some(value_of_one(promoted, promoted))
        }
    }
}

#[tactic(auto, unfolding(cxx_meaning::specs::Conversions::BuiltIn::follow))]
fn follow(graph: &Graph, types: &TypeTable, of: TypeId, kind: TypeKind) -> Option<Plan>
    requires known { of.0 < length types.now }
    requires kind_below { IsKindBelow (length types.now) kind }
    requires fitted { Fitted graph.now types.now }
    ensures is { plans_at types.now result ≡ definition.follow (type_at types.now of.0) (kind_at types.now kind) }
    ensures below { ArePlansBelow (length types.now) result }
{
    match kind {
        TypeKind::Pointer(to) => {
            if is_void(kind_of(graph, types, to)) {
                None
            } else {
                Some(object_of_one(Sketch::Value(of), Sketch::Known(to)))
            }
        }
        _ => None,
    }
}

fn address(types: &TypeTable, one: Operand) -> Option<Plan>
    requires { one.of.0 < length types.now }
    ensures is { plans_at types.now result ≡ definition.address (operand_at types.now one) }
    ensures below { ArePlansBelow (length types.now) result }
{
    let _ = types;
    if one.lvalue {
        Some(value_of_one(Sketch::Known(one.of), Sketch::PointerTo(one.of)))
    } else {
        None
    }
}

fn plus(graph: &Graph, types: &TypeTable, of: TypeId, kind: TypeKind) -> Option<Plan>
    requires known { of.0 < length types.now }
    requires range { IsKindInRange graph.now (kind_at types.now kind) }
    ensures is { plans_at types.now result ≡ definition.plus (graph_at types.now graph.now) (type_at types.now of.0) (kind_at types.now kind) }
    ensures below { ArePlansBelow (length types.now) result }
{
    match kind {
        TypeKind::Pointer(_) => Some(value_of_one(Sketch::Value(of), Sketch::Value(of))),
        _ => value_of_base(types, number_of(graph, types, kind)),
    }
}

fn negation(types: &TypeTable, kind: TypeKind) -> Option<Plan>
    ensures is { plans_at types.now result ≡ definition.negation (kind_at types.now kind) }
    ensures below { ArePlansBelow (length types.now) result }
{
    let _ = types;
    if is_condition(kind) {
        Some(value_of_one(Sketch::Plain(Base::Bool), Sketch::Plain(Base::Bool)))
    } else {
        None
    }
}

#[tactic(auto, unfolding(cxx_meaning::specs::Conversions::BuiltIn::is_stepped))]
fn is_stepped(graph: &Graph, types: &TypeTable, down: bool, kind: TypeKind) -> Result<bool, Wait>
    requires kind_below { IsKindBelow (length types.now) kind }
    requires fitted { Fitted graph.now types.now }
    ensures { Gives (λ x. x) result (definition.is_stepped (graph_at types.now graph.now) down (kind_at types.now kind)) }
{
    match kind {
        TypeKind::Arithmetic(of) => Ok(!(down && same_base(of, Base::Bool))),
        TypeKind::Pointer(to) => is_complete_object(graph, types, to),
        _ => Ok(false),
    }
}

#[tactic(auto, unfolding(cxx_meaning::specs::Conversions::BuiltIn::steps_to))]
fn steps_to(graph: &Graph, types: &TypeTable, down: bool, one: Operand) -> Result<bool, Wait>
    requires known { one.of.0 < length types.now }
    requires fitted { Fitted graph.now types.now }
    ensures { Gives (λ x. x) result (definition.steps_to (graph_at types.now graph.now) down (operand_at types.now one)) }
{
    if is_modifiable(types, one) {
        is_stepped(graph, types, down, kind_of(graph, types, one.of))
    } else {
        Ok(false)
    }
}

#[tactic(auto, unfolding(cxx_meaning::specs::Conversions::BuiltIn::before))]
fn before(graph: &Graph, types: &TypeTable, down: bool, one: Operand) -> Result<Option<Plan>, Wait>
    requires known { one.of.0 < length types.now }
    requires fitted { Fitted graph.now types.now }
    ensures is { Gives (plans_at types.now) result (definition.before (graph_at types.now graph.now) down (operand_at types.now one)) }
    ensures below { IsAnswerBelow (length types.now) result }
{
    let fits = steps_to(graph, types, down, one)?;
    let plan = object_of_one(Sketch::Known(one.of), Sketch::Known(one.of));
    Ok(if_fits(types, fits, plan))
}

/// `++` and `--` behind their operand.
#[tactic(auto, unfolding(cxx_meaning::specs::Conversions::BuiltIn::after))]
pub(crate) fn after(
    graph: &Graph,
    types: &TypeTable,
    down: bool,
    one: Operand,
) -> Result<Option<Plan>, Wait>
    requires known { one.of.0 < length types.now }
    requires fitted { Fitted graph.now types.now }
    ensures is { Gives (plans_at types.now) result (definition.after (graph_at types.now graph.now) down (operand_at types.now one)) }
    ensures below { IsAnswerBelow (length types.now) result }
{
    let fits = steps_to(graph, types, down, one)?;
    let plan = value_of_two(
        Sketch::Known(one.of),
        Sketch::Plain(Base::Int),
        Sketch::Bare(one.of),
    );
    Ok(if_fits(types, fits, plan))
}

fn unary_family(operator: u8) -> Option<UnaryFamily>
    ensures { result ≡ definition.unary_family operator }
{
    if operator == punct::STAR {
        Some(UnaryFamily::Follow)
    } else if operator == punct::AMPERSAND {
        Some(UnaryFamily::Address)
    } else if operator == punct::PLUS {
        Some(UnaryFamily::Plus)
    } else if operator == punct::MINUS {
        Some(UnaryFamily::Minus)
    } else if operator == punct::TILDE {
        Some(UnaryFamily::Complement)
    } else if operator == punct::EXCLAMATION {
        Some(UnaryFamily::Not)
    } else if operator == punct::INCREMENT {
        Some(UnaryFamily::Increment)
    } else if operator == punct::DECREMENT {
        Some(UnaryFamily::Decrement)
    } else {
        None
    }
}

#[tactic(auto, unfolding(cxx_meaning::specs::Conversions::BuiltIn::unary_by))]
fn unary_by(
    graph: &Graph,
    types: &TypeTable,
    family: UnaryFamily,
    one: Operand,
) -> Result<Option<Plan>, Wait>
    requires known { one.of.0 < length types.now }
    requires fitted { Fitted graph.now types.now }
    ensures is { Gives (plans_at types.now) result (definition.unary_by (graph_at types.now graph.now) family (operand_at types.now one)) }
    ensures below { IsAnswerBelow (length types.now) result }
{
    let kind = operand_kind(graph, types, one);
    match family {
        UnaryFamily::Follow => Ok(follow(graph, types, one.of, kind)),
        UnaryFamily::Address => Ok(address(types, one)),
        UnaryFamily::Plus => Ok(plus(graph, types, one.of, kind)),
        UnaryFamily::Minus => Ok(value_of_base(types, number_of(graph, types, kind))),
        UnaryFamily::Complement => Ok(value_of_base(types, integer_of(graph, types, kind))),
        UnaryFamily::Not => Ok(negation(types, kind)),
        UnaryFamily::Increment => before(graph, types, false, one),
        UnaryFamily::Decrement => before(graph, types, true, one),
    }
}

/// What an operator does with one operand.
#[tactic(auto, unfolding(cxx_meaning::specs::Conversions::BuiltIn::unary_result, cxx_meaning::specs::Conversions::BuiltIn::unary_family_result))]
pub(crate) fn unary_result(
    graph: &Graph,
    types: &TypeTable,
    operator: u8,
    one: Operand,
) -> Result<Option<Plan>, Wait>
    requires known { one.of.0 < length types.now }
    requires fitted { Fitted graph.now types.now }
    ensures is { Gives (plans_at types.now) result (definition.unary_result (graph_at types.now graph.now) operator (operand_at types.now one)) }
    ensures below { IsAnswerBelow (length types.now) result }
{
    match unary_family(operator) {
        None => Ok(None),
        Some(family) => unary_by(graph, types, family, one),
    }
}

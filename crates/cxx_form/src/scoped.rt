//! The objects and the functions of classes in each scope.
ghost use Rattle.std.specs.Prelude.{◌≡◌, ◌<◌, List, length, IfOk, OnOk};
ghost use Rattle.std.specs.List.{slice_get};
ghost use Rattle.cxx_model.specs.Facts.Declarations.{declares_at, fact_at};
ghost use Rattle.cxx_model.specs.Types.Trees.{CxxType};
ghost use Rattle.cxx_form.specs.Giving.{scope_of_part, AreParts, HasGiven};
ghost use Rattle.cxx_form.specs.Order.{is_own_function as is_own_function_of, is_part as is_part_of};
ghost use Rattle.cxx_form.specs.Views.{facts_in};

use crate::facts::fact;
use crate::held::hold;
use crate::rows::Rows;
use cxx_model::{Entity, Fact, FactId, FunctionFlags, MemberKind};
use cxx_tree::State;
use std::alloc::{AllocError, Global};

// Whether a function is one that its class declares, and not one that it has by itself (9.3, 12.1).
fn is_own_function(member: MemberKind, flags: FunctionFlags) -> bool
    ensures { result ≡ is_own_function_of member flags }
{
    match member {
        MemberKind::Free => false,
        _ => !flags.is_implicit,
    }
}

fn is_part(what: Entity) -> bool
    ensures { (types : List CxxType) → result ≡ is_part_of (declares_at types what) }
{
    match what {
        Entity::Object { .. } => true,
        Entity::Function { member, flags, .. } => is_own_function(member, flags),
        _ => false,
    }
}

// The scope in which an object or a function of a class is declared.
fn scope_of(fact: &Fact) -> Option<u32>
    ensures { (types : List CxxType) → result ≡ scope_of_part (fact_at types fact.now) }
{
    if is_part(fact.what) {
        Some(fact.scope.0)
    } else {
        None
    }
}

fn hold_at(state: &State, rows: &mut Rows, number: u32) -> Result<(), AllocError>
    requires { number < length (state.now).graph.facts }
    ensures { OnOk result (HasGiven scope_of_part rows.old rows.new number (slice_get (facts_in state.now) number)) }
{
    let fact = fact(state, FactId(number));
    hold(rows, number, scope_of(fact))?;
    Ok(())
}

/// The objects and the functions of a class in each scope, in order.
pub(crate) fn parts(state: &State, alloc: Global) -> Result<Rows, AllocError>
    ensures { IfOk result (λ rows. AreParts (facts_in state.now) rows) }
{
    let mut rows = Rows::new(alloc);
    for number in 0..state.graph().length() {
        hold_at(state, &mut rows, number)?;
    }
    Ok(rows)
}

//! The data members and the functions of classes (9.2, 9.3).
ghost use Rattle.std.specs.Prelude.{◌≡◌, ◌++◌, List, OnOk};
ghost use Rattle.std.specs.List.{slice_get};
ghost use Rattle.cxx_model.specs.Facts.Declarations.{declares_at};
ghost use Rattle.cxx_model.specs.Types.Trees.{CxxType};
ghost use Rattle.cxx_form.specs.Giving.{AreParts};
ghost use Rattle.cxx_form.specs.Lines.{numbers_in};
ghost use Rattle.cxx_form.specs.Order.{firsts_among, if_first, is_first as is_first_of, is_first_part as is_first_part_of, members_of};
ghost use Rattle.cxx_form.specs.Views.{facts_in};

use crate::facts::find;
use crate::rows::Rows;
use cxx_model::{Entity, FactId, ScopeId};
use cxx_tree::State;
use std::alloc::AllocError;

fn is_first_part(what: Entity) -> bool
    ensures { (types : List CxxType) → result ≡ is_first_part_of (declares_at types what) }
{
    match what {
        Entity::Object { first: None, .. } | Entity::Function { first: None, .. } => true,
        _ => false,
    }
}

/// Whether a declaration is the first one of an object or a function.
pub(crate) fn is_first(state: &State, number: FactId) -> bool
    ensures { result ≡ is_first_of (slice_get (facts_in state.now) number.0) }
{
    match find(state, number) {
        Some(fact) => is_first_part(fact.what),
        None => false,
    }
}

// Adds a declaration that is the first one of an object or a function.
fn add_if_first(state: &State, number: FactId, found: &mut Vec<FactId>) -> Result<(), AllocError>
    ensures { OnOk result (numbers_in found.new.items ≡ numbers_in found.old.items ++ if_first (facts_in state.now) number.0) }
{
    if !is_first(state, number) {
        return Ok(());
    }
    found.push(number)?;
    Ok(())
}

// Adds those that are.
fn add_firsts(state: &State, numbers: &[FactId], found: &mut Vec<FactId>) -> Result<(), AllocError>
    ensures { OnOk result (numbers_in found.new.items ≡ numbers_in found.old.items ++ firsts_among (facts_in state.now) (numbers_in numbers.now)) }
{
    for number in numbers {
        add_if_first(state, *number, found)?;
    }
    Ok(())
}

/// Adds the data members and the functions of the class with a scope, by their first declarations.
pub(crate) fn add_members(
    state: &State,
    parts: &Rows,
    scope: ScopeId,
    found: &mut Vec<FactId>,
) -> Result<(), AllocError>
    requires { AreParts (facts_in state.now) parts.now }
    ensures { OnOk result (numbers_in found.new.items ≡ numbers_in found.old.items ++ members_of (facts_in state.now) scope.0) }
{
    add_firsts(state, parts.row(scope.0), found)?;
    Ok(())
}

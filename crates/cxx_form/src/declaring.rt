//! The classes that declare functions (9.3).
ghost use Rattle.std.specs.Prelude.{◌≡◌, List, Some};
ghost use Rattle.cxx_model.specs.Facts.Declarations.{declares_at, fact_at};
ghost use Rattle.cxx_model.specs.Facts.Graph.{IsClassNumberInRange};
ghost use Rattle.cxx_model.specs.Types.Trees.{CxxType};
ghost use Rattle.cxx_expr.specs.Names.{class_or_none, declares_function};
ghost use Rattle.cxx_tree.specs.Held.{meaning};
ghost use Rattle.cxx_form.specs.Definitions.{class_declaring as class_declaring_of, class_of_function};

use crate::facts::find;
use cxx_expr::class_of_scope;
use cxx_model::{ClassId, Entity, Fact, FactId};
use cxx_tree::State;

fn is_function(what: Entity) -> bool
    ensures { (types : List CxxType) → result ≡ declares_function (declares_at types what) }
{
    match what {
        Entity::Function { .. } => true,
        _ => false,
    }
}

fn class_of_fact(state: &State, fact: &Fact) -> Option<ClassId>
    ensures is { class_or_none result ≡ class_of_function (meaning state.now).graph (Some (fact_at (state.now).types fact.now)) }
    ensures there { IsClassNumberInRange (state.now).graph result }
{
    if is_function(fact.what) {
        class_of_scope(state, fact.scope)
    } else {
        None
    }
}

/// The class that declares a function, by a declaration of it, where one does.
#[tactic(auto, using(crate::proofs::Classing::class_some, crate::proofs::Classing::class_none))]
pub(crate) fn class_declaring(state: &State, number: FactId) -> Option<ClassId>
    ensures is { class_or_none result ≡ class_declaring_of (meaning state.now).graph number.0 }
    ensures there { IsClassNumberInRange (state.now).graph result }
{
    match find(state, number) {
        Some(fact) => class_of_fact(state, fact),
        None => None,
    }
}

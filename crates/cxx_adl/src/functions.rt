//! The functions and function templates that facts stand for.

ghost use Rattle.std.specs.Prelude.{◌≡◌, ◌<◌, ◌∷◌, [], length};
ghost use Rattle.std.specs.List.{slice_get};
ghost use Rattle.std.specs.Option.{option_copied};
ghost use Rattle.cxx_model.specs.declared.types.FactId.{FactId as FactNumber};
ghost use Rattle.cxx_model.specs.declared.types.ScopeId.{ScopeId as ScopeNumber};
ghost use Rattle.cxx_model.specs.Facts.Declarations.{declares_at};
ghost use Rattle.cxx_model.specs.Facts.Entities.{first_or as first_fact_or, meant_by};
ghost use Rattle.cxx_model.specs.Facts.Fitted.{IsGraphBelow};
ghost use Rattle.cxx_meaning.specs.Lookups.Wanted.{is_of_functions as is_one_of_functions};
ghost use Rattle.cxx_adl.specs.Functions.{firsts, fact_list, meant_at};
ghost use Rattle.cxx_adl.specs.Views.{facts_of, graph_of};

use crate::asking::Asking;
use cxx_model::{Entity, FactId, Pattern, Steps, TemplateId};
use std::sync::ledger::Ledger;

/// What a fact stands for (7.3.3).
#[derive(Clone, Copy)]
pub(crate) struct Meant {
    pub number: FactId,
    pub what: Entity,
}

impl Asking<'_> {
    /// What a fact stands for, which is another one where it is a using-declaration.
    #[tactic(auto, using(crate::proofs::Bases::fact_is))]
    pub fn meant<L: Ledger>(&self, number: FactId, what: Entity, steps: &mut Steps<L>) -> Meant
        requires { IsGraphBelow (length self.now.types.now) self.now.graph.now }
        ensures { meant_at self.now.types.now result ≡ meant_by (facts_of self.now) number.0 (declares_at self.now.types.now what) }
    {
        match what {
            Entity::Using { target } => match self.read(u64::from(target.0), steps) {
                Some(fact) => Meant {
                    number: target,
                    what: fact.what,
                },
                None => Meant {
                    number: target,
                    what,
                },
            },
            _ => Meant { number, what },
        }
    }

    #[tactic(auto, using(crate::proofs::Patterns::functions_some, crate::proofs::Patterns::functions_none))]
    fn is_of_functions(&self, template: TemplateId) -> bool
        ensures { result ≡ is_one_of_functions (slice_get (graph_of self.now).patterns template.0) }
    {
        match pattern_at(self.graph.patterns(), template) {
            Some(pattern) => pattern.of.is_some(),
            None => false,
        }
    }

    /// The first fact of a function or a function template.
    pub fn first_of(&self, meant: Meant) -> Option<FactId>
        ensures { (scope : ScopeNumber) (itself : FactNumber) → fact_list result ≡ firsts (graph_of self.now) (record { scope = scope; itself = itself; meant = meant.number; what = declares_at self.now.types.now meant.what } ∷ []) }
    {
        match meant.what {
            Entity::Function { first, .. } => Some(first_or(meant.number, first)),
            Entity::Template {
                template,
                first,
                ..
            } => {
                if self.is_of_functions(template) {
                    Some(first_or(meant.number, first))
                } else {
                    None
                }
            }
            _ => None,
        }
    }
}

fn first_or(number: FactId, first: Option<FactId>) -> FactId
    ensures { result.0 ≡ first_fact_or number.0 first }
{
    match first {
        Some(first) => first,
        None => number,
    }
}

// The template with a number, where there is one.
fn pattern_at(patterns: &[Pattern], template: TemplateId) -> Option<&Pattern>
    ensures { option_copied result ≡ slice_get patterns.now template.0 }
{
    patterns.get(template.0 as usize)
}

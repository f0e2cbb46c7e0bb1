//! Classes that have to be complete before they are asked (14.7.1). No type decides it, so each clause here speaks of the
//! facts and the templates with no types at all.
ghost use Rattle.std.specs.Prelude.{◌≡◌, ◌&&◌, ◌∷◌, [], nat_eq, not, false};
ghost use Rattle.std.specs.List.{list_any, slice_get};
ghost use Rattle.cxx_model.specs.Facts.Declarations.{declares_at, fact_at, facts_at, graph_at};
ghost use Rattle.cxx_model.specs.Facts.Pending.{begins_or_ends as begins_or_ends_class, defining_classes, is_defined_since};
ghost use Rattle.cxx_graph.specs.Defining.{is_any_partial, is_class, is_primary_class, is_template};

use crate::graph::Graph;
use cxx_model::{ClassId, Entity, Fact, Pattern, ScopeKind, TemplateId};

// Whether a fact begins a class, or ends it.
fn begins_or_ends(class: ClassId, what: &Entity) -> bool
    ensures { result ≡ begins_or_ends_class class.0 (declares_at [] what.now) }
{
    match what {
        Entity::Scope { kind, .. } => match kind {
            ScopeKind::Class(number) => number.0 == class.0,
            _ => false,
        },
        Entity::Complete { class: number } => number.0 == class.0,
        _ => false,
    }
}

fn is_same_class(class: ClassId, number: Option<ClassId>) -> bool
    ensures { result ≡ is_class class.0 number }
{
    match number {
        None => false,
        Some(number) => class.0 == number.0,
    }
}

fn is_same_template(template: TemplateId, number: Option<TemplateId>) -> bool
    ensures { result ≡ is_template template.0 number }
{
    match number {
        None => false,
        Some(number) => number.0 == template.0,
    }
}

// Whether a class is that of a partial specialisation of a template.
fn is_partial(patterns: &[Pattern], template: TemplateId, class: ClassId) -> bool
    ensures { result ≡ is_any_partial template.0 class.0 patterns.now }
{
    for pattern in patterns {
        if is_same_template(template, pattern.primary) && is_same_class(class, pattern.class) {
            return true;
        }
    }
    false
}

// Whether a class is that of a template itself.
fn is_primary(patterns: &[Pattern], template: TemplateId, class: ClassId) -> bool
    ensures { result ≡ is_primary_class class.0 (slice_get patterns.now template.0) }
{
    match patterns.get(template.0 as usize) {
        None => false,
        Some(pattern) => is_same_class(class, pattern.class),
    }
}

impl Graph {
    // Whether the end of a class defines a template, or a partial specialisation of it.
    #[tactic(auto, using(crate::proofs::Awaiting::defining_is))]
    fn is_defining(&self, template: TemplateId, class: ClassId) -> bool
        ensures { result ≡ list_any (nat_eq class.0) (defining_classes (graph_at [] self.now) template.0) }
    {
        is_primary(self.patterns(), template, class) || is_partial(self.patterns(), template, class)
    }

    // Whether a definition stands after a fact more.
    fn is_defined_after(
        &self,
        template: TemplateId,
        class: ClassId,
        so_far: bool,
        fact: &Fact,
    ) -> bool
        ensures { result ≡ is_defined_since (defining_classes (graph_at [] self.now) template.0) class.0 so_far (fact_at [] fact.now ∷ []) }
    {
        match fact.what {
            Entity::Complete { class: number } => so_far || self.is_defining(template, number),
            Entity::Passed { class: number } => so_far && number.0 != class.0,
            _ => so_far,
        }
    }

    // Whether a definition stands, and behind the last one no completion of the class that found none.
    fn is_defined(&self, template: TemplateId, class: ClassId) -> bool
        ensures { result ≡ is_defined_since (defining_classes (graph_at [] self.now) template.0) class.0 false (facts_at [] self.now.facts) }
    {
        let mut so_far = false;
        for fact in self.facts() {
            so_far = self.is_defined_after(template, class, so_far, fact);
        }
        so_far
    }

    // Whether a class is complete, or is being read.
    fn has_begun(&self, class: ClassId) -> bool
        ensures { result ≡ list_any (λ fact. begins_or_ends_class class.0 fact.what) (facts_at [] self.now.facts) }
    {
        for fact in self.facts() {
            if begins_or_ends(class, &fact.what) {
                return true;
            }
        }
        false
    }

    /// Whether a specialisation of a template is neither complete nor being read, and a completion is due.
    pub(crate) fn is_waiting(&self, template: TemplateId, class: ClassId) -> bool
        ensures { result ≡ (not (list_any (λ fact. begins_or_ends_class class.0 fact.what) (facts_at [] self.now.facts)) && is_defined_since (defining_classes (graph_at [] self.now) template.0) class.0 false (facts_at [] self.now.facts)) }
    {
        !self.has_begun(class) && self.is_defined(template, class)
    }
}

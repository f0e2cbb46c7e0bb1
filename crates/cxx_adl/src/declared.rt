//! Where classes, enumerations and templates are declared.

ghost use Rattle.std.specs.Prelude.{◌≡◌, ◌<◌, length, List};
ghost use Rattle.std.specs.List.{slice_get};
ghost use Rattle.cxx_model.specs.Types.Trees.{CxxType};
ghost use Rattle.cxx_model.specs.Types.Numbers.{type_over};
ghost use Rattle.cxx_model.specs.Facts.Declarations.{declares_at};
ghost use Rattle.cxx_meaning.specs.Lookups.Associated.{first_scope as first_scope_of, member_scope_of, of_type, scope_of as scope_of_part, scope_of_pattern, template_scope_of};
ghost use Rattle.cxx_adl.specs.Views.{IsPartBelow, facts_of, graph_of, part_at};
ghost use Rattle.cxx_adl.specs.Tests.{declares as declares_named};

use crate::asking::Asking;
use crate::parts::Part;
use cxx_model::{ClassId, Entity, EnumId, ScopeId, TemplateId, TypeNode};

/// What is declared.
#[derive(Clone, Copy)]
pub(crate) enum Named {
    Class(ClassId),
    Enumeration(EnumId),
    Template(TemplateId),
}

impl Asking<'_> {
    // The scope of the first declaration.
    fn first_scope(&self, named: Named) -> Option<ScopeId>
        ensures { result ≡ first_scope_of (declares_named named) (facts_of self.now) }
    {
        for fact in self.graph.facts() {
            if declares(named, fact.what) {
                return Some(fact.scope);
            }
        }
        None
    }

    // The scope of the template of a class, where it is a specialisation.
    #[tactic(auto, using(crate::proofs::Classes::no_pattern, crate::proofs::Classes::pattern_is))]
    fn scope_of_pattern(&self, class: ClassId) -> Option<ScopeId>
        ensures { result ≡ scope_of_pattern (graph_of self.now) (slice_get (graph_of self.now).classes class.0) }
    {
        match self.specialisation(class) {
            Some(of) => self.first_scope(Named::Template(of.template)),
            None => None,
        }
    }

    fn scope_of_node(&self, node: &TypeNode) -> Option<ScopeId>
        ensures { result ≡ scope_of_part (graph_of self.now) (of_type (type_over self.now.types.now node.now)) }
    {
        match node {
            TypeNode::Class(class) => self.first_scope(Named::Class(*class)),
            TypeNode::Enum(number) => self.first_scope(Named::Enumeration(*number)),
            _ => None,
        }
    }

    /// The scope in which what a part names is declared.
    pub fn scope_of(&self, part: Part) -> Option<ScopeId>
        requires { IsPartBelow (length self.now.types.now) part }
        ensures { result ≡ scope_of_part (graph_of self.now) (part_at self.now.types.now part) }
    {
        match part {
            Part::Type(of) => self.scope_of_node(self.types.node(of)),
            Part::Base(class) => self.first_scope(Named::Class(class)),
        }
    }

    fn template_scope_of_node(&self, node: &TypeNode) -> Option<ScopeId>
        ensures { result ≡ template_scope_of (graph_of self.now) (of_type (type_over self.now.types.now node.now)) }
    {
        match node {
            TypeNode::Class(class) => self.scope_of_pattern(*class),
            TypeNode::Special(template, _) => self.first_scope(Named::Template(*template)),
            _ => None,
        }
    }

    /// The scope in which the template of a specialisation is declared.
    pub fn template_scope_of(&self, part: Part) -> Option<ScopeId>
        requires { IsPartBelow (length self.now.types.now) part }
        ensures { result ≡ template_scope_of (graph_of self.now) (part_at self.now.types.now part) }
    {
        match part {
            Part::Type(of) => self.template_scope_of_node(self.types.node(of)),
            Part::Base(class) => self.scope_of_pattern(class),
        }
    }

    fn member_scope_of_node(&self, node: &TypeNode) -> Option<ScopeId>
        ensures { result ≡ member_scope_of (graph_of self.now) (of_type (type_over self.now.types.now node.now)) }
    {
        match node {
            TypeNode::Class(class) => self.scope_of_pattern(*class),
            TypeNode::Enum(number) => self.first_scope(Named::Enumeration(*number)),
            TypeNode::Special(template, _) => self.first_scope(Named::Template(*template)),
            _ => None,
        }
    }

    /// The scope of which the class is associated, where a part is its member.
    pub fn member_scope_of(&self, part: Part) -> Option<ScopeId>
        requires { IsPartBelow (length self.now.types.now) part }
        ensures { result ≡ member_scope_of (graph_of self.now) (part_at self.now.types.now part) }
    {
        match part {
            Part::Type(of) => self.member_scope_of_node(self.types.node(of)),
            Part::Base(_) => None,
        }
    }
}

fn declares(named: Named, what: Entity) -> bool
    ensures { (types : List CxxType) → result ≡ declares_named named (declares_at types what) }
{
    match named {
        Named::Class(number) => match what {
            Entity::Class { class, .. } => class.0 == number.0,
            _ => false,
        },
        Named::Enumeration(other) => match what {
            Entity::Enumeration { number } => number.0 == other.0,
            _ => false,
        },
        Named::Template(number) => match what {
            Entity::Template { template, .. } => template.0 == number.0,
            _ => false,
        },
    }
}

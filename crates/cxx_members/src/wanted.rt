//! What a name is looked up for, and what declarations are.

ghost use Rattle.std.specs.Prelude.{◌≡◌, ◌+◌, ◌<◌, List, length};
ghost use Rattle.std.specs.List.{slice_get};
ghost use Rattle.std.specs.Option.{option_copied};
ghost use Rattle.cxx_model.specs.Types.Trees.{CxxType};
ghost use Rattle.cxx_model.specs.Facts.Declarations.{declares_at, name_at, fact_at};
ghost use Rattle.cxx_model.specs.Facts.Fitted.{IsNameBelow, IsFactBelow};
ghost use Rattle.cxx_model.specs.Facts.Conflicts.{declares_name as declares_a_name, has_name as has_a_name, same_name as same_names};
ghost use Rattle.cxx_meaning.specs.Lookups.Wanted.{hides_types as hides_a_type, is_hideable as is_one_hideable, is_function as is_a_function, is_of_functions as is_one_of_functions, is_wanted as is_one_wanted, names_type as names_a_type, names_space as names_a_space, is_nonstatic as is_one_nonstatic, is_nonstatic_kind};
ghost use Rattle.cxx_meaning.specs.Lookups.Sightings.{is_named as is_one_named};
ghost use Rattle.cxx_members.specs.Views.{graph_of, wanted_at};

use crate::looking::Looking;
use cxx_model::{Entity, Fact, MemberKind, Name, Pattern, TemplateId};

/// What a name is looked up for; a lookup passes over what is not wanted.
#[derive(Clone, Copy, PartialEq, Eq)]
pub enum Wanted {
    Any,
    /// Classes, enumerations, names of types and class templates: behind `enum` or a class key (3.4.4), and as a base
    /// (10).
    Types,
    /// Namespaces: in a using-directive and an alias (3.4.6).
    Spaces,
    /// Types and namespaces: before `::` (3.4.3).
    Holders,
}

/// Whether a declaration is of a type that others of its scope hide (3.3.7).
pub(crate) fn is_hideable(what: Entity) -> bool
    ensures { (types : List CxxType) → result ≡ is_one_hideable (declares_at types what) }
{
    match what {
        Entity::Injected { .. } => true,
        Entity::Class { .. } => true,
        Entity::Enumeration { .. } => true,
        _ => false,
    }
}

/// Whether a fact declares a name.
fn declares_name(what: Entity) -> bool
    ensures { (types : List CxxType) → result ≡ declares_a_name (declares_at types what) }
{
    match what {
        Entity::Scope { .. } => false,
        Entity::Complete { .. } => false,
        Entity::Passed { .. } => false,
        Entity::Ancestor { .. } => false,
        Entity::Directive { .. } => false,
        Entity::Friend { .. } => false,
        _ => true,
    }
}

fn has_name(name: &Name) -> bool
    ensures { (types : List CxxType) → result ≡ has_a_name (name_at types name.now) }
{
    match name {
        Name::Unnamed => false,
        _ => true,
    }
}

fn is_nonstatic_member(member: MemberKind) -> bool
    ensures { result ≡ is_nonstatic_kind member }
{
    match member {
        MemberKind::Free => false,
        MemberKind::Static => false,
        _ => true,
    }
}

/// Whether a declaration belongs to an object of its class (10.2).
pub(crate) fn is_nonstatic(what: Entity) -> bool
    ensures { (types : List CxxType) → result ≡ is_one_nonstatic (declares_at types what) }
{
    match what {
        Entity::Object { member, .. } => is_nonstatic_member(member),
        Entity::Function { member, .. } => is_nonstatic_member(member),
        Entity::Template { member, .. } => is_nonstatic_member(member),
        _ => false,
    }
}

fn names_space(what: Entity) -> bool
    ensures { (types : List CxxType) → result ≡ names_a_space (declares_at types what) }
{
    match what {
        Entity::Namespace { .. } => true,
        _ => false,
    }
}

fn pattern_at(patterns: &[Pattern], template: TemplateId) -> Option<&Pattern>
    ensures { option_copied result ≡ slice_get patterns.now template.0 }
{
    patterns.get(template.0 as usize)
}

impl Looking<'_> {
    #[tactic(auto, using(crate::proofs::Patterns::functions_some, crate::proofs::Patterns::functions_none))]
    fn is_of_functions(&self, template: TemplateId) -> bool
        ensures { result ≡ is_one_of_functions (slice_get (graph_of self.now).patterns template.0) }
    {
        match pattern_at(self.graph.patterns(), template) {
            Some(pattern) => pattern.of.is_some(),
            None => false,
        }
    }

    /// Whether a declaration is one of a function or a function template.
    pub fn is_function(&self, what: Entity) -> bool
        ensures { result ≡ is_a_function (graph_of self.now) (declares_at self.now.types.now what) }
    {
        match what {
            Entity::Function { .. } => true,
            Entity::Template { template, .. } => self.is_of_functions(template),
            _ => false,
        }
    }

    /// Whether a declaration hides a type of its scope (3.3.7).
    pub fn hides_types(&self, what: Entity) -> bool
        ensures { result ≡ hides_a_type (graph_of self.now) (declares_at self.now.types.now what) }
    {
        match what {
            Entity::Object { .. } => true,
            Entity::Enumerator { .. } => true,
            _ => self.is_function(what),
        }
    }

    fn names_type(&self, what: Entity) -> bool
        ensures { result ≡ names_a_type (graph_of self.now) (declares_at self.now.types.now what) }
    {
        match what {
            Entity::Injected { .. } => true,
            Entity::Class { .. } => true,
            Entity::Enumeration { .. } => true,
            Entity::Synonym { .. } => true,
            Entity::Template { template, .. } => !self.is_of_functions(template),
            _ => false,
        }
    }

    pub fn is_wanted(&self, wanted: Wanted, what: Entity) -> bool
        ensures { result ≡ is_one_wanted (graph_of self.now) (wanted_at wanted) (declares_at self.now.types.now what) }
    {
        match wanted {
            Wanted::Any => true,
            Wanted::Types => self.names_type(what),
            Wanted::Spaces => names_space(what),
            Wanted::Holders => names_space(what) || self.names_type(what),
        }
    }

    fn same_name(&self, one: &Name, two: &Name) -> bool
        requires one_below { IsNameBelow (length self.now.types.now) one.now }
        requires two_below { IsNameBelow (length self.now.types.now) two.now }
        ensures { result ≡ same_names (name_at self.now.types.now one.now) (name_at self.now.types.now two.now) }
    {
        match one {
            Name::Unnamed => match two {
                Name::Unnamed => true,
                _ => false,
            },
            Name::Spelled(word) => match two {
                Name::Spelled(other) => word == other,
                _ => false,
            },
            Name::Operator(operator) => match two {
                Name::Operator(other) => *operator == *other,
                _ => false,
            },
            Name::Conversion(of) => match two {
                Name::Conversion(other) => self.types.same(*of, *other),
                _ => false,
            },
            Name::Destructor => match two {
                Name::Destructor => true,
                _ => false,
            },
        }
    }

    /// Whether a fact is a declaration of a name.
    pub fn is_named(&self, name: &Name, fact: &Fact) -> bool
        requires name_below { IsNameBelow (length self.now.types.now) name.now }
        requires fact_below { IsFactBelow (length self.now.types.now) fact.now }
        ensures { result ≡ is_one_named (name_at self.now.types.now name.now) (fact_at self.now.types.now fact.now) }
    {
        declares_name(fact.what) && (has_name(name) && self.same_name(&fact.name, name))
    }
}

ghost use Rattle.std.specs.Prelude.{◌≡◌, ◌∷◌, ◌++◌, ℕ, List, [], None, Some, OnOk, OnErr, option_map};
ghost use Rattle.std.specs.List.{slice_get};
ghost use Rattle.std.specs.Option.{option_copied};
ghost use Rattle.cxx_model.specs.declared.facts.Fact.{Fact as OneFact};
ghost use Rattle.cxx_model.specs.Facts.Conflicts.{defined_before};
ghost use Rattle.cxx_model.specs.Facts.Declarations.{facts_at};
ghost use Rattle.cxx_model.specs.Facts.Entities.{entity_of, of_fact, of_type};
ghost use Rattle.cxx_model.specs.Types.Trees.{CxxType, class_type};
ghost use Rattle.cxx_defined.specs.Defined.{AreSameDefinitions, Defines, HasClass, HasDefinition, IsOwn, class_there, first_declared, number_in};

use cxx_graph::Graph;
use cxx_hash::Key;
use cxx_model::{ClassId, Entity, Fact, FactId, OutOfMemory};
use indexmap::IndexMap;
use std::alloc::Global;

/// The first definition of each object, function and template that has one, by its first declaration, and that of each class.
#[derive(Drop)]
pub struct Definitions {
    pub(crate) rows: IndexMap<FactId, FactId, Key>,
    pub(crate) classes: IndexMap<ClassId, FactId, Key>,
}

fn first_or(number: FactId, what: Entity) -> FactId
    ensures { result ≡ first_declared number what }
{
    match what {
        Entity::Object {
            first: Some(first),
            ..
        } => first,
        Entity::Function {
            first: Some(first),
            ..
        } => first,
        Entity::Template {
            first: Some(first),
            ..
        } => first,
        _ => number,
    }
}

fn fact_of(graph: &Graph, number: FactId) -> Option<&Fact>
    ensures { option_copied result ≡ slice_get graph.now.facts number.0 }
{
    graph.facts().get(number.0 as usize)
}

// The class that a fact declares.
fn class_of(graph: &Graph, number: FactId) -> Option<ClassId>
    ensures { result ≡ class_there (slice_get graph.now.facts number.0) }
{
    match fact_of(graph, number) {
        Some(fact) => match fact.what {
            Entity::Class { class, .. } => Some(class),
            _ => None,
        },
        None => None,
    }
}

// The first declaration of what a fact declares, where that is no class.
fn first_of(graph: &Graph, number: FactId) -> FactId
    requires own { IsOwn (slice_get graph.now.facts number.0) }
    requires other { class_there (slice_get graph.now.facts number.0) ≡ None }
    ensures { (types : List CxxType) → entity_of (facts_at types graph.now.facts) number.0 ≡ of_fact result.0 }
{
    match fact_of(graph, number) {
        Some(fact) => first_or(number, fact.what),
        None => number,
    }
}

impl Definitions {
    /// Of no definitions. What is looked up is hashed by the key.
    pub fn new(alloc: Global, key: Key) -> Definitions
        ensures { (facts : List OneFact) → Defines result facts [] }
    {
        Definitions {
            rows: IndexMap::with_hasher(alloc, key),
            classes: IndexMap::with_hasher(alloc, key),
        }
    }

    /// The first definition of the entity whose first declaration is a fact.
    pub fn before(&self, first: FactId) -> Option<FactId>
        ensures { (facts : List OneFact) (defined : List ℕ) (types : List CxxType) → Defines self.now facts defined
            → option_map number_in result ≡ defined_before (facts_at types facts) defined (of_fact first.0) }
    {
        match self.rows.get(&first) {
            Some(number) => Some(*number),
            None => None,
        }
    }

    /// The first definition of a class.
    pub fn first_of_class(&self, class: ClassId) -> Option<FactId>
        ensures { (facts : List OneFact) (defined : List ℕ) (types : List CxxType) → Defines self.now facts defined
            → option_map number_in result ≡ defined_before (facts_at types facts) defined (of_type (class_type class.0)) }
    {
        match self.classes.get(&class) {
            Some(number) => Some(*number),
            None => None,
        }
    }

    // Notes a definition of an entity, if it is the first. An `Err` changes nothing.
    fn note(&mut self, first: FactId, number: FactId) -> Result<(), OutOfMemory>
        ensures more { OnOk result (HasDefinition self.old self.new first number) }
        ensures same { OnErr result (AreSameDefinitions self.old self.new) }
    {
        if self.rows.contains_key(&first) {
            return Ok(());
        }
        self.rows.insert(first, number)?;
        Ok(())
    }

    // Notes a definition of a class, if it is the first. An `Err` changes nothing.
    fn note_class(&mut self, class: ClassId, number: FactId) -> Result<(), OutOfMemory>
        ensures more { OnOk result (HasClass self.old self.new class number) }
        ensures same { OnErr result (AreSameDefinitions self.old self.new) }
    {
        if self.classes.contains_key(&class) {
            return Ok(());
        }
        self.classes.insert(class, number)?;
        Ok(())
    }

    // Adds a fact that defines an object, a function or a template.
    fn add_own(&mut self, graph: &Graph, number: FactId) -> Result<(), OutOfMemory>
        requires own { IsOwn (slice_get graph.now.facts number.0) }
        requires other { class_there (slice_get graph.now.facts number.0) ≡ None }
        ensures more { (defined : List ℕ) → Defines self.old graph.now.facts defined → OnOk result (Defines self.new graph.now.facts (defined ++ number.0 ∷ [])) }
        ensures same { (facts : List OneFact) (defined : List ℕ) → Defines self.old facts defined → OnErr result (Defines self.new facts defined) }
    {
        let first = first_of(graph, number);
        self.note(first, number)?;
        Ok(())
    }

    // Adds a fact that defines a class.
    fn add_class(
        &mut self,
        graph: &Graph,
        class: ClassId,
        number: FactId,
    ) -> Result<(), OutOfMemory>
        requires { class_there (slice_get graph.now.facts number.0) ≡ Some class }
        ensures more { (defined : List ℕ) → Defines self.old graph.now.facts defined → OnOk result (Defines self.new graph.now.facts (defined ++ number.0 ∷ [])) }
        ensures same { (facts : List OneFact) (defined : List ℕ) → Defines self.old facts defined → OnErr result (Defines self.new facts defined) }
    {
        let _ = graph;
        self.note_class(class, number)?;
        Ok(())
    }

    /// Adds a fact that defines an object, a function, a template or a class. An `Err` changes nothing.
    pub fn add(&mut self, graph: &Graph, number: FactId) -> Result<(), OutOfMemory>
        requires { IsOwn (slice_get graph.now.facts number.0) }
        ensures more { (defined : List ℕ) → Defines self.old graph.now.facts defined → OnOk result (Defines self.new graph.now.facts (defined ++ number.0 ∷ [])) }
        ensures same { (facts : List OneFact) (defined : List ℕ) → Defines self.old facts defined → OnErr result (Defines self.new facts defined) }
    {
        match class_of(graph, number) {
            Some(class) => self.add_class(graph, class, number),
            None => self.add_own(graph, number),
        }
    }

    /// Facts behind the others change nothing of what is defined.
    pub fn later(&self)
        ensures { (facts others : List OneFact) (defined : List ℕ) → Defines self.now facts defined → Defines self.now (facts ++ others) defined }
    {
        let _ = &self.rows;
    }
}

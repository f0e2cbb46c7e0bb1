ghost use Rattle.std.specs.Prelude.{◌≡◌, ◌<◌, ◌+◌, ◌++◌, ◌⊎◌, [], ◌∷◌, List, length, None, Some, Err, ℕ, false, IsTrue, ◌↔◌, IfErr, IfNone, IfOk, IfSome, OnErr, OnOk};
ghost use Rattle.std.specs.List.{slice_get};
ghost use Rattle.std.specs.Option.{option_copied};
ghost use Rattle.cxx_model.specs.Facts.Graph.{InRange, IsClassInRange, IsOneClassMore, IsPatternInRange, IsReservedAlready, IsReservedFor, IsSpecialisationOf, IsTemplateInRange, appended, is_complete, values_of, with_class, with_pattern};
ghost use Rattle.cxx_model.specs.Facts.Declarations.{graph_at};
ghost use Rattle.cxx_model.specs.Facts.Pending.{is_pending};
ghost use Rattle.cxx_model.specs.Types.Trees.{CxxType};
ghost use Rattle.cxx_model.specs.Types.Integral.{one_holds, promoted_of_values};
ghost use Rattle.cxx_graph.specs.Ended.{ended};
ghost use Rattle.cxx_graph.specs.Numbered.{is_ancestor_of, is_in_scope, numbers_of};
ghost use Rattle.cxx_graph.specs.Reserved.{IsNew, IsUnknown, KeepsClasses};

use crate::kept::Kept;
use cxx_hash::Key;
use cxx_model::{
    ArgumentList, Base, ClassId, Entity, EnumId, Fact, FactId, OutOfMemory, Pattern, ScopeId,
    Specialisation, Steps, TemplateId, copy_arguments,
};
use indexmap::IndexMap;
use std::alloc::{AllocError, AllocFailed, Global};
use std::marker::Model;
use std::sync::ledger::Ledger;

/// How many facts and reserved classes there may be together.
const LIMIT: usize = 2_097_152;

/// Why a graph does not grow.
#[derive(Clone, Copy, Debug, PartialEq, Eq)]
pub enum AddFault {
    /// There are as many facts and reserved classes as there may be.
    Limit,
    OutOfMemory,
}

impl<T: Drop> From<AllocFailed<T>> for AddFault {
    ghost use Rattle.std.specs.Prelude.{◌≡◌};
    ghost use Rattle.cxx_graph.specs.declared.graph.AddFault.TheVariants.{OutOfMemory};

    ghost from_gives = { λ _ fault. fault ≡ OutOfMemory };

    fn from(_error: AllocFailed<T>) -> AddFault {
        AddFault::OutOfMemory
    }
}

impl From<OutOfMemory> for AddFault {
    ghost use Rattle.std.specs.Prelude.{◌≡◌};
    ghost use Rattle.cxx_graph.specs.declared.graph.AddFault.TheVariants.{OutOfMemory as Memory};

    ghost from_gives = { λ _ fault. fault ≡ Memory };

    fn from(_error: OutOfMemory) -> AddFault {
        AddFault::OutOfMemory
    }
}

impl From<AllocError> for AddFault {
    ghost use Rattle.std.specs.Prelude.{◌≡◌};
    ghost use Rattle.cxx_graph.specs.declared.graph.AddFault.TheVariants.{OutOfMemory as Memory};

    ghost from_gives = { λ _ fault. fault ≡ Memory };

    fn from(_error: AllocError) -> AddFault {
        AddFault::OutOfMemory
    }
}

/// What a unit declares: facts, which are only appended; the classes that were reserved, some of them for
/// specialisations of templates; and the templates. Every number in it names something that is there.
#[derive(Drop)]
pub struct Graph {
    facts: Vec<Fact>,
    // For each class, where its specialisation stands among `specialisations`, if it was reserved for one.
    classes: Vec<Option<u32>>,
    // Whether the end of each class was read.
    completed: Vec<bool>,
    specialisations: IndexMap<Specialisation, ClassId, Key>,
    patterns: Vec<Pattern>,
    kept: Kept,
    alloc: Global,
}

impl Model for Graph {
    ghost use Rattle.std.specs.Coded.{codes};
    ghost use Rattle.cxx_model.specs.Facts.Graph as definition;
    ghost use Rattle.cxx_model.specs.contracts.types.Formula as formula;
    ghost use Rattle.cxx_model.specs.contracts.types.TypeTree as tree;

    ghost Value = { definition.Graph };

    ghost coded = { Prim.hlevel (codes, formula.the_row.coded, tree.the_row.coded) };

    ghost use Rattle.cxx_graph.specs.Stored.{IsWhole, graph_of};

    ghost view = { λ graph. graph_of graph.facts.items graph.specialisations.entries graph.classes.items graph.patterns.items };

    ghost invariant = { λ graph. IsWhole graph.facts.items graph.specialisations.entries graph.classes.items graph.completed.items graph.patterns.items graph.kept.members graph.kept.bases graph.kept.holders.items };
}

impl Graph {
    /// A graph of no facts, no classes and no templates. Specialisations are hashed by the key.
    pub fn new(alloc: Global, key: Key) -> Graph
        ensures { result ≡ record { facts = []; classes = []; patterns = [] } }
    {
        Graph {
            facts: Vec::new(alloc),
            classes: Vec::new(alloc),
            completed: Vec::new(alloc),
            specialisations: IndexMap::with_hasher(alloc, key),
            patterns: Vec::new(alloc),
            kept: Kept::new(alloc),
            alloc,
        }
    }

    /// How many facts there are.
    pub fn length(&self) -> u32
        ensures count { result ≡ length self.now.facts }
        ensures range { InRange self.now }
    {
        self.facts.len() as u32
    }

    /// Each number in the graph is in range, for the caller who adds to it.
    pub fn in_range(&self)
        ensures { InRange self.now }
    {
        let _ = &self.facts;
    }

    /// The facts in their order.
    pub fn facts(&self) -> &[Fact]
        ensures { result.now ≡ self.now.facts }
    {
        self.facts.as_slice()
    }

    /// The numbers of the facts of a scope, in order.
    pub fn facts_of(&self, scope: ScopeId) -> &[FactId]
        ensures { result.now ≡ numbers_of (is_in_scope scope.0) self.now.facts }
    {
        self.kept.members.row(scope.0)
    }

    /// The numbers of the facts of the direct bases of a class (10), in order.
    pub fn ancestors(&self, class: ClassId) -> &[FactId]
        ensures { result.now ≡ numbers_of (is_ancestor_of class.0) self.now.facts }
    {
        self.kept.bases.row(class.0)
    }

    /// The type to which an enumeration is promoted (4.5): the first of `int`, `unsigned`, `long` and `unsigned long` that
    /// holds the values of its enumerators. With no enumerator it is promoted as one whose value is 0 (7.2).
    pub fn promoted(&self, number: EnumId) -> Option<Base>
        ensures { result ≡ promoted_of_values (values_of self.now.facts number.0) }
    {
        self.kept.holders_of(number).promoted()
    }

    /// Whether one of the types to which an enumeration may be promoted holds the values of its enumerators and one more
    /// (7.2). It takes one step, however many enumerators there are.
    pub fn one_holds(&self, number: EnumId, value: i128) -> bool
        ensures { result ≡ one_holds (values_of self.now.facts number.0 ++ value ∷ []) }
    {
        self.kept.holders_of(number).with(value).any()
    }

    /// The fact with a number. It takes one step.
    pub fn fact<L: Ledger>(&self, number: FactId, steps: &mut Steps<L>) -> &Fact
        requires { number.0 < length self.now.facts }
        ensures is { slice_get self.now.facts number.0 ≡ Some result.now }
        ensures step { steps.new ≡ steps.old + 1 }
    {
        steps.tick();
        &self.facts[number.0 as usize]
    }

    /// Whether the end of a class was read (9.2).
    pub fn complete(&self, class: ClassId) -> bool
        requires { class.0 < length self.now.classes }
        ensures { result ≡ is_complete self.now.facts class.0 }
    {
        self.completed[class.0 as usize]
    }

    /// Appends a fact. An `Err` changes nothing.
    pub fn add(&mut self, fact: Fact) -> Result<FactId, AddFault>
        requires { InRange (appended self.old fact) }
        ensures number { IfOk result (λ number. number.0 ≡ length self.old.facts) }
        ensures appended { OnOk result (self.new ≡ appended self.old fact) }
        ensures unchanged { OnErr result (self.new ≡ self.old) }
        ensures limit { (result ≡ Err AddFault.Limit) ↔ (length self.old.facts + length self.old.classes ≡ 2097152) }
    {
        if self.facts.len() + self.classes.len() == LIMIT {
            return Err(AddFault::Limit);
        }
        let number = FactId(self.facts.len() as u32);
        let ended = ended_by(&fact.what);
        self.facts.reserve(1)?;
        self.kept.note(number, &fact)?;
        self.facts.push(fact)?;
        if let Some(class) = ended {
            let class = class.0 as usize;
            self.completed[class] = true;
        }
        Ok(number)
    }

    /// The number of a class. Without a template it is a new one at each call; with one it is that of the
    /// specialisation (14.7.1), which has one number however often it is asked for. An `Err` changes nothing.
    pub fn reserve_class(
        &mut self,
        template: Option<TemplateId>,
        arguments: &ArgumentList,
    ) -> Result<ClassId, AddFault>
        requires { IsTemplateInRange self.old template }
        ensures is { IfOk result (λ class. IsReservedFor self.new template arguments.now class.0) }

        // A specialisation that has a class keeps it.
        ensures already { (n : ℕ) → IsReservedAlready self.old template arguments.now n
            → IfOk result (λ class. class.0 ≡ n) }
        ensures kept { (n : ℕ) → IsReservedAlready self.old template arguments.now n
            → OnOk result (self.new ≡ self.old) }

        // Else the class is a new one.
        ensures fresh { IsUnknown self.old template arguments.now
            → IfOk result (λ class. class.0 ≡ length self.old.classes) }
        ensures grown { IsUnknown self.old template arguments.now
            → OnOk result (IsOneClassMore self.old self.new) }

        ensures reserved { IfOk result (λ class. class.0 < length self.new.classes) }
        ensures at_most_one { OnOk result ((self.new ≡ self.old) ⊎ IsOneClassMore self.old self.new) }
        ensures keeps { KeepsClasses self.old self.new }
        ensures unchanged { OnErr result (self.new ≡ self.old) }

        // The limit is met by a new class alone.
        ensures limit_when_full { result ≡ Err AddFault.Limit
            → length self.old.facts + length self.old.classes ≡ 2097152 }
        ensures limit_when_new { result ≡ Err AddFault.Limit → IsUnknown self.old template arguments.now }
        ensures full { length self.old.facts + length self.old.classes ≡ 2097152
            → IsUnknown self.old template arguments.now
            → (result ≡ Err AddFault.Limit) ⊎ (result ≡ Err AddFault.OutOfMemory) }
        ensures full_alone { length self.old.facts + length self.old.classes ≡ 2097152
            → template ≡ None → result ≡ Err AddFault.Limit }
    {
        match template {
            None => self.reserve(None),
            Some(template) => {
                let arguments = copy_arguments(self.alloc, arguments.as_slice())?;
                let of = Specialisation {
                    template,
                    arguments,
                };
                match self.class_of(&of) {
                    Some(class) => Ok(class),
                    None => self.reserve(Some(of)),
                }
            }
        }
    }

    /// For what a class was reserved: the template and the arguments (14.7.1), or nothing.
    pub fn specialisation(&self, class: ClassId) -> Option<&Specialisation>
        requires { class.0 < length self.now.classes }
        ensures { slice_get self.now.classes class.0 ≡ Some (option_copied result) }
    {
        let place = self.classes[class.0 as usize]?;
        let (of, _) = self.specialisations.get_index(place as usize)?;
        Some(of)
    }

    /// Whether a class has to be complete before it is asked (14.7.1): a specialisation that is neither complete nor being
    /// read, of a template that is defined. What is no specialisation is answered at once; else the facts are gone over.
    #[tactic(auto, using(crate::proofs::Awaiting::pending_past, crate::proofs::Awaiting::pending_none))]
    pub fn pending(&self, class: ClassId) -> bool
        ensures { (types : List CxxType) → result ≡ is_pending (graph_at types self.now) class.0 }
    {
        if class.0 >= self.class_count() {
            return false;
        }
        match self.specialisation(class) {
            None => false,
            Some(of) => self.is_waiting(of.template, class),
        }
    }

    /// Appends a template (14). The scope of its parameters is a fact, so there are more facts than templates before.
    /// An `Err` changes nothing.
    pub fn add_template(&mut self, pattern: Pattern) -> Result<TemplateId, OutOfMemory>
        requires fewer { length self.old.patterns < length self.old.facts }
        requires range { IsPatternInRange self.old (length self.old.patterns) pattern }
        ensures number { IfOk result (λ number. number.0 ≡ length self.old.patterns) }
        ensures added { OnOk result (self.new ≡ with_pattern self.old pattern) }
        ensures unchanged { OnErr result (self.new ≡ self.old) }
    {
        let _ = &self.facts;
        let number = self.patterns.len() as u32;
        self.patterns.push(pattern)?;
        Ok(TemplateId(number))
    }

    /// How many classes are reserved.
    pub fn class_count(&self) -> u32
        ensures { result ≡ length self.now.classes }
    {
        self.classes.len() as u32
    }

    /// All templates, in order.
    pub fn patterns(&self) -> &[Pattern]
        ensures { result.now ≡ self.now.patterns }
    {
        self.patterns.as_slice()
    }

    /// The template with a number.
    pub fn pattern(&self, number: TemplateId) -> &Pattern
        requires { number.0 < length self.now.patterns }
        ensures { slice_get self.now.patterns number.0 ≡ Some result.now }
    {
        &self.patterns[number.0 as usize]
    }

    // The class of a specialisation, where it has one.
    fn class_of(&self, of: &Specialisation) -> Option<ClassId>
        ensures found { IfSome result (λ class. IsSpecialisationOf self.now of.now.template of.now.arguments class.0) }
        ensures only { (n : ℕ) → IsSpecialisationOf self.now of.now.template of.now.arguments n
            → IfSome result (λ class. class.0 ≡ n) }
        ensures missing { IfNone result (IsUnknown self.now (Some of.now.template) of.now.arguments) }
    {
        self.specialisations.get(of).copied()
    }

    // The number of the next class.
    fn next_class(&self) -> Result<ClassId, AddFault>
        ensures number { IfOk result (λ class. class.0 ≡ length self.now.classes) }
        ensures room { OnOk result (length self.now.facts + length self.now.classes < 2097152) }
        ensures limit { IfErr result (λ fault. fault ≡ AddFault.Limit) }
        ensures full { OnErr result (length self.now.facts + length self.now.classes ≡ 2097152) }
    {
        let count = self.classes.len();
        if self.facts.len() + count < LIMIT {
            Ok(ClassId(count as u32))
        } else {
            Err(AddFault::Limit)
        }
    }

    // A new class, for a specialisation that has none or for no template.
    fn reserve(&mut self, of: Option<Specialisation>) -> Result<ClassId, AddFault>
        requires range { IsClassInRange self.old of }
        requires new { IsNew self.old of }
        ensures number { IfOk result (λ class. class.0 ≡ length self.old.classes) }
        ensures added { OnOk result (self.new ≡ with_class self.old of) }
        ensures unchanged { OnErr result (self.new ≡ self.old) }
        ensures limit { (result ≡ Err AddFault.Limit) ↔ (length self.old.facts + length self.old.classes ≡ 2097152) }
    {
        let class = self.next_class()?;
        match of {
            None => push_class(&mut self.classes, &mut self.completed, None)?,
            Some(of) => {
                let place = self.specialisations.len() as u32;
                self.specialisations.reserve(1)?;
                push_class(&mut self.classes, &mut self.completed, Some(place))?;
                self.specialisations.insert(of, class)?;
            }
        }
        Ok(class)
    }
}

// One more class, whose end was not read. An `Err` changes nothing.
fn push_class(
    classes: &mut Vec<Option<u32>>,
    completed: &mut Vec<bool>,
    place: Option<u32>,
) -> Result<(), AddFault>
    ensures class { OnOk result (classes.new.items ≡ classes.old.items ++ place ∷ []) }
    ensures open { OnOk result (completed.new.items ≡ completed.old.items ++ false ∷ []) }
    ensures same_classes { OnErr result (classes.new.items ≡ classes.old.items) }
    ensures same_completed { OnErr result (completed.new.items ≡ completed.old.items) }
    ensures memory { IfErr result (λ fault. fault ≡ AddFault.OutOfMemory) }
{
    completed.reserve(1)?;
    classes.push(place)?;
    completed.push(false)?;
    Ok(())
}

// The class whose end an entity is.
fn ended_by(what: &Entity) -> Option<ClassId>
    ensures { result ≡ ended what.now }
{
    match what {
        Entity::Complete { class } => Some(*class),
        _ => None,
    }
}

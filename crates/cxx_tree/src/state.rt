ghost use Rattle.std.specs.Prelude.{ℕ, List, ◌≡◌, ◌<◌, ◌+◌, ◌↔◌, ◌++◌, length, Ok, Err, Some, None, [], ◌∷◌, true, false, is_ok, is_some, IsTrue, IfOk, IfSome, OnOk, OnErr, option_map};
ghost use Rattle.std.specs.List.{slice_get};
ghost use Rattle.std.specs.Option.{option_copied, option_to_list};
ghost use Rattle.cxx_model.specs.Facts.Declarations.{fact_at};
ghost use Rattle.cxx_model.specs.Facts.Fitted.{Fitted, IsFactBelow};
ghost use Rattle.cxx_model.specs.Facts.Graph.{IsKindInRange, IsUnitScope, MayFollow, appended, enumerations, scopes, with_class};
ghost use Rattle.cxx_model.specs.Types.Numbers.{AreTypesBelow, IsBoundBelow, bound_at, type_at, types_at};
ghost use Rattle.cxx_model.specs.Types.Trees as definition;
ghost use Rattle.cxx_model.specs.Types.Trees.{CxxType, decayed, fundamental};
ghost use Rattle.cxx_names.specs.Clashes.{NoTemplates};
ghost use Rattle.cxx_defined.specs.Defined.{Defines, IsOwn};
ghost use Rattle.cxx_names.specs.Index.{Notes};
ghost use Rattle.cxx_names.specs.Plain.{ArePlain, IsPlainFact};
ghost use Rattle.cxx_linked.specs.Links.{Links};
ghost use Rattle.cxx_types.specs.Parameters.{adjusted_types};
ghost use Rattle.cxx_reading.specs.Declaring as declaring;
ghost use Rattle.cxx_reading.specs.Declaring.{added, at_scope, in_enumeration, with_definition, with_linked};
ghost use Rattle.cxx_reading.specs.Classes.{reserved};
ghost use Rattle.cxx_reading.specs.Initializers.{with_call};
ghost use Rattle.cxx_reading.specs.Seen.{fact_numbers, numbered_at, type_in};
ghost use Rattle.cxx_reading.specs.State.{first_state};
ghost use Rattle.cxx_reading.specs.Units.{with_part};
ghost use Rattle.cxx_tree.specs.Answered.{AnyKnown, IsAnswered, IsClassKnown, IsFactKnown, class_number, fact_number, scope_number};
ghost use Rattle.cxx_tree.specs.Arena.{AreNodesBelow, AreTreesBelow, HaveEarlierChildren, IsNodeBelow, bound_of, tree_over};
ghost use Rattle.cxx_tree.specs.Defaults.{first_given as first_given_of, with_given, with_offer, within_default, without_offers};
ghost use Rattle.cxx_tree.specs.Held.{AreCallsBelow, AreFallbacksBelow, AreOffersBelow, ArePiecesBelow, call_at, enumeration_of_option, fallback_at, meaning, numbers_at, tree, tree as tree_of, trees};
ghost use Rattle.cxx_tree.specs.Later.{Later, MakesTree, MakesType};
ghost use Rattle.cxx_sizes.specs.Noted.{Notes as Measures};
ghost use Rattle.cxx_overload.specs.Choosers.{IsNew, told_by};
ghost use Rattle.cxx_overload.specs.Told.{told_more};
ghost use Rattle.cxx_tree.specs.Told.{told};
ghost use Rattle.cxx_tree.specs.Uses.{with_use};
ghost use Rattle.cxx_tree.specs.Whole.{entered_scope, left_scope, place_by, scope_at, scope_fact, stopped_as};

use crate::asked::Calls;
use crate::given::first_given;
use crate::kept::{
    Binding, BindingList, Decided, Fallback, FallbackList, Offer, OfferList, Piece, PieceList,
};
use crate::maker::MakesTypes;
use crate::noting::Noting;
use crate::trees::Trees;
use cxx_defined::Definitions;
use cxx_graph::{AddFault, Graph};
use cxx_hash::Key;
use cxx_linked::Linkages;
use cxx_model::{
    Access, Base, Bound, ClassId, Cv, Entity, EnumId, Fact, FactId, LimitKind, Listed, Name, Node,
    OutOfMemory, Place, ScopeId, ScopeKind, Stop, TreeId, TypeId,
};
use cxx_names::{Names, type_in as type_of_found};
use cxx_overload::Choosing;
use cxx_sizes::Layouts;
use cxx_types::TypeTable;
use std::alloc::Global;
use std::marker::Model;
use std::mem;

/// The state of a reading: what is declared so far, where the reader stands, and what the reading keeps.
#[derive(Drop)]
pub struct State {
    pub(crate) graph: Graph,
    pub(crate) types: TypeTable,
    pub(crate) names: Names,
    definitions: Definitions,
    pub(crate) linkages: Linkages,
    // Where the scopes stand, in order.
    openings: Vec<Place>,
    // What is kept of each declaration beside its name.
    pub(crate) noting: Noting,
    trees: Trees,
    pub(crate) scope: ScopeId,
    enumeration: Option<EnumId>,
    defined: Vec<FactId>,
    pub(crate) linked: Vec<FactId>,
    fallbacks: FallbackList,
    offers: OfferList,
    in_default: bool,
    // What the function returns whose body is read.
    pub(crate) result: Option<TypeId>,
    // The object that a condition declared last.
    pub(crate) tested: Option<FactId>,
    // Whether what a `for` does behind each turn is being read.
    pub(crate) in_step: bool,
    // The calls that were decided, and who is asked.
    calls: Calls,
    pieces: PieceList,
    uses: BindingList,
    pub(crate) alloc: Global,
}

impl Model for State {
    ghost use Rattle.std.specs.Coded.{codes, coded_list};
    ghost use Rattle.cxx_model.specs.Types.Code.{coded_type};
    ghost use Rattle.cxx_model.specs.contracts.types.Formula as formula;
    ghost use Rattle.cxx_model.specs.contracts.types.TypeTree as tree;
    ghost use Rattle.cxx_tree.specs.Held.{Held};
    ghost use Rattle.cxx_tree.specs.Whole.{IsWhole};

    ghost Value = { Held };

    ghost coded = { Prim.hlevel (codes, coded_type, formula.the_row.coded, tree.the_row.coded) };

    ghost view = { λ state. record { graph = state.graph; types = state.types; nodes = state.trees; scope = state.scope; enumeration = state.enumeration; defined = state.defined.items; linked = state.linked.items; fallbacks = state.fallbacks; offers = state.offers; in_default = state.in_default; result = state.result; tested = state.tested; in_step = state.in_step; calls = state.calls.calls; pieces = state.pieces; uses = state.uses; tells = state.calls.tells; asks = state.calls.asks } };

    ghost invariant = { λ state. IsWhole state.names state.definitions state.linkages state.openings.items state.noting (record { graph = state.graph; types = state.types; nodes = state.trees; scope = state.scope; enumeration = state.enumeration; defined = state.defined.items; linked = state.linked.items; fallbacks = state.fallbacks; offers = state.offers; in_default = state.in_default; result = state.result; tested = state.tested; in_step = state.in_step; calls = state.calls.calls; pieces = state.pieces; uses = state.uses; tells = state.calls.tells; asks = state.calls.asks }) };
}

fn place_at(places: &[Place], scope: ScopeId) -> Option<&Place>
    ensures { option_copied result ≡ slice_get places.now scope.0 }
{
    places.get(scope.0 as usize)
}

// Where the scope stands that a declaration begins, if it begins one.
fn place_opened(fact: &Fact) -> Option<Place>
    ensures { option_to_list result ≡ place_by fact.now.place fact.now.what }
{
    match fact.what {
        Entity::Scope { .. } => Some(fact.place),
        _ => None,
    }
}

fn stopped(added: Result<FactId, AddFault>) -> Result<FactId, Stop>
    ensures { result ≡ stopped_as added }
{
    match added {
        Ok(number) => Ok(number),
        Err(AddFault::Limit) => Err(Stop::Limit(LimitKind::Facts)),
        Err(AddFault::OutOfMemory) => Err(Stop::OutOfMemory),
    }
}

fn stopped_class(reserved: Result<ClassId, AddFault>) -> Result<ClassId, Stop>
    ensures { result ≡ stopped_as reserved }
{
    match reserved {
        Ok(number) => Ok(number),
        Err(AddFault::Limit) => Err(Stop::Limit(LimitKind::Facts)),
        Err(AddFault::OutOfMemory) => Err(Stop::OutOfMemory),
    }
}

// One more class, which is no specialisation.
#[tactic(auto, using(crate::proofs::Classes::one_more))]
fn one_class(graph: &mut Graph, alloc: Global) -> Result<ClassId, AddFault>
    ensures grown { OnOk result (graph.new ≡ with_class graph.old None) }
    ensures number { IfOk result (λ class. class.0 ≡ length graph.old.classes) }
    ensures unchanged { OnErr result (graph.new ≡ graph.old) }
    ensures limit { (result ≡ Err AddFault.Limit) ↔ (length graph.old.facts + length graph.old.classes ≡ 2097152) }
{
    let none = Listed::new(alloc);
    graph.reserve_class(None, &none)
}

// The first fact of a graph.
fn begin(graph: &mut Graph, names: &mut Names, unit: Fact) -> Result<(), OutOfMemory>
    requires empty { graph.old ≡ record { facts = []; classes = []; patterns = [] } }
    requires noted { Notes names.old [] }
    requires unit { IsUnitScope unit }
    ensures added { OnOk result (graph.new ≡ record { facts = unit ∷ []; classes = []; patterns = [] }) }
    ensures noted { Notes names.new graph.new.facts }
{
    match names.add(graph, unit) {
        Ok(_) => Ok(()),
        Err(_) => Err(OutOfMemory),
    }
}

fn bound_with(bound: Option<u64>) -> Bound
    ensures at { (types : List CxxType) → bound_at types result ≡ bound_of bound }
    ensures below { (count : ℕ) → IsBoundBelow count result }
{
    match bound {
        None => Bound::Unknown,
        Some(number) => Bound::Number(number),
    }
}

// A state is let go in parts, each of which is proved for itself.
fn let_tables_go(_graph: Graph, _types: TypeTable, _trees: Trees) {}

fn let_marks_go(
    _names: Names,
    _definitions: Definitions,
    _linkages: Linkages,
    _openings: Vec<Place>,
    _noting: Noting,
) {}

fn let_numbers_go(
    _defined: Vec<FactId>,
    _linked: Vec<FactId>,
    _fallbacks: FallbackList,
    _offers: OfferList,
) {}

fn let_parts_go(_calls: Calls, _pieces: PieceList, _uses: BindingList) {}

// The most levels of a type. Types are walked from the top, so a deeper one might not fit on the stack.
const MOST_TYPE_LEVELS: u64 = 10_000;

impl State {
    /// The state in which a reading begins. What is looked up is hashed by the key. Who is asked which function a call means
    /// was asked nothing yet.
    pub fn new(alloc: Global, key: Key, chooser: Choosing) -> Result<State, OutOfMemory>
        requires { IsNew chooser }
        ensures is { IfOk result (λ state. meaning state ≡ first_state) }
        ensures tells { IfOk result (λ state. state.tells ≡ is_some (told_by chooser)) }
    {
        let place = Place { line: 1, column: 1 };
        let mut openings = Vec::new(alloc);
        openings.push(place)?;
        let mut graph = Graph::new(alloc, key);
        let mut names = Names::new(alloc, key);
        let unit = Fact {
            place,
            scope: ScopeId(0),
            name: Name::Unnamed,
            access: Access::Public,
            what: Entity::Scope {
                parent: None,
                kind: ScopeKind::Space,
            },
        };
        begin(&mut graph, &mut names, unit)?;
        let types = TypeTable::new(alloc, key);
        let mut noting = Noting::new(alloc);
        noting.note(&graph, &types, FactId(0));
        Ok(State {
            graph,
            types,
            names,
            definitions: Definitions::new(alloc, key),
            linkages: Linkages::new(alloc, key),
            openings,
            noting,
            trees: Trees::new(alloc),
            scope: ScopeId(0),
            enumeration: None,
            defined: Vec::new(alloc),
            linked: Vec::new(alloc),
            fallbacks: Listed::new(alloc),
            offers: Listed::new(alloc),
            in_default: false,
            result: None,
            tested: None,
            in_step: false,
            calls: Calls::new(alloc, chooser),
            pieces: Listed::new(alloc),
            uses: Listed::new(alloc),
            alloc,
        })
    }

    /// The allocator of what the state holds.
    pub fn alloc(&self) -> Global {
        self.alloc
    }

    /// What is declared so far. The types that it names by number are those of the table.
    pub fn graph(&self) -> &Graph
        ensures is { result.now ≡ (self.now).graph }
        ensures fitted { Fitted (self.now).graph (self.now).types }
    {
        &self.graph
    }

    /// The index of the names of what is declared so far.
    pub fn names(&self) -> &Names
        ensures noted { Notes result.now (self.now).graph.facts }
        ensures plain { ArePlain (self.now).graph.facts }
        ensures templates { NoTemplates (self.now).graph.facts }
    {
        &self.names
    }

    /// The index of the definitions so far.
    pub fn definitions(&self) -> &Definitions
        ensures { Defines result.now (self.now).graph.facts (numbers_at (self.now).defined) }
    {
        &self.definitions
    }

    /// The index of the declarations that are linked (3.5).
    pub fn linkages(&self) -> &Linkages
        ensures { Links result.now (self.now).graph.facts (self.now).linked }
    {
        &self.linkages
    }

    /// What is kept of the declarations so far for sizes (5.3.3); none where there was no memory for it.
    pub fn layouts(&self) -> Option<&Layouts>
        ensures { IfSome result (λ kept. Measures kept.now (meaning self.now).graph.facts) }
    {
        self.noting.layouts.as_ref()
    }

    /// The types that were made so far.
    pub fn types(&self) -> &TypeTable
        ensures is { result.now ≡ (self.now).types }
        ensures fitted { Fitted (self.now).graph (self.now).types }
    {
        &self.types
    }

    /// The nodes of all trees.
    pub fn trees(&self) -> &Trees
        ensures is { result.now ≡ (self.now).nodes }
        ensures below { AreNodesBelow (length (self.now).types) (self.now).nodes }
        ensures children { HaveEarlierChildren 0 (self.now).nodes }
        ensures count { length (trees self.now) ≡ length (self.now).nodes }
    {
        &self.trees
    }

    /// The node of a tree.
    pub fn node(&self, number: TreeId) -> &Node
        requires { number.0 < length (trees self.now) }
        ensures is { slice_get (self.now).nodes number.0 ≡ Some result.now }
        ensures below { IsNodeBelow (length (self.now).types) result.now }
        ensures children { AreTreesBelow number.0 (result.now).children }
        ensures tree { tree self.now number ≡ tree_over (self.now).types (trees self.now) result.now }
    {
        self.trees.node(number)
    }

    /// Where the reader stands (3.3).
    pub fn scope(&self) -> ScopeId
        ensures is { result ≡ (self.now).scope }
        ensures there { result.0 < scopes (self.now).graph.facts }
    {
        self.scope
    }

    /// The enumeration whose list is being read (7.2).
    pub fn enumeration(&self) -> Option<EnumId>
        ensures { result ≡ (self.now).enumeration }
    {
        self.enumeration
    }

    /// The declarations that are definitions, in order (3.2).
    pub fn defined(&self) -> &[FactId]
        ensures { result.now ≡ (self.now).defined }
    {
        self.defined.as_slice()
    }

    /// The declarations that are linked, in order (3.5).
    pub fn linked(&self) -> &[FactId]
        ensures { result.now ≡ (self.now).linked }
    {
        self.linked.as_slice()
    }

    /// What was read by itself so far, in order.
    pub fn pieces(&self) -> &[Piece]
        ensures is { result.now ≡ (self.now).pieces }
        ensures below { ArePiecesBelow (length (trees self.now)) result.now }
    {
        self.pieces.as_slice()
    }

    /// The calls that were decided so far, in order (13.3).
    pub fn calls(&self) -> &[Decided]
        ensures is { result.now ≡ (self.now).calls }
        ensures below { AreCallsBelow (length (self.now).types) result.now }
    {
        self.calls.as_slice()
    }

    /// The default arguments that declarations give, in order (8.3.6).
    pub fn fallbacks(&self) -> &[Fallback]
        ensures is { result.now ≡ (self.now).fallbacks }
        ensures below { AreFallbacksBelow (length (trees self.now)) result.now }
    {
        self.fallbacks.as_slice()
    }

    /// The first default argument that is given to the parameter with an index of the function with a first declaration, of
    /// those that are given in a scope (8.3.6).
    pub fn first_given(&self, scope: ScopeId, function: FactId, index: u32) -> Option<Fallback>
        ensures is { option_map (fallback_at (trees self.now)) result ≡ first_given_of (meaning self.now).graph.facts scope.0 function.0 index (meaning self.now).given }
        ensures below { IfSome result (λ one. one.tree.0 < length (trees self.now)) }
    {
        first_given(
            &self.graph,
            scope,
            function,
            index,
            self.fallbacks.as_slice(),
        )
    }

    /// The default arguments that were read in the part that is being read, in order (8.3.6).
    pub fn offers(&self) -> &[Offer]
        ensures is { result.now ≡ (self.now).offers }
        ensures below { AreOffersBelow (length (trees self.now)) result.now }
    {
        self.offers.as_slice()
    }

    /// Whether a default argument is being read (8.3.6).
    pub fn in_default(&self) -> bool
        ensures { result ≡ (self.now).in_default }
    {
        self.in_default
    }

    /// Where a scope stands (3.3).
    pub fn place_of_scope(&self, scope: ScopeId) -> Place
        ensures { result ≡ declaring.place_of_scope (meaning self.now).graph scope.0 }
    {
        match place_at(self.openings.as_slice(), scope) {
            Some(place) => *place,
            None => Place { line: 0, column: 0 },
        }
    }

    /// Adds a declaration (3.3), where there is room for one: its number.
    pub fn add(&mut self, fact: Fact) -> Result<FactId, Stop>
        requires follows { MayFollow (self.old).graph fact }
        requires below { IsFactBelow (length (self.old).types) fact }
        requires plain { IsPlainFact (fact).what }
        ensures answered { IsAnswered fact_number IsFactKnown self.old self.new result (added (fact_at (self.old).types fact) (meaning self.old)) }
        ensures held { OnOk result (self.new ≡ record self.old { graph = appended (self.old).graph fact }) }
        ensures unchanged { OnErr result (self.new ≡ self.old) }
    {
        self.graph.in_range();
        self.openings.reserve(1)?;
        let opened = place_opened(&fact);
        let number = stopped(self.names.add(&mut self.graph, fact))?;
        self.noting.note(&self.graph, &self.types, number);
        if let Some(place) = opened {
            self.openings.push(place)?;
        }
        Ok(number)
    }

    /// One more class (9), where there is room for one: its number.
    pub fn reserve_class(&mut self) -> Result<ClassId, Stop>
        ensures answered { IsAnswered class_number IsClassKnown self.old self.new result (reserved (meaning self.old)) }
        ensures held { OnOk result (self.new ≡ record self.old { graph = with_class (self.old).graph None }) }
        ensures number { IfOk result (λ class. class.0 ≡ length (self.old).graph.classes) }
        ensures unchanged { OnErr result (self.new ≡ self.old) }
    {
        stopped_class(one_class(&mut self.graph, self.alloc))
    }

    // Adds a scope of a kind, at a place, in the scope where the reader stands.
    pub(crate) fn add_scope(&mut self, kind: ScopeKind, place: Place) -> Result<FactId, Stop>
        requires kind { IsKindInRange (self.old).graph kind }
        ensures answered { IsAnswered fact_number IsFactKnown self.old self.new result (added (scope_at kind place (meaning self.old)) (meaning self.old)) }
        ensures held { OnOk result (self.new ≡ record self.old { graph = appended (self.old).graph (scope_fact kind place (self.old).scope) }) }
    {
        let scope = self.scope;
        self.add(Fact {
            place,
            scope,
            name: Name::Unnamed,
            access: Access::Public,
            what: Entity::Scope {
                parent: Some(scope),
                kind,
            },
        })
    }

    // A scope of a kind begins, where there is room for it. The reader stands in it then.
    pub(crate) fn enter_scope(&mut self, kind: ScopeKind) -> Result<ScopeId, Stop>
        requires kind { IsKindInRange (self.old).graph kind }
        ensures { IsAnswered scope_number AnyKnown self.old self.new result (entered_scope kind (meaning self.old)) }
    {
        let number = self.names.scopes(&self.graph);
        let place = self.place_of_scope(self.scope);
        self.add_scope(kind, place)?;
        self.set_scope(number);
        Ok(number)
    }

    // The scope where the reader stands ends: the reader stands in the scope that holds it.
    pub(crate) fn leave_scope(&mut self)
        ensures later { Later self.old self.new }
        ensures is { meaning self.new ≡ left_scope (meaning self.old) }
    {
        self.graph.in_range();
        let outside = self.names.parent(&self.graph, self.scope);
        self.set_scope(outside);
    }

    /// A list of parameters begins (3.3.2), where there is room for its scope. The reader stands in that then.
    pub fn enter_parameters(&mut self) -> Result<ScopeId, Stop>
        ensures { IsAnswered scope_number AnyKnown self.old self.new result (declaring.enter_parameters (meaning self.old)) }
    {
        self.enter_scope(ScopeKind::Parameters)
    }

    /// A list of parameters ends: the reader stands in the scope that holds its scope (3.3.2).
    pub fn leave_parameters(&mut self)
        ensures later { Later self.old self.new }
        ensures is { declaring.leave_parameters (meaning self.old) ≡ Ok (tt, meaning self.new) }
    {
        self.leave_scope();
    }

    /// Notes that a declaration is a definition (3.2). An `Err` changes nothing.
    pub fn add_definition(&mut self, number: FactId) -> Result<(), OutOfMemory>
        requires { IsOwn (slice_get (self.old).graph.facts number.0) }
        ensures held { OnOk result (self.new ≡ record self.old { defined = (self.old).defined ++ number ∷ [] }) }
        ensures unchanged { OnErr result (self.new ≡ self.old) }
        ensures later { Later self.old self.new }
        ensures is { OnOk result (meaning self.new ≡ with_definition number.0 (meaning self.old)) }
    {
        self.defined.reserve(1)?;
        self.definitions.add(&self.graph, number)?;
        self.defined.push(number)?;
        Ok(())
    }

    /// Notes that a declaration is linked (3.5). An `Err` changes nothing.
    pub fn add_linked(&mut self, number: FactId) -> Result<(), OutOfMemory>
        requires { number.0 < length (self.old).graph.facts }
        ensures held { OnOk result (self.new ≡ record self.old { linked = (self.old).linked ++ number ∷ [] }) }
        ensures unchanged { OnErr result (self.new ≡ self.old) }
        ensures later { Later self.old self.new }
        ensures is { OnOk result (meaning self.new ≡ with_linked number.0 (meaning self.old)) }
    {
        self.linked.reserve(1)?;
        self.linkages.add(&self.graph, &self.names, number)?;
        self.linked.push(number)?;
        Ok(())
    }

    /// Puts the reader into the list of an enumeration, or out of it (7.2).
    pub fn set_enumeration(&mut self, number: Option<EnumId>)
        ensures held { self.new ≡ record self.old { enumeration = number } }
        ensures later { Later self.old self.new }
        ensures is { meaning self.new ≡ in_enumeration (enumeration_of_option number) (meaning self.old) }
    {
        self.enumeration = number;
    }

    /// Whether somebody is there who can be asked which function a call means (13.3).
    pub fn is_asking(&self) -> bool
        ensures { result ≡ (self.now).asks }
    {
        self.calls.is_asking()
    }

    /// The places at which somebody was asked which function a call means, where they are told: those of the calls.
    pub fn asked(&self) -> Option<&[Place]>
        requires { IsTrue (self.now).asks }
        ensures { option_copied result ≡ told self.now }
    {
        self.calls.asked()
    }

    /// Lets go of the state. It is the one place where that is done.
    pub fn let_go(self) {
        let State {
            graph,
            types,
            names,
            definitions,
            linkages,
            openings,
            noting,
            trees,
            defined,
            linked,
            fallbacks,
            offers,
            calls,
            pieces,
            uses,
            ..
        } = self;
        let_tables_go(graph, types, trees);
        let_marks_go(names, definitions, linkages, openings, noting);
        let_numbers_go(defined, linked, fallbacks, offers);
        let_parts_go(calls, pieces, uses);
    }

    /// The state, where somebody is there who can be asked which function a call means (13.3).
    pub fn settled(self) -> Result<State, OutOfMemory>
        ensures same { IfOk result (λ after. after ≡ self) }
        ensures asks { is_ok result ≡ self.asks }
    {
        if self.calls.is_asking() {
            return Ok(self);
        }
        self.let_go();
        Err(OutOfMemory)
    }

    /// Who is asked which function a call means (13.3), behind a reading of which nothing else is wanted; none where it is
    /// out.
    pub fn into_chooser(self) -> Option<Choosing>
        ensures given { is_some result ≡ self.asks }
        ensures told { IfSome result (λ chooser. told_by chooser ≡ told self) }
    {
        let mut state = self;
        let chooser = state.take_chooser();
        state.let_go();
        chooser
    }

    /// Takes out who is asked which function a call means (13.3); none where it is out.
    pub fn take_chooser(&mut self) -> Option<Choosing>
        ensures held { self.new ≡ record self.old { asks = false } }
        ensures given { is_some result ≡ (self.old).asks }
        ensures told { IfSome result (λ chooser. told_by chooser ≡ told self.old) }
        ensures later { Later self.old self.new }
        ensures same { meaning self.new ≡ meaning self.old }
    {
        self.calls.take()
    }

    /// Puts back who was asked nothing since it was taken out.
    pub fn put_chooser(&mut self, chooser: Choosing)
        requires { told_by chooser ≡ told self.old }
        ensures held { self.new ≡ record self.old { asks = true } }
        ensures later { Later self.old self.new }
        ensures same { meaning self.new ≡ meaning self.old }
    {
        self.calls.put(chooser);
    }

    /// Keeps a call that was decided (13.3), and puts back who was asked which function it means. It answers the index of the
    /// call among the calls. Where there is no memory for it, who was asked is let go.
    pub fn add_call(&mut self, call: Decided, chooser: Choosing) -> Result<u32, OutOfMemory>
        requires below { AreCallsBelow (length (self.old).types) (call ∷ []) }
        requires told { told_by chooser ≡ told_more call.place (told self.old) }
        ensures later { Later self.old self.new }
        ensures number { IfOk result (λ number. number ≡ length (meaning self.old).calls) }
        ensures added { OnOk result (meaning self.new ≡ with_call (call_at (self.old).types call) (meaning self.old)) }
    {
        let number = self.calls.add(call, chooser)?;
        Ok(number)
    }

    /// Keeps that a name, by its place, means the entity with this first declaration (3.4).
    pub fn add_use(&mut self, place: Place, target: FactId) -> Result<(), OutOfMemory>
        ensures later { Later self.old self.new }
        ensures added { OnOk result (meaning self.new ≡ with_use place target.0 (meaning self.old)) }
    {
        self.uses.push(Binding {
            scope: self.scope,
            place,
            target,
        })?;
        Ok(())
    }

    /// Lets somebody make types who looks at what is declared so far.
    pub fn make<T, M: MakesTypes<T>>(&mut self, maker: &M) -> T
        requires { M.wants maker.now (self.old).graph (self.old).types }
        ensures held { self.new ≡ record self.old { types = (self.new).types } }
        ensures later { Later self.old self.new }
        ensures same { meaning self.new ≡ meaning self.old }
        ensures makes { M.makes maker.now (self.old).graph (self.old).types (self.new).types result }
    {
        maker.make(&self.graph, &mut self.types)
    }

    /// Keeps a default argument that was read, of the parameter with an index in the list in whose scope the reader stands
    /// (8.3.6).
    pub fn add_offer(&mut self, index: u32, tree: TreeId) -> Result<(), OutOfMemory>
        requires { tree.0 < length (trees self.old) }
        ensures later { Later self.old self.new }
        ensures added { OnOk result (meaning self.new ≡ with_offer index (tree_of self.old tree) (meaning self.old)) }
    {
        self.offers.push(Offer {
            scope: self.scope,
            index,
            tree,
        })?;
        Ok(())
    }

    /// Looks no more at the default arguments that were read (8.3.6).
    pub fn clear_offers(&mut self)
        ensures later { Later self.old self.new }
        ensures is { meaning self.new ≡ without_offers (meaning self.old) }
        ensures held { self.new ≡ record self.old { offers = [] } }
    {
        self.offers = Listed::new(self.alloc);
    }

    /// Keeps a default argument that a declaration gives the parameter with an index (8.3.6).
    pub fn add_fallback(
        &mut self,
        declaration: FactId,
        index: u32,
        tree: TreeId,
    ) -> Result<(), OutOfMemory>
        requires { tree.0 < length (trees self.old) }
        ensures later { Later self.old self.new }
        ensures added { OnOk result (meaning self.new ≡ with_given declaration.0 index (tree_of self.old tree) (meaning self.old)) }
    {
        self.fallbacks.push(Fallback {
            declaration,
            index,
            tree,
        })?;
        Ok(())
    }

    /// A default argument begins to be read, or ends (8.3.6).
    pub fn set_in_default(&mut self, inside: bool)
        ensures later { Later self.old self.new }
        ensures is { meaning self.new ≡ within_default inside (meaning self.old) }
        ensures held { self.new ≡ record self.old { in_default = inside } }
    {
        self.in_default = inside;
    }

    /// Keeps what was read by itself, with the names that were bound in it.
    pub fn add_piece(&mut self, number: TreeId) -> Result<(), OutOfMemory>
        requires { number.0 < length (trees self.old) }
        ensures later { Later self.old self.new }
        ensures added { OnOk result (meaning self.new ≡ with_part (tree self.old number) (meaning self.old)) }
    {
        let uses = mem::replace(&mut self.uses, Listed::new(self.alloc));
        self.offers = Listed::new(self.alloc);
        let piece = Piece {
            tree: number,
            scope: ScopeId(0),
            uses,
        };
        self.pieces.push(piece)?;
        Ok(())
    }

    /// Puts the reader into a scope.
    pub fn set_scope(&mut self, scope: ScopeId)
        requires { scope.0 < scopes (self.old).graph.facts }
        ensures later { Later self.old self.new }
        ensures is { meaning self.new ≡ at_scope scope.0 (meaning self.old) }
        ensures held { self.new ≡ record self.old { scope = scope } }
    {
        self.scope = scope;
    }

    /// Adds a node to the trees.
    pub fn push(&mut self, node: Node) -> Result<TreeId, OutOfMemory>
        requires below { IsNodeBelow (length (self.old).types) node }
        requires children { AreTreesBelow (length (trees self.old)) node.children }
        ensures { MakesTree self.old self.new result (tree_over (self.old).types (trees self.old) node) }
    {
        self.trees.push(node)
    }

    /// An enumeration (7.2).
    pub fn enumeration_type(&mut self, number: EnumId) -> Result<TypeId, OutOfMemory>
        requires { number.0 < enumerations (self.old).graph.facts }
        ensures { MakesType self.old self.new result (definition.enumeration number.0) }
    {
        self.types.enumeration(number)
    }

    /// A class (9).
    pub fn class_type(&mut self, class: ClassId) -> Result<TypeId, OutOfMemory>
        requires { class.0 < length (self.old).graph.classes }
        ensures made { MakesType self.old self.new result (definition.class_type class.0) }
        ensures graph { self.new.graph ≡ self.old.graph }
    {
        self.types.class(class)
    }

    /// The type that declarations that were found name (7.1.3); `void` where they name none.
    pub fn type_named(&mut self, numbers: &[FactId]) -> Result<TypeId, OutOfMemory>
        ensures { MakesType self.old self.new result (type_in (numbered_at (meaning self.old).graph (fact_numbers numbers.now))) }
    {
        self.graph.in_range();
        type_of_found(&self.graph, &mut self.types, numbers)
    }

    /// A fundamental type (3.9.1).
    pub fn plain(&mut self, base: Base) -> Result<TypeId, OutOfMemory>
        ensures { MakesType self.old self.new result (fundamental base) }
    {
        self.types.plain(base)
    }

    // Whether a type has as many levels as a type may have; one more is answered as want of memory.
    fn is_deepest(&self, of: TypeId) -> bool
        requires { of.0 < length (self.now).types }
    {
        self.types.levels(of) >= MOST_TYPE_LEVELS
    }

    /// A pointer to a type (8.3.1).
    pub fn pointer_to(&mut self, of: TypeId) -> Result<TypeId, OutOfMemory>
        requires { of.0 < length (self.old).types }
        ensures { MakesType self.old self.new result (definition.pointer_to (type_at (self.old).types of.0)) }
    {
        if self.is_deepest(of) {
            return Err(OutOfMemory);
        }
        self.types.pointer_to(of)
    }

    /// A reference to a type (8.3.2).
    pub fn reference_to(&mut self, of: TypeId) -> Result<TypeId, OutOfMemory>
        requires { of.0 < length (self.old).types }
        ensures { MakesType self.old self.new result (definition.reference_to (type_at (self.old).types of.0)) }
    {
        if self.is_deepest(of) {
            return Err(OutOfMemory);
        }
        self.types.reference_to(of)
    }

    /// A type with cv words besides its own (3.9.3).
    pub fn with_cv(&mut self, of: TypeId, cv: Cv) -> Result<TypeId, OutOfMemory>
        requires { of.0 < length (self.old).types }
        ensures { MakesType self.old self.new result (definition.with_cv cv (type_at (self.old).types of.0)) }
    {
        self.types.with_cv(of, cv)
    }

    /// A type without its cv words (3.9.3).
    pub fn strip_cv(&mut self, of: TypeId) -> Result<TypeId, OutOfMemory>
        requires { of.0 < length (self.old).types }
        ensures { MakesType self.old self.new result (definition.unqualified (type_at (self.old).types of.0)) }
    {
        self.types.strip_cv(of)
    }

    /// A type, or what stands in its place for an array and a function (4.2, 4.3).
    pub fn decay(&mut self, of: TypeId) -> Result<TypeId, OutOfMemory>
        requires { of.0 < length (self.old).types }
        ensures { MakesType self.old self.new result (decayed (type_at (self.old).types of.0)) }
    {
        self.types.decay(of)
    }

    /// An array of a type, with its bound where one is written (8.3.4).
    pub fn array_of(&mut self, of: TypeId, bound: Option<u64>) -> Result<TypeId, OutOfMemory>
        requires { of.0 < length (self.old).types }
        ensures { MakesType self.old self.new result (definition.array_of (type_at (self.old).types of.0) (bound_of bound)) }
    {
        if self.is_deepest(of) {
            return Err(OutOfMemory);
        }
        let bound = bound_with(bound);
        self.types.array_of(of, bound)
    }

    /// A function (8.3.5), given the type that it returns and the words behind its parameters. Its parameters are adjusted.
    pub fn function_to(
        &mut self,
        returned: TypeId,
        parameters: &[TypeId],
        ellipsis: bool,
        cv: Cv,
    ) -> Result<TypeId, OutOfMemory>
        requires known { returned.0 < length (self.old).types }
        requires below { AreTypesBelow (length (self.old).types) parameters.now }
        ensures { MakesType self.old self.new result (definition.function_of (type_at (self.old).types returned.0) (adjusted_types (types_at (self.old).types parameters.now)) ellipsis cv) }
    {
        if self.is_deepest(returned) {
            return Err(OutOfMemory);
        }
        self.types.function_to(returned, parameters, ellipsis, cv)
    }
}
